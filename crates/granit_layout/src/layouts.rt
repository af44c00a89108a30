//! The state that the lexemes so far leave to a reader.
ghost use Rattle.std.specs.Prelude.{◌≡◌, ◌<◌, ◌^◌, ◌&&◌, ◌||◌, true, false, not, drop, length, slice_get, Ok, IfErr};
ghost use Rattle.std.specs.Prelude.{OnOk};
ghost use Rattle.granit_error.specs.FaultKind as faults;
ghost use Rattle.granit_error.specs.OptionsView.{options_of};
ghost use Rattle.granit_cursor.specs.Tokens.{layout_data};
ghost use Rattle.granit_lexemes.specs.LayoutData as layout;
ghost use Rattle.granit_lexemes.specs.Lexeme.{opener_char};
ghost use Rattle.granit_machine.specs.Columns as columns;
ghost use Rattle.granit_machine.specs.FlowLexemes as flow;
ghost use Rattle.granit_machine.specs.Gaps as gaps;
ghost use Rattle.granit_machine.specs.IndicatorLexemes as indicators;
ghost use Rattle.granit_machine.specs.Laid as laid;
ghost use Rattle.granit_machine.specs.NodeLexemes as nodes;
ghost use Rattle.granit_machine.specs.PossibleKeys as keys;
ghost use Rattle.granit_machine.specs.ReaderState as reader;
ghost use Rattle.granit_machine.specs.StreamLexemes as streams;
ghost use Rattle.granit_machine.specs.Leaving.{Leaves, LeavesIfRoom};
ghost use Rattle.granit_layout.specs.Heads.{is_headed};
ghost use Rattle.granit_layout.specs.Opening.{opens_column};
ghost use Rattle.granit_layout.specs.StaleKeys.{without_stale_key};
ghost use Rattle.granit_refused.specs.Answered.{answered};

use crate::brackets::Brackets;
use crate::columns::Columns;
use crate::keys::{
    is_column, is_left, is_of, is_stale, is_wide_at, key_goes_on, refuse_required, tab_column,
};
use crate::last::{is_dash, is_indicator, is_opener, is_question, no_more_adjacent};
use granit_base::{Marker, NoMemory};
use granit_cursor::Layout;
use granit_error::{ErrorKind, Options, ScanError};
use granit_lexemes::{Bracket, LastLexeme, OpenBracket, PossibleKey};
use granit_refused::{Refused, refuse_at};
use std::alloc::Global;
use std::marker::Model;

/// What the lexemes so far leave open, and what the last one lets the next be.
#[derive(Drop)]
pub struct Layouts {
    number: usize,
    key: Option<PossibleKey>,
    brackets: Brackets,
    columns: Columns,
    rolled: bool,
    last: LastLexeme,
    cut: Option<Marker>,
    may_prefix: bool,
}

impl Model for Layouts {
    ghost use Rattle.granit_machine.specs.Laid.{Laid};

    ghost Value = { Laid };

    ghost view = { λ l. record {
      number = l.number;
      key = l.key;
      brackets = l.brackets;
      columns = l.columns;
      rolled = l.rolled;
      last = l.last;
      cut = l.cut;
      may_prefix = l.may_prefix;
    } };
}

// What is seen of it.
impl Layouts {
    /// Before a text.
    pub fn new(alloc: Global) -> Layouts
        ensures { result ≡ laid.laid_start }
    {
        Layouts {
            number: 0,
            key: None,
            brackets: Brackets::new(alloc),
            columns: Columns::new(alloc),
            rolled: false,
            last: LastLexeme::Another,
            cut: None,
            may_prefix: true,
        }
    }

    /// How many lexemes were read.
    pub fn number(&self) -> usize
        ensures { result ≡ self.now.number }
    {
        self.number
    }

    /// What the last lexeme lets the next one be.
    pub fn last(&self) -> LastLexeme
        ensures { result ≡ self.now.last }
    {
        self.last
    }

    /// Whether a tab in the innermost column is refused too.
    pub fn rolled(&self) -> bool
        ensures { result ≡ self.now.rolled }
    {
        self.rolled
    }

    /// The `#` that ended the last plain scalar.
    pub fn cut(&self) -> Option<Marker>
        ensures { result ≡ self.now.cut }
    {
        self.cut
    }

    /// Whether a byte-order mark may stand in front of a document.
    pub fn may_prefix(&self) -> bool
        ensures { result ≡ self.now.may_prefix }
    {
        self.may_prefix
    }

    /// Whether a bracket is open.
    pub fn is_in_flow(&self) -> bool
        ensures { result ≡ laid.is_in_flow self.now }
    {
        self.brackets.is_open()
    }

    /// How many brackets are open.
    pub fn depth(&self) -> usize
        ensures { result ≡ length self.now.brackets }
    {
        self.brackets.depth()
    }

    /// The innermost open bracket.
    pub fn top_bracket(&self) -> Option<OpenBracket>
        ensures { result ≡ slice_get self.now.brackets 0 }
    {
        self.brackets.last()
    }

    /// Whether a `,` here stands in a sequence.
    pub fn in_square(&self) -> bool
        ensures { result ≡ laid.in_square self.now.brackets }
    {
        match self.brackets.last() {
            None => false,
            Some(open) => matches!(open.bracket, Bracket::Square),
        }
    }

    /// The column of the innermost open block collection.
    pub fn block_column(&self) -> Option<usize>
        ensures { result ≡ laid.block_column self.now }
    {
        self.columns.innermost()
    }

    /// How many columns are open.
    pub fn column_count(&self) -> usize
        ensures { result ≡ length self.now.columns }
    {
        self.columns.len()
    }

    /// Whether a block collection is open.
    pub fn has_columns(&self) -> bool
        ensures { result ≡ laid.is_nonempty self.now.columns }
    {
        self.columns.innermost().is_some()
    }

    /// Whether a column is left of where a node may stand.
    pub fn is_left(&self, column: usize) -> bool
        ensures { result ≡ layout.is_left (laid.block_column self.now) column }
    {
        is_left(self.block_column(), column)
    }

    /// Whether the last lexeme was an indicator behind which a node stands.
    pub fn follows_indicator(&self) -> bool
        ensures { result ≡ (laid.is_dash self.now.last || laid.is_indicator self.now.last) }
    {
        is_dash(self.last) || is_indicator(self.last)
    }

    /// Whether a byte-order mark may stand in the gap that begins here.
    pub fn takes_prefix(&self) -> bool
        ensures { result ≡ gaps.takes_prefix self.now }
    {
        self.may_prefix && !self.is_in_flow()
    }

    /// What a property lets the next lexeme be.
    pub fn last_of_property(&self, options: &Options) -> LastLexeme
        ensures { result ≡ nodes.last_of_property (options_of options.now) self.now }
    {
        if options.strict_indentation && is_question(self.last) {
            return LastLexeme::BehindProperty;
        }
        LastLexeme::Another
    }

    /// What a `,` lets the next lexeme be.
    pub fn last_of_comma(&self) -> LastLexeme
        ensures { result ≡ flow.last_of_comma self.now }
    {
        if self.is_in_flow() {
            return LastLexeme::Opener;
        }
        LastLexeme::Another
    }
}

// Possible keys (YAML 1.2.2, 7.4.2 and 8.2).
impl Layouts {
    /// The possible key in the innermost bracket, or outside all.
    pub fn top_key(&self) -> Option<PossibleKey>
        ensures { result ≡ keys.top_key self.now }
    {
        *self.brackets.key(&self.key)
    }

    fn set_top_key(&mut self, key: &Option<PossibleKey>)
        ensures { self.new ≡ keys.with_top_key key.now self.old }
    {
        if self.is_in_flow() {
            self.brackets.set_key(key);
            return;
        }
        self.key = *key;
    }

    /// The innermost key is forgotten.
    pub fn forget_key(&mut self)
        ensures { self.new ≡ keys.forgets_key self.old }
    {
        if self.is_in_flow() {
            self.brackets.forget_key();
            return;
        }
        self.key = None;
    }

    /// Without the innermost key, which gets no `:`.
    ///
    /// # Errors
    ///
    /// `SimpleKeyExpected` at its start, where it has to get one.
    pub fn drop_key(&mut self, fault: &mut Option<ScanError>) -> Result<(), Refused>
        ensures { Leaves (answered fault.new result) self.new (keys.drop_key self.old) }
    {
        refuse_required(self.brackets.key(&self.key), fault)?;
        self.forget_key();
        Ok(())
    }

    /// Without the keys that reading has left behind a mark.
    ///
    /// # Errors
    ///
    /// `SimpleKeyExpected` at the start of one that has to get a `:`.
    #[inline(always)]
    pub fn drop_stale(
        &mut self,
        options: &Options,
        mark: Marker,
        fault: &mut Option<ScanError>,
    ) -> Result<(), Refused>
        ensures { Leaves (answered fault.new result) self.new
            (keys.without_stale (options_of options.now) mark self.old) }
    {
        if self.keeps_keys(options, &mark) {
            return Ok(());
        }
        self.drop_left(options, mark, fault)
    }

    /// Whether reading has left no key behind a mark, as far as that is seen at once.
    #[inline(always)]
    fn keeps_keys(&self, options: &Options, mark: &Marker) -> bool
        ensures { result ≡ true → keys.without_stale (options_of options.now) mark.now self.now ≡ Ok self.now }
    {
        self.keeps_key(options, mark) && self.brackets.is_near(options, mark)
    }

    /// Whether reading hasn't left the possible key outside brackets behind a mark.
    #[inline(always)]
    fn keeps_key(&self, options: &Options, mark: &Marker) -> bool
        ensures { result ≡ true → without_stale_key (options_of options.now) mark.now self.now ≡ Ok self.now }
    {
        match &self.key {
            None => true,
            Some(key) => !is_stale(options, self.is_in_flow(), mark, key),
        }
    }

    /// Without those that it has. Apart, since room for the mark would be filled at each lexeme.
    #[inline(never)]
    fn drop_left(
        &mut self,
        options: &Options,
        mark: Marker,
        fault: &mut Option<ScanError>,
    ) -> Result<(), Refused>
        ensures { Leaves (answered fault.new result) self.new
            (keys.without_stale (options_of options.now) mark self.old) }
    {
        self.refresh_key(options, &mark, fault)?;
        self.brackets.refresh(options, &mark);
        Ok(())
    }

    /// Without the possible key outside brackets, where reading has left it behind.
    fn refresh_key(
        &mut self,
        options: &Options,
        mark: &Marker,
        fault: &mut Option<ScanError>,
    ) -> Result<(), Refused>
        ensures { Leaves (answered fault.new result) self.new
            (without_stale_key (options_of options.now) mark.now self.old) }
    {
        let in_flow = self.is_in_flow();
        match &self.key {
            None => Ok(()),
            Some(key) => {
                if !is_stale(options, in_flow, mark, key) {
                    return Ok(());
                }
                refuse_required(&self.key, fault)?;
                self.key = None;
                Ok(())
            }
        }
    }

    /// Whether a key, a `-`, a `?` or a `:` without key may stand at a place, by whether only white space stands
    /// before it on its line, and the first tab directly before it.
    #[tactic(auto, unfolding(granit_machine::specs::PossibleKeys::is_allowed))]
    pub fn is_allowed(&self, begins_line: bool, tab: Option<Marker>) -> bool
        ensures { result ≡ keys.is_allowed begins_line tab self.now }
    {
        if self.is_in_flow() {
            return is_opener(self.last);
        }
        begins_line || is_dash(self.last) || is_indicator(self.last) && tab.is_none()
    }

    /// A lexeme of a node stands at a mark, a property or not.
    #[tactic(auto, unfolding(granit_machine::specs::PossibleKeys::node_key), using(crate::proofs::KeyLemmas::headless))]
    pub fn begin_node(
        &mut self,
        property: bool,
        begins_line: bool,
        tab: Option<Marker>,
        mark: Marker,
    )
        ensures { self.new ≡ keys.with_node property (keys.is_allowed begins_line tab self.old) mark self.old }
    {
        if self.is_allowed(begins_line, tab) {
            let key = Some(self.new_key(property, mark));
            self.set_top_key(&key);
        } else if self.has_head() {
            self.go_on_from_head(property, mark.col());
        }
    }

    /// The innermost key, of which only properties were read, goes on. Apart, since few keys begin with one, and room
    /// for it would be cleared at each node.
    #[inline(never)]
    fn go_on_from_head(&mut self, property: bool, column: usize)
        ensures { self.new ≡ keys.with_top_key
            (keys.key_goes_on property (layout.is_left (laid.block_column self.old) column) (keys.top_key self.old))
            self.old }
    {
        let key = key_goes_on(property, self.is_left(column), self.top_key());
        self.set_top_key(&key);
    }

    fn new_key(&self, property: bool, mark: Marker) -> PossibleKey
        ensures { result ≡ keys.new_key property mark self.now }
    {
        let block_column = self.block_column();
        PossibleKey {
            number: self.number,
            start: mark,
            is_required: !self.is_in_flow() && is_column(block_column, mark.col()),
            is_low: is_left(block_column, mark.col()),
            is_head: property,
        }
    }

    /// Whether only properties stand behind the start of the innermost key.
    fn has_head(&self) -> bool
        ensures { result ≡ is_headed (keys.top_key self.now) }
    {
        match self.brackets.key(&self.key) {
            None => false,
            Some(key) => key.is_head,
        }
    }

    /// Whether a possible key begins with the lexeme of a number, in any bracket.
    #[inline(always)]
    pub fn is_possible(&self, number: usize) -> bool
        ensures { result ≡ keys.is_possible number self.now }
    {
        is_of(number, &self.key) || self.brackets.is_possible(number)
    }

    /// Whether a `:` at a mark on a later line than its key is refused.
    #[tactic(auto, unfolding(granit_machine::specs::PossibleKeys::is_far_below))]
    pub fn is_far_below(&self, mark: Marker, key: &PossibleKey) -> bool
        ensures { result ≡ keys.is_far_below mark.place self.now key.now }
    {
        self.is_in_flow()
            && key.start.line() < mark.line()
            && (key.is_low || self.is_left(mark.col()) || self.in_square())
    }
}

// Entries of block collections (YAML 1.2.2, 8.1 and 8.2).
impl Layouts {
    #[tactic(auto, unfolding(granit_machine::specs::Columns::refuse_column))]
    fn refuse_column(
        &self,
        options: &Options,
        column: usize,
        mark: Marker,
        fault: &mut Option<ScanError>,
    ) -> Result<(), Refused>
        ensures { answered fault.new result ≡ columns.refuse_column (options_of options.now) column mark
            self.now.columns }
    {
        if is_column(self.block_column(), column) {
            return Ok(());
        }
        if options.block_nesting_limit <= self.column_count() {
            return Err(refuse_at(fault, mark, ErrorKind::RecursionLimitExceeded));
        }
        Ok(())
    }

    #[tactic(auto, unfolding(granit_machine::specs::Columns::entered_columns))]
    fn place_entry(&mut self, column: usize) -> Result<(), NoMemory>
        ensures entered { OnOk result (self.new ≡ columns.entered column self.old) }
        ensures memory { laid.is_column (laid.block_column self.old) column ≡ true → result ≡ Ok tt }
    {
        if is_column(self.block_column(), column) {
            self.columns.renew();
            return Ok(());
        }
        if column > isize::MAX as usize {
            return Err(NoMemory);
        }
        self.columns.push(column)
    }

    /// An entry begins in a column, which is new where no entry stands in it.
    ///
    /// # Errors
    ///
    /// `RecursionLimitExceeded` at the mark, where as many columns are open as may be, and `NoMemory`, also in a column
    /// that no text reaches.
    pub fn enter(
        &mut self,
        options: &Options,
        column: usize,
        mark: Marker,
        fault: &mut Option<ScanError>,
    ) -> Result<(), Refused>
        ensures left { LeavesIfRoom (answered fault.new result) self.new
            (columns.with_entry (options_of options.now) column mark self.old) }
        ensures memory { opens_column (options_of options.now) column self.old.columns ≡ false
            → IfErr (answered fault.new result) (λ e. e.kind ≡ faults.NoMemory → ⊥) }
    {
        self.refuse_column(options, column, mark, fault)?;
        self.place_entry(column)?;
        Ok(())
    }

    /// The same of an entry of a block mapping, with a `:`.
    ///
    /// # Errors
    ///
    /// As `enter`.
    pub fn enter_pair(
        &mut self,
        options: &Options,
        column: usize,
        mark: Marker,
        fault: &mut Option<ScanError>,
    ) -> Result<(), Refused>
        ensures left { LeavesIfRoom (answered fault.new result) self.new
            (columns.with_pair (options_of options.now) column mark self.old) }
        ensures memory { opens_column (options_of options.now) column self.old.columns ≡ false
            → IfErr (answered fault.new result) (λ e. e.kind ≡ faults.NoMemory → ⊥) }
    {
        self.refuse_column(options, column, mark, fault)?;
        self.place_entry(column)?;
        self.rolled = true;
        self.columns.widen();
        Ok(())
    }

    /// Whether a lexeme in a column ends one.
    pub fn ends_at(&self, column: usize) -> bool
        ensures { result ≡ columns.ends_at column self.now }
    {
        if self.is_in_flow() {
            return false;
        }
        match self.block_column() {
            None => false,
            Some(n) => column < n,
        }
    }

    /// Whether a document mark, a directive or the end does.
    pub fn ends_all(&self) -> bool
        ensures { result ≡ columns.ends_all self.now }
    {
        !self.is_in_flow() && self.has_columns()
    }

    /// What a lexeme in a column leaves open.
    pub fn close_at(&mut self, column: usize)
        ensures { self.new ≡ columns.closed_at column self.old }
    {
        if self.is_in_flow() {
            return;
        }
        self.rolled = self.rolled && !self.is_left(column);
        self.columns.drop_right_of(column);
    }

    /// What a document mark, a directive or the end leaves open.
    pub fn close_all(&mut self)
        ensures { self.new ≡ columns.closed_all self.old }
    {
        if self.is_in_flow() {
            return;
        }
        self.columns.clear();
        self.rolled = false;
    }

    /// Behind a `-`: its entry is wide where what follows may hold a compact collection.
    pub fn widen_if(&mut self, wide: bool)
        ensures { self.new ≡ indicators.widened_if wide self.old }
    {
        self.rolled = wide;
        if wide {
            self.columns.widen();
        }
    }
}

// Brackets (YAML 1.2.2, 7.4).
impl Layouts {
    /// Behind an opener at a mark; inside a block collection it lets no tab stand in the innermost column.
    ///
    /// # Errors
    ///
    /// `NoMemory` alone.
    pub fn open(&mut self, bracket: Bracket, mark: Marker) -> Result<(), NoMemory>
        ensures { OnOk result (self.new ≡ flow.opened bracket mark self.old) }
    {
        self.rolled = self.is_rolled();
        self.columns.widen();
        self.brackets.push(bracket, mark)
    }

    fn is_rolled(&self) -> bool
        ensures { result
            ≡ (self.now.rolled || (not (laid.is_in_flow self.now) && laid.is_nonempty self.now.columns)) }
    {
        self.rolled || !self.is_in_flow() && self.has_columns()
    }

    /// The innermost bracket is closed.
    pub fn close(&mut self)
        ensures { self.new ≡ flow.closed_bracket (drop 1 self.old.brackets) self.old }
    {
        self.brackets.pop();
    }

    /// Refuses an open bracket.
    ///
    /// # Errors
    ///
    /// `UnclosedFlowCollection` at the innermost one.
    pub fn refuse_open(&self, fault: &mut Option<ScanError>) -> Result<(), Refused>
        ensures { answered fault.new result ≡ reader.refuse_open self.now.brackets }
    {
        match self.brackets.last() {
            None => Ok(()),
            Some(open) => Err(refuse_at(
                fault,
                open.mark,
                ErrorKind::UnclosedFlowCollection {
                    opener: opener_char(open.bracket),
                },
            )),
        }
    }
}

// Behind a lexeme or a gap.
impl Layouts {
    /// A lexeme was read.
    pub fn count_lexeme(&mut self, last: LastLexeme)
        requires room { self.old.number < 2 ^ 63 }
        ensures { self.new ≡ laid.behind_lexeme last self.old }
    {
        self.number += 1;
        self.last = last;
        self.may_prefix = false;
    }

    /// Nothing is open any more, and so many lexemes were read; whether a byte-order mark may stand in front of a
    /// document is told.
    pub fn begin_anew(&mut self, number: usize, may_prefix: bool)
        ensures { self.new ≡ record laid.laid_start { number = number; may_prefix = may_prefix } }
    {
        self.number = number;
        self.key = None;
        self.brackets.clear();
        self.columns.clear();
        self.rolled = false;
        self.last = LastLexeme::Another;
        self.cut = None;
        self.may_prefix = may_prefix;
    }

    /// The end was read.
    pub fn behind_end(&mut self)
        requires room { self.old.number < 2 ^ 63 }
        ensures { self.new ≡ streams.behind_end self.old }
    {
        self.number += 1;
        self.columns.clear();
    }

    /// A `...` was read.
    pub fn behind_end_mark(&mut self)
        requires room { self.old.number < 2 ^ 63 }
        ensures { self.new ≡ streams.behind_end_mark self.old }
    {
        self.forget_key();
        self.count_lexeme(LastLexeme::Another);
        self.may_prefix = true;
    }

    /// A directive was read; behind it a byte-order mark in front of a document may still follow.
    pub fn behind_directive(&mut self)
        requires room { self.old.number < 2 ^ 63 }
        ensures { self.new ≡ streams.behind_directive self.old }
    {
        let may_prefix = self.may_prefix;
        self.forget_key();
        self.count_lexeme(LastLexeme::Another);
        self.may_prefix = may_prefix;
    }

    /// Behind a `?` outside flow.
    pub fn behind_question(&mut self)
        ensures { self.new ≡ indicators.behind_question self.old }
    {
        self.rolled = false;
        self.last = LastLexeme::BehindQuestion;
        self.forget_key();
    }

    /// Behind a block scalar, a tab may stand in the innermost column.
    pub fn unroll(&mut self)
        ensures { self.new ≡ nodes.unrolled self.old }
    {
        self.rolled = false;
    }

    /// Behind a plain scalar, which a comment may have ended.
    pub fn behind_plain_scalar(&mut self, cut: Option<Marker>)
        ensures { self.new ≡ record self.old { rolled = false; cut = cut } }
    {
        self.rolled = false;
        self.cut = cut;
    }

    /// What the last lexeme lets the next one be.
    pub fn set_last(&mut self, last: LastLexeme)
        ensures { self.new ≡ record self.old { last = last } }
    {
        self.last = last;
    }

    /// Behind a comment in a gap.
    pub fn behind_note(&mut self)
        ensures { self.new ≡ gaps.behind_note self.old }
    {
        self.last = no_more_adjacent(self.last);
    }

    /// Behind a gap, empty or not, and before a lexeme.
    pub fn behind_gap(&mut self, moved: bool)
        ensures { self.new ≡ gaps.behind_gap moved self.old }
    {
        if moved {
            self.last = no_more_adjacent(self.last);
        }
        self.forget_cut();
    }

    /// No `#` ended the last plain scalar; where none did, nothing is written.
    #[inline(always)]
    fn forget_cut(&mut self)
        ensures { self.new ≡ record self.old { cut = None } }
    {
        if self.cut.is_some() {
            self.cut = None;
        }
    }
}

// Tabs, and what a scalar is told (YAML 1.2.2, 6.1).
impl Layouts {
    /// Refuses a tab that begins a line left of where a node may stand behind `?`, or left of its block, before a
    /// mark.
    ///
    /// # Errors
    ///
    /// `TabNotAllowed` at the tab, and `TabInBlockIndentation` at the mark.
    #[tactic(auto, unfolding(granit_machine::specs::Gaps::refuse_tab_at))]
    pub fn refuse_tab(
        &self,
        options: &Options,
        mark: Marker,
        tab: Option<Marker>,
        fault: &mut Option<ScanError>,
    ) -> Result<(), Refused>
        ensures { answered fault.new result ≡ gaps.refuse_tab (options_of options.now) self.now mark tab }
    {
        match tab {
            None => Ok(()),
            Some(tab) => {
                if is_question(self.last) && self.is_left(tab.col()) {
                    return Err(refuse_at(fault, tab, ErrorKind::TabNotAllowed));
                }
                let further = self.rolled || self.is_in_flow() && options.strict_indentation;
                if tab.col() < tab_column(further, self.columns.innermost()) {
                    return Err(refuse_at(fault, mark, ErrorKind::TabInBlockIndentation));
                }
                Ok(())
            }
        }
    }

    /// The layout of a scalar that begins in a column.
    pub fn layout(&self, options: &Options, column: usize, comments: bool) -> Layout
        ensures { layout_data result
            ≡ record (keys.layout_of (options_of options.now) column self.now) { comments = comments } }
    {
        let in_flow = self.is_in_flow();
        let strict = options.strict_indentation;
        let block_column = self.columns.innermost();
        let further = is_wide_at(in_flow, column, self.columns.last()) || in_flow && strict;
        Layout {
            block_column,
            tab_column: tab_column(further, block_column),
            in_flow,
            strict,
            comments,
        }
    }
}

/// The bracket that opens a collection.
fn opener_char(bracket: Bracket) -> char
    ensures { result ≡ opener_char bracket }
{
    match bracket {
        Bracket::Square => '[',
        Bracket::Curly => '{',
    }
}
