//! Items are written as tokens.
ghost use Rattle.std.specs.Prelude.{◌≡◌, ◌==◌, true, false, ◌++◌, [], None, length, drop, slice_get, IfOk, IsOk, OnOk};
ghost use Rattle.std.specs.Option.{option_map};
ghost use Rattle.granit_items.specs.ItemViews.{boxed_lexeme, boxed_view, item_view, kind_view, lexeme_view};
ghost use Rattle.granit_lexemes.specs.Lexeme.{is_entry_dash};
ghost use Rattle.granit_machine.specs.Laid.{is_in_flow};
ghost use Rattle.granit_scan.specs.Following as spec;
ghost use Rattle.granit_scan.specs.Marks as marks;
ghost use Rattle.granit_scan.specs.TokenMemory.{may_leave_more};
ghost use Rattle.granit_scan.specs.TokenViews.{plain_token};
ghost use Rattle.granit_steps.specs.Tokens as tokens;

use crate::convert::{note_token, own_span, token_type_of};
use crate::pairs::Pairs;
use crate::waiting::Waiting;
use granit_base::{Marker, NoMemory};
use granit_cursor::{Token, TokenType};
use granit_error::{Options, ScanError};
use granit_items::{Item, Lexeme, LexemeKind, Note, Rooms};
use granit_layout::{Layouts, is_opener};
use granit_lexemes::LastLexeme;
use granit_queue::Queued;
use std::alloc::Global;
use std::marker::Model;
use std::mem;

/// No column is greater in a text.
const MOST_COLUMNS: usize = 0x7FFF_FFFF_FFFF_FFFF;

/// Items are written as tokens, which wait. What the lexemes so far leave open is kept beside the reader's, which
/// stands further on.
#[derive(Drop)]
pub(crate) struct Writer<'input> {
    layouts: Layouts,
    pairs: Pairs,
    // The last lexeme but the end is a directive.
    in_header: bool,
    waiting: Waiting<'input>,
}

impl<'input> Model for Writer<'input> {
    ghost use Rattle.granit_scan.specs.Following.{Writing};

    ghost Value = { Writing };

    ghost view = { λ w. record {
      following = record { laid = w.layouts; pairs = w.pairs; in_header = w.in_header };
      waiting = w.waiting;
    } };
}

impl<'input> Writer<'input> {
    /// Nothing was written.
    pub(crate) fn new(alloc: Global) -> Writer<'input>
        ensures { result ≡ spec.writing_start }
    {
        Writer {
            layouts: Layouts::new(alloc),
            pairs: Pairs::new(alloc),
            in_header: false,
            waiting: Waiting::new(alloc),
        }
    }

    /// Nothing is open any more, and no token waits.
    pub(crate) fn begin_anew(&mut self)
        ensures { self.new ≡ spec.writing_start }
    {
        self.layouts.begin_anew(0, true);
        self.pairs.clear();
        self.in_header = false;
        self.waiting.clear();
    }

    /// Whether the directives of a document are being written.
    pub(crate) fn in_header(&self) -> bool
        ensures { result ≡ self.now.following.in_header }
    {
        self.in_header
    }

    /// Whether no token waits.
    pub(crate) fn is_empty(&self) -> bool
        ensures { result ≡ (length self.now.waiting == 0) }
    {
        self.waiting.is_empty()
    }

    /// The oldest token goes.
    pub(crate) fn pop(&mut self) -> Option<Token<'input>>
        ensures first { option_map plain_token result ≡ slice_get self.old.waiting 0 }
        ensures rest { self.new ≡ record self.old { waiting = drop 1 self.old.waiting } }
    {
        self.waiting.pop()
    }

    /// The first mark of a document, or of the end, from a token that was handed back on; of what waits some goes.
    ///
    /// # Errors
    ///
    /// `NoMemory` alone.
    pub(crate) fn take_mark(
        &mut self,
        alloc: Global,
        handed: Option<Token<'input>>,
    ) -> Result<Option<Box<Lexeme<'input>>>, NoMemory>
        ensures taken { IfOk result (λ m. option_map boxed_lexeme m
            ≡ marks.mark_in (marks.handed (option_map plain_token handed.entry) ++ self.old.waiting)) }
        ensures memory { marks.mark_in (marks.handed (option_map plain_token handed.entry) ++ self.old.waiting) ≡ None
            → IsOk result }
    {
        self.waiting.take_mark(alloc, handed)
    }

    /// An item is written; whether a simple key begins with it is told. A lexeme leaves its room to others.
    ///
    /// # Errors
    ///
    /// `NoMemory` alone.
    pub(crate) fn write(
        &mut self,
        options: &Options,
        item: Item<'input>,
        begins_key: bool,
        rooms: &mut Rooms<'input>,
    ) -> Result<(), NoMemory>
        ensures { OnOk result (self.new ≡ spec.wrote begins_key (item_view item.entry) self.old) }
    {
        match item {
            Item::Lexeme(mut lexeme) => {
                let written = self.write_lexeme(options, &mut lexeme, begins_key);
                rooms.keep(lexeme);
                written
            }
            Item::Note(note) => self.waiting.push(note_token(Box::into_inner(note))),
        }
    }

    fn write_lexeme(
        &mut self,
        options: &Options,
        lexeme: &mut Lexeme<'input>,
        begins_key: bool,
    ) -> Result<(), NoMemory>
        ensures { OnOk result (self.new ≡ spec.wrote_lexeme begins_key (lexeme_view lexeme.old) self.old) }
    {
        self.write_ends(lexeme)?;
        self.insert_before(lexeme, begins_key)?;
        self.follow(options, lexeme)?;
        self.write_own(lexeme)?;
        Ok(())
    }

    /// The ends of the block collections that a lexeme ends, whose columns are closed.
    fn write_ends(&mut self, lexeme: &Lexeme<'input>) -> Result<(), NoMemory>
        ensures wrote { OnOk result (self.new ≡ spec.with_ends (lexeme_view lexeme.now) self.old) }
        ensures memory { tokens.ended_blocks (lexeme_view lexeme.now) self.old.following.laid ≡ 0 → IsOk result }
    {
        let ended = self.close_before(lexeme);
        self.waiting.insert_ends(ended, lexeme.start)?;
        Ok(())
    }

    /// The columns that a lexeme ends are closed, and counted.
    fn close_before(&mut self, lexeme: &Lexeme<'input>) -> usize
        ensures closed { self.new
            ≡ spec.with_laid (tokens.behind_ends (lexeme_view lexeme.now) self.old.following.laid) self.old }
        ensures ended { result ≡ tokens.ended_blocks (lexeme_view lexeme.now) self.old.following.laid }
    {
        let before = self.layouts.column_count();
        self.close_for(lexeme);
        before.saturating_sub(self.layouts.column_count())
    }

    fn close_for(&mut self, lexeme: &Lexeme<'input>)
        ensures { self.new
            ≡ spec.with_laid (tokens.behind_ends (lexeme_view lexeme.now) self.old.following.laid) self.old }
    {
        match lexeme.kind {
            LexemeKind::Version(_, _)
            | LexemeKind::TagPrefix(_, _)
            | LexemeKind::Reserved(_, _)
            | LexemeKind::DocumentStart
            | LexemeKind::DocumentEnd
            | LexemeKind::StreamEnd => self.layouts.close_all(),
            _ => self.layouts.close_at(lexeme.start.col()),
        }
    }

    /// What is inserted behind the ends of block collections.
    #[tactic(auto, using(crate::proofs::WriteLemmas::joined))]
    fn insert_before(&mut self, lexeme: &Lexeme<'input>, begins_key: bool) -> Result<(), NoMemory>
        ensures inserted { OnOk result (self.new ≡ spec.inserted_before begins_key (lexeme_view lexeme.now) self.old) }
        ensures memory { spec.before_tokens begins_key (lexeme_view lexeme.now) self.old.following ≡ [] → IsOk result }
    {
        let mark = lexeme.start;
        let single = self.begins_single(lexeme, begins_key);
        let pair_ends = self.ends_single(&lexeme.kind);
        self.waiting
            .insert_if(pair_ends, TokenType::FlowMappingEnd, mark)?;
        self.insert_start(lexeme, begins_key)?;
        self.waiting
            .insert_if(single, TokenType::FlowMappingStart, mark)?;
        self.waiting.insert_if(begins_key, TokenType::Key, mark)?;
        self.pairs.begin_if(single)
    }

    /// The start of a block collection, where a lexeme begins one.
    #[tactic(auto, using(crate::proofs::WriteLemmas::no_start, crate::proofs::WriteLemmas::some_start))]
    fn insert_start(&mut self, lexeme: &Lexeme<'input>, begins_key: bool) -> Result<(), NoMemory>
        ensures inserted { OnOk result (self.new ≡ spec.with_start begins_key (lexeme_view lexeme.now) self.old) }
        ensures memory { spec.start_tokens (spec.is_new_at (lexeme_view lexeme.now).start.place.column
            self.old.following.laid) begins_key (lexeme_view lexeme.now) ≡ [] → IsOk result }
    {
        if !self.is_new(lexeme.start.col()) {
            return Ok(());
        }
        let sequence = is_dash(lexeme);
        let mapping = begins_mapping(lexeme, begins_key);
        self.waiting
            .insert_if(sequence, TokenType::BlockSequenceStart, lexeme.start)?;
        self.waiting
            .insert_if(mapping, TokenType::BlockMappingStart, lexeme.start)
    }

    /// Whether no entry stands in a column yet.
    fn is_new(&self, column: usize) -> bool
        ensures { result ≡ spec.is_new_at column self.now.following.laid }
    {
        if self.layouts.is_in_flow() {
            return false;
        }
        match self.layouts.block_column() {
            None => true,
            Some(open) => open != column,
        }
    }

    /// Whether a single pair begins with a lexeme.
    fn begins_single(&self, lexeme: &Lexeme<'input>, begins_key: bool) -> bool
        ensures { result ≡ tokens.begins_single begins_key (lexeme_view lexeme.now) self.now.following.laid }
    {
        self.layouts.in_square()
            && (begins_key || is_bare_colon(lexeme) && is_opener(self.layouts.last()))
    }

    /// Whether a single pair ends before a lexeme.
    fn ends_single(&self, kind: &LexemeKind<'input>) -> bool
        ensures { result ≡ tokens.ends_single (kind_view kind.now) self.now.following.pairs }
    {
        match kind {
            LexemeKind::Comma | LexemeKind::Close(_) => self.pairs.is_inside(),
            _ => false,
        }
    }

    /// What a lexeme leaves open, where the columns that it ends are closed.
    fn follow(&mut self, options: &Options, lexeme: &Lexeme<'input>) -> Result<(), NoMemory>
        ensures left { OnOk result (self.new ≡ spec.left_behind (lexeme_view lexeme.now) self.old) }
        ensures memory { may_leave_more (kind_view lexeme.now.kind) self.old.following ≡ false → IsOk result }
    {
        self.pairs.follow(&lexeme.kind)?;
        self.in_header = header_behind(&lexeme.kind, self.in_header);
        match &lexeme.kind {
            LexemeKind::Open(bracket) => {
                self.layouts.open(*bracket, lexeme.start)?;
                self.layouts.set_last(LastLexeme::Opener);
                Ok(())
            }
            LexemeKind::Close(_) => {
                self.layouts.close();
                self.layouts.set_last(LastLexeme::Another);
                Ok(())
            }
            LexemeKind::Comma => {
                let last = self.layouts.last_of_comma();
                self.layouts.set_last(last);
                Ok(())
            }
            LexemeKind::Dash | LexemeKind::Question => self.enter(options, lexeme.start),
            LexemeKind::Colon => self.enter(options, entry_of(lexeme)),
            _ => {
                self.layouts.set_last(LastLexeme::Another);
                Ok(())
            }
        }
    }

    /// An entry begins at a place, where no bracket is open. The reader, which stood there before, found room for its
    /// column.
    #[tactic(auto, using(crate::proofs::WriteLemmas::entry_made))]
    fn enter(&mut self, options: &Options, mark: Marker) -> Result<(), NoMemory>
        ensures entered { OnOk result (self.new ≡ spec.with_laid
            (spec.entry_in_column mark.place.column self.old.following.laid)
            self.old) }
        ensures memory { is_in_flow self.old.following.laid ≡ true → IsOk result }
    {
        self.layouts.set_last(LastLexeme::Another);
        if self.layouts.is_in_flow() {
            return Ok(());
        }
        if mark.col() > MOST_COLUMNS {
            return Err(NoMemory);
        }
        let mut fault: Option<ScanError> = None;
        self.layouts
            .enter(options, mark.col(), mark, &mut fault)
            .or(Err(NoMemory))
    }

    /// A lexeme's own token, and that of the comment behind it, which are taken out of it.
    fn write_own(&mut self, lexeme: &mut Lexeme<'input>) -> Result<(), NoMemory>
        ensures { OnOk result (self.new ≡ spec.with_own (lexeme_view lexeme.old) self.old) }
    {
        let span = own_span(lexeme);
        let kind = mem::replace(&mut lexeme.kind, LexemeKind::Comma);
        let tail = lexeme.tail.take();
        self.waiting.push(Token::new(span, token_type_of(kind)))?;
        self.write_tail(tail)
    }

    fn write_tail(&mut self, tail: Option<Box<Note<'input>>>) -> Result<(), NoMemory>
        ensures wrote { OnOk result (self.new ≡ spec.with_tail_written (option_map boxed_view tail.entry) self.old) }
        ensures memory { option_map boxed_view tail.entry ≡ None → IsOk result }
    {
        match tail {
            None => Ok(()),
            Some(note) => self.waiting.push(note_token(Box::into_inner(note))),
        }
    }
}

/// Whether a block mapping begins with a lexeme in a new column.
fn begins_mapping(lexeme: &Lexeme<'_>, begins_key: bool) -> bool
    ensures { result ≡ spec.begins_mapping_by (kind_view lexeme.now.kind) (lexeme_view lexeme.now).key begins_key }
{
    match lexeme.kind {
        LexemeKind::Dash => false,
        LexemeKind::Question => true,
        LexemeKind::Colon => lexeme.key.is_none(),
        _ => begins_key,
    }
}

/// Whether directives are being written behind a lexeme.
fn header_behind(kind: &LexemeKind<'_>, before: bool) -> bool
    ensures { result ≡ spec.header_behind (kind_view kind.now) before }
{
    match kind {
        LexemeKind::Version(_, _) | LexemeKind::TagPrefix(_, _) | LexemeKind::Reserved(_, _) =>
            true,
        LexemeKind::StreamEnd => before,
        _ => false,
    }
}

/// Whether a lexeme is a `-`.
fn is_dash(lexeme: &Lexeme<'_>) -> bool
    ensures { result ≡ is_entry_dash (kind_view lexeme.now.kind) }
{
    matches!(lexeme.kind, LexemeKind::Dash)
}

/// Whether a lexeme is a `:` with no key before it.
fn is_bare_colon(lexeme: &Lexeme<'_>) -> bool
    ensures { result ≡ tokens.is_bare_colon_of (kind_view lexeme.now.kind) (lexeme_view lexeme.now).key }
{
    match lexeme.kind {
        LexemeKind::Colon => lexeme.key.is_none(),
        _ => false,
    }
}

/// Where the entry of a `:` begins: with its key, or with it.
fn entry_of(lexeme: &Lexeme<'_>) -> Marker
    ensures { result ≡ spec.entry_start (lexeme_view lexeme.now).key lexeme.now.start }
{
    match lexeme.key {
        None => lexeme.start,
        Some(key) => key.start,
    }
}
