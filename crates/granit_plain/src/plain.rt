//! Plain scalars are read (YAML 1.2.2, 7.3.3).
ghost use Rattle.std.specs.Prelude.{◌≡◌, ◌<◌, ◌≤◌, ◌-◌, ◌⊎◌, ◌==◌, ◌&&◌, ◌||◌, not, ℕ, [], ◌∷◌, ◌++◌, true, length};
ghost use Rattle.std.specs.Prelude.{false, take, IfOk, IsOk, IfErr, OnOk, if◌then◌else◌};
ghost use Rattle.std.specs.Str.{chars};
ghost use Rattle.granit_base.specs.Classes as class;
ghost use Rattle.granit_error.specs.FaultKind.{NoMemory as OutOfMemory, PlainScalarStartsWithDashFlowIndicator};
ghost use Rattle.granit_error.specs.FaultKind.{TabInPlainScalar, UnexpectedCharacter};
ghost use Rattle.granit_runs.specs.Runs.{is_plain_word, run_length};
ghost use Rattle.granit_base.specs.PlainContent.{is_content};
ghost use Rattle.granit_base.specs.Written.{lent};
ghost use Rattle.granit_lexemes.specs.Here.{Here, next_char, mark_of, step};
ghost use Rattle.granit_lexemes.specs.Basics as basics;
ghost use Rattle.granit_lexemes.specs.Moves.{steps};
ghost use Rattle.granit_lexemes.specs.PlainExtent as extent;
ghost use Rattle.granit_lexemes.specs.PlainScalar as spec;
ghost use Rattle.granit_lexemes.specs.PlainScalar.{plain_start};
ghost use Rattle.granit_cursor.specs.Reading.{Stands, Moves, Wherever, ReadsAs, AnswersAs, RefusedFor, GivesTo, coded};
ghost use Rattle.granit_cursor.specs.Reading.{TurnTakes};
ghost use Rattle.granit_cursor.specs.Tokens.{layout_data};
ghost use Rattle.granit_plain.specs.declared.plain.Ahead.TheVariants.{Tab};
ghost use Rattle.granit_plain.specs.LineCode.{broken_state, further_scalar, line_scalar};
ghost use Rattle.granit_plain.specs.PlainCode.{plain_from, plain_lexed, plain_state, plain_whole, ahead_of};
ghost use Rattle.granit_plain.specs.PlainCode.{nothing_taken, TakesSome, TurnKeepsWhole, PartsTo, IsPlainKind};
ghost use Rattle.granit_plain.specs.PlainCode.{cuts_at, ended_plain, copied_plain};
ghost use Rattle.granit_cursor.specs.WithoutMemory.{WithoutMemoryAt};
ghost use Rattle.granit_plain.specs.PlainMemory.{EndsHere, OnlyBlanks, StaysBlank};
ghost use Rattle.granit_plain.specs.PlainMemory.{plain_takes_none};
ghost use Rattle.granit_refused.specs.Answered.{answered};

use crate::line::{Line, pass_line};
use granit_base::{
    Marker, NoMemory, ScalarStyle, Span, Text, is_at_end, is_blank, is_blank_or_breakz, is_break,
    is_flow, is_printable, is_z, push_char, push_text,
};
use granit_cursor::{
    Cursor, Layout, Lexed, Token, TokenType, drop_blanks, lending_offset, past_break,
};
use granit_error::{ErrorKind, ScanError};
use granit_input::{BorrowedInput, Input, find_unprintable};
use granit_refused::{Refused, refuse_at, take_fault};
use std::alloc::Global;
use std::marker::Model;

/// The plain scalar that begins here (YAML 1.2.2, 7.3.3); the cursor then stands behind the blanks and
/// breaks that follow it. Its value is folded (6.5), and lent where the input lends and the scalar stands on
/// one line. No comment is read.
///
/// # Errors
///
/// `NoMemory`, unless the input lends the scalar, on one line with no empty line behind it. At the scalar's
/// start: `PlainScalarStartsWithDashFlowIndicator` where it begins with a `-` directly before a flow indicator,
/// in flow; `TabInPlainScalar` where a tab that indents a further line with content stands left of where a node
/// may stand; `UnexpectedCharacter` where it holds a character that isn't printable. `UnexpectedCharacter` where
/// such a character stands behind it; a NUL is one. `InputSlicingUnavailable`, where the input refuses to lend
/// what it could.
pub fn scan_plain_scalar<'input, T: BorrowedInput<'input>>(
    alloc: Global,
    cursor: &mut Cursor<T>,
    at: &Layout,
) -> Result<Lexed<'input>, ScanError>
    requires { (h : Here) → Stands T.unread cursor.old h → is_content at.now.in_flow h.unread.text ≡ true }
    ensures here { ReadsAs T.unread cursor.old cursor.new result (λ h.
        coded plain_lexed (spec.plain_scalar (layout_data at.now) h)) }
    ensures scalar { AnswersAs T.unread cursor.old cursor.new result plain_lexed
        (extent.AnswersPlain (layout_data at.now)) }
    ensures cause { RefusedFor T.unread cursor.old result (extent.RefusesPlain (layout_data at.now)) }
    ensures answered { (h : Here) (read : spec.PlainRead) (after : Here) → Stands T.unread cursor.old h
        → extent.AnswersPlain (layout_data at.now) h read after → IfErr result (λ e. e.kind ≡ OutOfMemory) }
    ensures kinds { IfErr result (λ e. IsPlainKind e.kind) }
    ensures memory { WithoutMemoryAt T.unread cursor.old result (plain_takes_none (layout_data at.now)) }
    ensures moves { Moves T.unread T.left T.origin cursor.old cursor.new }
{
    lexed_plain(alloc, cursor, at)
}

/// The same, with what a reader needs.
fn lexed_plain<'input, T: BorrowedInput<'input>>(
    alloc: Global,
    cursor: &mut Cursor<T>,
    at: &Layout,
) -> Result<Lexed<'input>, ScanError>
    ensures here { ReadsAs T.unread cursor.old cursor.new result (λ h.
        coded plain_lexed (spec.plain_scalar (layout_data at.now) h)) }
    ensures kinds { IfErr result (λ e. IsPlainKind e.kind) }
    ensures memory { WithoutMemoryAt T.unread cursor.old result (plain_takes_none (layout_data at.now)) }
    ensures moves { Moves T.unread T.left T.origin cursor.old cursor.new }
{
    let start = cursor.mark();
    let mut read = PlainScalar::room(start);
    let mut fault: Option<ScanError> = None;
    match read_plain(alloc, cursor, at, &mut read, &mut fault) {
        Ok(()) => Ok(read.into_lexed(start)),
        Err(refused) => Err(take_fault(refused, &mut fault)),
    }
}

/// A plain scalar, of which its caller knows where it begins.
#[derive(Drop)]
pub struct PlainScalar<'input> {
    /// Its value.
    pub text: Text<'input>,
    /// The place behind its last character.
    pub end: Marker,
    /// The place of the `#` that ended it outside flow.
    pub cut_by_comment: Option<Marker>,
    /// Whether a break was read behind it, and nothing but blanks behind that.
    pub on_new_line: bool,
}

impl<'input> PlainScalar<'input> {
    /// Room for a scalar, which is read into it.
    pub fn room(start: Marker) -> PlainScalar<'input> {
        PlainScalar {
            text: Text::borrowed(""),
            end: start,
            cut_by_comment: None,
            on_new_line: false,
        }
    }

    /// The scalar as a token that begins there.
    fn into_lexed(self, start: Marker) -> Lexed<'input>
        ensures { result ≡ plain_from start self.entry }
    {
        let span = Span::new(start, self.end);
        Lexed {
            token: Token::new(span, TokenType::Scalar(ScalarStyle::Plain, self.text)),
            comment: None,
            cut_by_comment: self.cut_by_comment,
            on_new_line: self.on_new_line,
        }
    }
}

/// Most texts that are copied have no more bytes.
const USUAL_LENGTH: usize = 24;

/// What was read of a plain scalar.
#[derive(Drop)]
struct PlainParts {
    /// Its value up to the last character of content.
    value: String,
    /// What was read since then: blanks, or behind a break a line feed for each empty line.
    pending: String,
    /// The place behind the last character of content.
    end: Marker,
    /// Whether a break was read since then.
    on_new_line: bool,
    /// Whether a tab left of where a node may stand is among the blanks that begin this line.
    left_tab: bool,
}

impl Model for PlainParts {
    ghost use Rattle.granit_base.specs.Written.{string_chars};
    ghost use Rattle.granit_plain.specs.PlainTaken.{PlainTaken};

    ghost Value = { PlainTaken };

    ghost view = { λ p. record {
      value = string_chars p.value;
      pending = string_chars p.pending;
      end = p.end;
      on_new_line = p.on_new_line;
      left_tab = p.left_tab;
    } };
}

/// What stands next in a plain scalar.
#[derive(Clone, Copy)]
enum Ahead {
    Blank,
    Break,
    /// Content behind a tab left of where a node may stand.
    Tab,
    Content,
    /// The scalar ends here.
    End,
}

/// Whether a comment that begins here cuts the scalar short.
fn cuts(parts: &PlainParts) -> bool
    ensures { result ≡ cuts_at parts.now.left_tab parts.now.on_new_line parts.now.pending }
{
    parts.left_tab || (!parts.on_new_line && !is_at_end(parts.pending.as_str()))
}

/// Whether a line that begins here is no part of the scalar.
fn ends_before_line<T: Input>(cursor: &Cursor<T>, at: &Layout) -> bool
    requires { 4 ≤ T.window cursor.now.input }
    ensures { (h : Here) → Stands T.unread cursor.now h → result ≡ spec.ends_before_line (layout_data at.now) h }
{
    let column = cursor.mark().col();
    cursor.input().peek() == '#'
        || ((!at.in_flow || at.strict) && at.is_left(column))
        || (column == 0 && cursor.input().next_is_document_indicator())
}

/// What stands next.
#[tactic(auto, using(granit_runs::proofs::RunLemmas::not_nul))]
fn look_ahead<T: Input>(cursor: &mut Cursor<T>, at: &Layout, parts: &PlainParts) -> Ahead
    ensures here { Wherever T.unread cursor.old cursor.new (λ h Lands. Lands h
        × (result ≡ ahead_of (layout_data at.now) (plain_state parts.now h))) }
    ensures some { TakesSome result (0 < T.left cursor.new.input) }
    ensures moves { Moves T.unread T.left T.origin cursor.old cursor.new }
{
    cursor.look(4);
    let c = cursor.input().peek();
    if is_blank(c) {
        return Ahead::Blank;
    }
    if is_break(c) {
        return Ahead::Break;
    }
    if c == '#' && cuts(parts) {
        return Ahead::End;
    }
    if parts.left_tab && !is_z(c) {
        return Ahead::Tab;
    }
    if parts.on_new_line && ends_before_line(cursor, at) {
        return Ahead::End;
    }
    if !is_blank_or_breakz(c) && cursor.input().next_can_be_plain_scalar(at.in_flow) {
        return Ahead::Content;
    }
    Ahead::End
}

/// A blank on, which is dropped where it begins a line.
#[tactic(auto, unfolding(granit_lexemes::specs::PlainScalar::on_blank))]
fn take_blank<T: Input>(
    cursor: &mut Cursor<T>,
    at: &Layout,
    parts: &mut PlainParts,
) -> Result<(), NoMemory>
    ensures here { Wherever T.unread cursor.old cursor.new (λ h Lands. OnOk result (Lands (step h)
        × (plain_state parts.new (step h) ≡ spec.on_blank (layout_data at.now) (plain_state parts.old h)))) }
    ensures value { parts.new.value ≡ parts.old.value }
    ensures left { OnOk result (T.left cursor.new.input ≤ T.left cursor.old.input - 1) }
    ensures memory { parts.old.on_new_line ≡ true → IsOk result }
    ensures moves { Moves T.unread T.left T.origin cursor.old cursor.new }
{
    cursor.look(1);
    let c = cursor.input().peek();
    if parts.on_new_line {
        let left = at.is_left(cursor.mark().col());
        parts.left_tab = parts.left_tab || c == '\t' && left;
        cursor.step();
        return Ok(());
    }
    push_char(&mut parts.pending, c)?;
    cursor.step();
    Ok(())
}

/// A break on: blanks before the first are dropped, and each further one is an empty line.
#[tactic(auto, unfolding(granit_lexemes::specs::PlainScalar::on_break))]
fn take_break<T: Input>(cursor: &mut Cursor<T>, parts: &mut PlainParts) -> Result<(), NoMemory>
    ensures here { Wherever T.unread cursor.old cursor.new (λ h Lands. OnOk result (Lands (basics.past_break h)
        × (plain_state parts.new (basics.past_break h) ≡ spec.on_break (plain_state parts.old h)))) }
    ensures value { parts.new.value ≡ parts.old.value }
    ensures left { OnOk result (T.left cursor.new.input ≤ T.left cursor.old.input - 1) }
    ensures moves { Moves T.unread T.left T.origin cursor.old cursor.new }
{
    if parts.on_new_line {
        push_char(&mut parts.pending, '\n')?;
        parts.left_tab = false;
        past_break(cursor);
        return Ok(());
    }
    drop_blanks(&mut parts.pending);
    parts.on_new_line = true;
    past_break(cursor);
    Ok(())
}

/// Appends what stands for the blanks and breaks between two characters of content (YAML 1.2.2, 6.5).
fn push_between(parts: &mut PlainParts) -> Result<(), NoMemory>
    ensures value { (h : Here) → OnOk result (parts.new.value
        ≡ parts.old.value ++ spec.between (plain_state parts.old h)) }
{
    if !is_at_end(parts.pending.as_str()) {
        return push_text(&mut parts.value, parts.pending.as_str());
    }
    if parts.on_new_line {
        return push_char(&mut parts.value, ' ');
    }
    Ok(())
}

/// Words of content on, behind what stands for the blanks and breaks before it.
fn take_content<T: Input>(
    cursor: &mut Cursor<T>,
    in_flow: bool,
    parts: &mut PlainParts,
) -> Result<(), NoMemory>
    ensures here { Wherever T.unread cursor.old cursor.new (λ h Lands. OnOk result ((n : ℕ)
        × (n ≡ run_length (is_plain_word in_flow) (step h).unread.text) × Lands (steps n (step h))
        × (parts.new.value ≡ ((parts.old.value ++ spec.between (plain_state parts.old h))
        ++ next_char h ∷ []) ++ take n (step h).unread.text)
        × (plain_state parts.new (steps n (step h)) ≡ plain_start (steps n (step h))))) }
    ensures left { OnOk result (T.left cursor.new.input ≤ T.left cursor.old.input - 1) }
    ensures moves { Moves T.unread T.left T.origin cursor.old cursor.new }
{
    push_between(parts)?;
    cursor.look(1);
    push_char(&mut parts.value, cursor.input().peek())?;
    cursor.step();
    cursor.fetch_plain_words(&mut parts.value, in_flow)?;
    parts.end = cursor.mark();
    parts.pending.clear();
    parts.on_new_line = false;
    parts.left_tab = false;
    Ok(())
}

/// On over a blank, a break or a stretch of content; false where the scalar ends.
fn take_turn<T: Input>(
    cursor: &mut Cursor<T>,
    at: &Layout,
    start: Marker,
    parts: &mut PlainParts,
    fault: &mut Option<ScanError>,
) -> Result<bool, Refused>
    ensures here { Wherever T.unread cursor.old cursor.new (λ h Lands.
        TurnKeepsWhole (layout_data at.now) start (answered fault.new result) Lands parts.new
        (plain_whole (layout_data at.now) start parts.old h)) }
    ensures left { TurnTakes (answered fault.new result) (T.left cursor.old.input) (T.left cursor.new.input) }
    ensures kinds { IfErr (answered fault.new result) (λ e. (e.kind ≡ OutOfMemory) ⊎ (e.kind ≡ TabInPlainScalar)) }
    ensures tab { (h : Here) → Stands T.unread cursor.old h
        → ahead_of (layout_data at.now) (plain_state parts.old h) ≡ Tab
        → IfErr (answered fault.new result) (λ e. e.kind ≡ TabInPlainScalar) }
    ensures memory { (h : Here) → Stands T.unread cursor.old h
        → OnlyBlanks (layout_data at.now) start (plain_state parts.old h)
        → StaysBlank start (answered fault.new result) cursor.new.place parts.new }
    ensures moves { Moves T.unread T.left T.origin cursor.old cursor.new }
{
    match look_ahead(cursor, at, parts) {
        Ahead::Blank => {
            take_blank(cursor, at, parts)?;
            Ok(true)
        }
        Ahead::Break => {
            take_break(cursor, parts)?;
            Ok(true)
        }
        Ahead::Tab => Err(refuse_at(fault, start, ErrorKind::TabInPlainScalar)),
        Ahead::Content => {
            take_content(cursor, at.in_flow, parts)?;
            Ok(true)
        }
        Ahead::End => Ok(false),
    }
}

/// Nothing of a plain scalar behind a place, or behind the break that follows it.
fn no_parts(alloc: Global, end: Marker, on_new_line: bool) -> PlainParts
    ensures { result ≡ nothing_taken end on_new_line }
{
    PlainParts {
        value: String::new(alloc),
        pending: String::new(alloc),
        end,
        on_new_line,
        left_tab: false,
    }
}

/// The same behind the place where a scalar begins, with room for one that isn't long.
fn roomy_parts(alloc: Global, start: Marker) -> Result<PlainParts, NoMemory>
    ensures { IfOk result (λ p. p ≡ nothing_taken start false) }
{
    let value = String::with_capacity(alloc, USUAL_LENGTH)?;
    Ok(PlainParts {
        value,
        pending: String::new(alloc),
        end: start,
        on_new_line: false,
        left_tab: false,
    })
}

/// All of a plain scalar that is still to be read.
fn plain_parts<T: Input>(
    cursor: &mut Cursor<T>,
    at: &Layout,
    start: Marker,
    parts: PlainParts,
    fault: &mut Option<ScanError>,
) -> Result<PlainParts, Refused>
    ensures here { Wherever T.unread cursor.old cursor.new (λ h Lands.
        PartsTo (answered fault.new result) Lands (plain_whole (layout_data at.now) start parts h)) }
    ensures kinds { IfErr (answered fault.new result) (λ e. (e.kind ≡ OutOfMemory) ⊎ (e.kind ≡ TabInPlainScalar)) }
    ensures memory { (h : Here) → Stands T.unread cursor.old h
        → OnlyBlanks (layout_data at.now) start (plain_state parts h)
        → IfErr (answered fault.new result) (λ e. ¬ (e.kind ≡ OutOfMemory)) }
    ensures moves { Moves T.unread T.left T.origin cursor.old cursor.new }
{
    let mut parts = parts;
    'turns: while take_turn(cursor, at, start, &mut parts, fault)? {}
    Ok(parts)
}

/// Where a plain scalar ended.
#[derive(Drop)]
struct PlainEnd {
    /// The place behind its last character.
    end: Marker,
    /// Whether a break was read since then.
    on_new_line: bool,
    /// Whether a comment that begins here cuts it short.
    cuts: bool,
}

/// Where a plain scalar ended of which all was read.
fn end_of(parts: &PlainParts) -> PlainEnd
    ensures end { result.end ≡ parts.now.end }
    ensures on_new_line { result.on_new_line ≡ parts.now.on_new_line }
    ensures cuts { result.cuts ≡ cuts_at parts.now.left_tab parts.now.on_new_line parts.now.pending }
{
    PlainEnd {
        end: parts.end,
        on_new_line: parts.on_new_line,
        cuts: cuts(parts),
    }
}

/// A plain scalar that was read up to its end, where it and what stands behind it are printable.
fn finish_plain<'input, T: Input>(
    cursor: &mut Cursor<T>,
    at: &Layout,
    start: Marker,
    cuts: bool,
    read: &mut PlainScalar<'input>,
    fault: &mut Option<ScanError>,
) -> Result<(), Refused>
    ensures here { Wherever T.unread cursor.old cursor.new (λ h Lands.
        GivesTo (λ _. plain_from start read.new) (answered fault.new result) Lands (coded plain_lexed
        (ended_plain (layout_data at.now) start read.old.text read.old.end read.old.on_new_line cuts h))) }
    ensures kinds { IfErr (answered fault.new result) (λ e. (c : ℕ) × (e.kind ≡ UnexpectedCharacter c)) }
    ensures moves { Moves T.unread T.left T.origin cursor.old cursor.new }
{
    if let Some(character) = find_unprintable(read.text.as_str()) {
        return Err(refuse_at(fault, start, ErrorKind::UnexpectedCharacter { character }));
    }
    cursor.look(1);
    let character = cursor.input().peek();
    if !cursor.input().next_is_z() && !is_printable(character) {
        return Err(refuse_at(
            fault,
            cursor.mark(),
            ErrorKind::UnexpectedCharacter { character },
        ));
    }
    let cut = !at.in_flow && character == '#' && cuts;
    read.cut_by_comment = if cut { Some(cursor.mark()) } else { None };
    Ok(())
}

/// The text of a scalar by the content of its first line and of the further ones.
fn text_of_lines<'input>(
    alloc: Global,
    is_one_line: bool,
    front: &'input str,
    further: &str,
) -> Result<Text<'input>, NoMemory>
    ensures text { IfOk result (λ t. t ≡ (if is_one_line then lent (chars front.now)
        else basics.owned (chars front.now ++ chars further.now))) }
    ensures memory { is_one_line ≡ true → IsOk result }
{
    if is_one_line {
        return Ok(Text::borrowed(front));
    }
    let mut text = String::new(alloc);
    push_text(&mut text, front)?;
    push_text(&mut text, further)?;
    Ok(Text::owned(text))
}

/// Whether a break is next.
fn at_break<T: Input>(cursor: &mut Cursor<T>) -> bool
    ensures here { Wherever T.unread cursor.old cursor.new (λ h Lands.
        Lands h × (result ≡ class.is_break (next_char h))) }
    ensures moves { Moves T.unread T.left T.origin cursor.old cursor.new }
{
    cursor.look(1);
    is_break(cursor.input().peek())
}

/// A scalar whose first line was passed; it ends with that, or may go on behind the break.
fn read_passed<'input, T: Input>(
    alloc: Global,
    cursor: &mut Cursor<T>,
    at: &Layout,
    start: Marker,
    line: &Line<'input>,
    read: &mut PlainScalar<'input>,
    fault: &mut Option<ScanError>,
) -> Result<(), Refused>
    ensures here { Wherever T.unread cursor.old cursor.new (λ h Lands.
        GivesTo (λ _. plain_from start read.new) (answered fault.new result) Lands (coded plain_lexed
        (line_scalar (layout_data at.now) start (chars line.now.front.now) line.now.end line.now.blank h))) }
    ensures kinds { IfErr (answered fault.new result) (λ e. IsPlainKind e.kind) }
    ensures memory { (h : Here) → Stands T.unread cursor.old h → start.place.line ≡ h.place.line
        → EndsHere (layout_data at.now) start line.now.end h
        → IfErr (answered fault.new result) (λ e. ¬ (e.kind ≡ OutOfMemory)) }
    ensures moves { Moves T.unread T.left T.origin cursor.old cursor.new }
{
    if !at_break(cursor) {
        read.text = Text::borrowed(line.front);
        read.end = line.end;
        read.on_new_line = false;
        return finish_plain(cursor, at, start, line.blank, read, fault);
    }
    past_break(cursor);
    read_further(alloc, cursor, at, start, line, read, fault)
}

/// A scalar whose first line and the break behind it were passed.
fn read_further<'input, T: Input>(
    alloc: Global,
    cursor: &mut Cursor<T>,
    at: &Layout,
    start: Marker,
    line: &Line<'input>,
    read: &mut PlainScalar<'input>,
    fault: &mut Option<ScanError>,
) -> Result<(), Refused>
    ensures here { Wherever T.unread cursor.old cursor.new (λ h Lands.
        GivesTo (λ _. plain_from start read.new) (answered fault.new result) Lands (coded plain_lexed
        (further_scalar (layout_data at.now) start (chars line.now.front.now) line.now.end h))) }
    ensures kinds { IfErr (answered fault.new result) (λ e. IsPlainKind e.kind) }
    ensures memory { (h : Here) → Stands T.unread cursor.old h
        → OnlyBlanks (layout_data at.now) start (broken_state line.now.end h)
        → IfErr (answered fault.new result) (λ e. ¬ (e.kind ≡ OutOfMemory)) }
    ensures moves { Moves T.unread T.left T.origin cursor.old cursor.new }
{
    let parts = plain_parts(cursor, at, start, no_parts(alloc, line.end, true), fault)?;
    let is_one_line = start.line() == parts.end.line();
    let text = text_of_lines(alloc, is_one_line, line.front, parts.value.as_str())?;
    let ended = end_of(&parts);
    read.text = text;
    read.end = ended.end;
    read.on_new_line = ended.on_new_line;
    finish_plain(cursor, at, start, ended.cuts, read, fault)
}

/// A scalar whose text is copied.
fn read_copied<'input, T: Input>(
    alloc: Global,
    cursor: &mut Cursor<T>,
    at: &Layout,
    start: Marker,
    read: &mut PlainScalar<'input>,
    fault: &mut Option<ScanError>,
) -> Result<(), Refused>
    ensures here { Wherever T.unread cursor.old cursor.new (λ h Lands. start ≡ mark_of h
        → GivesTo (λ _. plain_from start read.new) (answered fault.new result) Lands (coded plain_lexed
        (copied_plain (layout_data at.now) h))) }
    ensures kinds { IfErr (answered fault.new result) (λ e. IsPlainKind e.kind) }
    ensures moves { Moves T.unread T.left T.origin cursor.old cursor.new }
{
    let front = roomy_parts(alloc, start)?;
    let parts = plain_parts(cursor, at, start, front, fault)?;
    let ended = end_of(&parts);
    read.text = Text::owned(parts.value);
    read.end = ended.end;
    read.on_new_line = ended.on_new_line;
    finish_plain(cursor, at, start, ended.cuts, read, fault)
}

/// Whether a `-` directly before a flow indicator is next, in flow.
fn at_flow_dash<T: Input>(cursor: &mut Cursor<T>, at: &Layout) -> bool
    ensures here { Wherever T.unread cursor.old cursor.new (λ h Lands.
        Lands h × (result ≡ extent.is_flow_dash (layout_data at.now) h.unread.text)) }
    ensures moves { Moves T.unread T.left T.origin cursor.old cursor.new }
{
    if !at.in_flow {
        return false;
    }
    cursor.look(2);
    cursor.input().peek() == '-' && is_flow(cursor.input().peek_nth(1))
}

/// The plain scalar that begins here is read into a place that has room for it.
///
/// # Errors
///
/// Those of `scan_plain_scalar`.
#[tactic(auto, unfolding(granit_lexemes::specs::PlainScalar::plain_scalar))]
pub fn read_plain<'input, T: BorrowedInput<'input>>(
    alloc: Global,
    cursor: &mut Cursor<T>,
    at: &Layout,
    read: &mut PlainScalar<'input>,
    fault: &mut Option<ScanError>,
) -> Result<(), Refused>
    ensures here { Wherever T.unread cursor.old cursor.new (λ h Lands.
        GivesTo (λ _. plain_from (mark_of h) read.new) (answered fault.new result) Lands
        (coded plain_lexed (spec.plain_scalar (layout_data at.now) h))) }
    ensures kinds { IfErr (answered fault.new result) (λ e. IsPlainKind e.kind) }
    ensures memory { WithoutMemoryAt T.unread cursor.old (answered fault.new result)
        (plain_takes_none (layout_data at.now)) }
    ensures moves { Moves T.unread T.left T.origin cursor.old cursor.new }
{
    let start = cursor.mark();
    if at_flow_dash(cursor, at) {
        return Err(refuse_at(
            fault,
            start,
            ErrorKind::PlainScalarStartsWithDashFlowIndicator,
        ));
    }
    match lending_offset(cursor) {
        Some(from) => match pass_line(cursor, at, start, from, fault) {
            Ok(line) => read_passed(alloc, cursor, at, start, &line, read, fault),
            Err(refused) => Err(refused),
        },
        None => read_copied(alloc, cursor, at, start, read, fault),
    }
}
