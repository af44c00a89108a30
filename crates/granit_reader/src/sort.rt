//! Which lexeme a text begins with, told by its first characters.
ghost use Rattle.std.specs.Prelude.{◌≡◌, ◌≤◌, Bool, slice_index};
ghost use Rattle.granit_base.specs.Classes as class;
ghost use Rattle.granit_cursor.specs.Reading.{Stands};
ghost use Rattle.granit_lexemes.specs.Here.{Here};
ghost use Rattle.granit_machine.specs.LexemeSort as spec;
ghost use Rattle.granit_reader.specs.SortViews.{is_node, is_property, lexeme_sort_view, placed_view};

use granit_base::{is_blank_or_breakz, is_bom, is_flow, is_printable};
use granit_cursor::Cursor;
use granit_input::Input;
use granit_lexemes::Bracket;

/// A lexeme that stands in a column.
#[derive(Clone, Copy)]
pub(crate) enum PlacedSort {
    OpenSign(Bracket),
    CloseSign(Bracket),
    CommaSign,
    DashSign,
    QuestionSign,
    ColonSign,
    AliasSign,
    AnchorSign,
    TagSign,
    /// Whether it is a literal one.
    BlockSign(bool),
    /// Whether its quotes are single ones.
    QuoteSign(bool),
    /// A byte-order mark.
    StrayMark,
    /// Another character that begins nothing.
    NoSign,
    PlainSign,
}

impl PlacedSort {
    /// Whether it is one of a node.
    pub(crate) fn is_node(self) -> bool
        ensures { result ≡ is_node (placed_view self) }
    {
        matches!(
            self,
            PlacedSort::OpenSign(_)
                | PlacedSort::AliasSign
                | PlacedSort::AnchorSign
                | PlacedSort::TagSign
                | PlacedSort::BlockSign(_)
                | PlacedSort::QuoteSign(_)
                | PlacedSort::PlainSign
        )
    }

    /// Whether it is a property.
    pub(crate) fn is_property(self) -> bool
        ensures { result ≡ is_property (placed_view self) }
    {
        matches!(self, PlacedSort::AnchorSign | PlacedSort::TagSign)
    }
}

/// Which lexeme a text begins with.
#[derive(Clone, Copy)]
pub(crate) enum LexemeSort {
    TextEnd,
    /// `---` in column 0.
    StartMark,
    /// `...` in column 0.
    EndMark,
    Unprintable,
    /// `%` in column 0.
    DirectiveSign,
    Placed(PlacedSort),
}

/// By what stands here.
#[tactic(auto, unfolding(granit_machine::specs::LexemeSort::sort_at))]
pub(crate) fn sort_at<T: Input>(at: &Cursor<T>, in_flow: bool, adjacent: bool) -> LexemeSort
    requires window { 4 ≤ T.window at.now.input }
    ensures { (h : Here) → Stands T.unread at.now h → lexeme_sort_view result ≡ spec.sort_at in_flow adjacent h }
{
    if at.input().next_is_z() {
        return LexemeSort::TextEnd;
    }
    let c = at.input().peek();
    let column = at.mark().col();
    if column == 0 && at.input().next_is_document_indicator() {
        if c == '-' {
            return LexemeSort::StartMark;
        }
        return LexemeSort::EndMark;
    }
    if !prints(c) {
        return LexemeSort::Unprintable;
    }
    if column == 0 && c == '%' {
        return LexemeSort::DirectiveSign;
    }
    LexemeSort::Placed(placed_at(at, in_flow, adjacent, c))
}

/// Whether a character is printable: most are from `!` to `~`.
#[inline(always)]
#[tactic(auto, unfolding(granit_base::specs::Classes::is_printable))]
fn prints(c: char) -> bool
    ensures { result ≡ class.is_printable c }
{
    c.is_ascii_graphic() || is_printable(c)
}

/// By its first character; the next one is asked for where it tells more.
fn placed_at<T: Input>(at: &Cursor<T>, in_flow: bool, adjacent: bool, c: char) -> PlacedSort
    requires window { 2 ≤ T.window at.now.input }
    ensures { (h : Here) → Stands T.unread at.now h
        → placed_view result ≡ spec.sort_of in_flow adjacent c (slice_index h.unread.text 1) }
{
    let next = behind_indicator(at, c);
    sort_of(in_flow, adjacent, c, next)
}

/// The next character but one, where it tells which lexeme begins, and else a blank.
fn behind_indicator<T: Input>(at: &Cursor<T>, c: char) -> char
    requires window { 2 ≤ T.window at.now.input }
    ensures { (h : Here) → Stands T.unread at.now h → (in_flow adjacent : Bool)
        → spec.sort_of in_flow adjacent c result ≡ spec.sort_of in_flow adjacent c (slice_index h.unread.text 1) }
{
    if c == '-' || c == '?' || c == ':' {
        return at.input().peek_nth(1);
    }
    ' '
}

/// By the first character and the next one; a `:` needs no blank in flow before a flow indicator, or behind a quoted
/// scalar or a closer (YAML 1.2.2, 7.3.3 and 7.4.2).
#[tactic(auto, unfolding(granit_machine::specs::LexemeSort::sort_of, granit_base::specs::Classes::is_bom))]
fn sort_of(in_flow: bool, adjacent: bool, c: char, next: char) -> PlacedSort
    ensures { placed_view result ≡ spec.sort_of in_flow adjacent c next }
{
    match c {
        '[' => PlacedSort::OpenSign(Bracket::Square),
        '{' => PlacedSort::OpenSign(Bracket::Curly),
        ']' => PlacedSort::CloseSign(Bracket::Square),
        '}' => PlacedSort::CloseSign(Bracket::Curly),
        ',' => PlacedSort::CommaSign,
        '-' if is_blank_or_breakz(next) => PlacedSort::DashSign,
        '?' if is_blank_or_breakz(next) => PlacedSort::QuestionSign,
        ':' if is_blank_or_breakz(next) || in_flow && (is_flow(next) || adjacent) => {
            PlacedSort::ColonSign
        }
        '*' => PlacedSort::AliasSign,
        '&' => PlacedSort::AnchorSign,
        '!' => PlacedSort::TagSign,
        '|' | '>' if !in_flow => PlacedSort::BlockSign(c == '|'),
        '\'' | '"' => PlacedSort::QuoteSign(c == '\''),
        '@' | '`' | '%' | '|' | '>' => PlacedSort::NoSign,
        _ if is_bom(c) => PlacedSort::StrayMark,
        _ => PlacedSort::PlainSign,
    }
}
