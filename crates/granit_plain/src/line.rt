//! The first line of a plain scalar is passed without a copy, where the input lends.
ghost use Rattle.std.specs.Prelude.{◌≡◌, ◌<◌, ◌≤◌, ◌==◌, ◌&&◌, IfErr, Some, true};
ghost use Rattle.granit_error.specs.FaultKind.{InputSlicingUnavailable};
ghost use Rattle.granit_lexemes.specs.Here.{next_char, mark_of};
ghost use Rattle.granit_cursor.specs.Reading.{Moves, Wherever};
ghost use Rattle.granit_cursor.specs.Tokens.{layout_data};
ghost use Rattle.granit_plain.specs.LineCode.{PassesWord, WordTakes, PassesLine};
ghost use Rattle.granit_refused.specs.Answered.{answered};

use granit_base::Marker;
use granit_cursor::{Cursor, Layout, lent_since};
use granit_error::ScanError;
use granit_input::{BorrowedInput, Input};
use granit_refused::{Refused, refuse};

/// The first line of a plain scalar.
#[derive(Drop)]
pub(crate) struct Line<'input> {
    /// Its content.
    pub(crate) front: &'input str,
    /// The place behind that.
    pub(crate) end: Marker,
    /// Whether blanks stand behind it.
    pub(crate) blank: bool,
}

/// Whether a comment begins here, which only behind blanks it does.
fn meets_comment<T: Input>(cursor: &mut Cursor<T>, blank: bool) -> bool
    ensures here { Wherever T.unread cursor.old cursor.new (λ h Lands.
        Lands h × (result ≡ (next_char h == 0x23 && blank))) }
    ensures moves { Moves T.unread T.left T.origin cursor.old cursor.new }
{
    cursor.look(1);
    cursor.input().peek() == '#' && blank
}

/// On over blanks and the content behind them: whether there were blanks, and whether there was content.
fn pass_word<T: Input>(cursor: &mut Cursor<T>, in_flow: bool) -> (bool, bool)
    ensures here { Wherever T.unread cursor.old cursor.new (λ h Lands. PassesWord in_flow h result.0 result.1 Lands) }
    ensures left { WordTakes result.1 (T.left cursor.old.input) (T.left cursor.new.input) }
    ensures moves { Moves T.unread T.left T.origin cursor.old cursor.new }
{
    let blank = cursor.skip_while_blank() > 0;
    if meets_comment(cursor, blank) {
        return (blank, false);
    }
    let taken = cursor.skip_plain_words(in_flow);
    (blank, taken > 0)
}

/// On over the first line of a plain scalar, as far as it is content and blanks.
pub(crate) fn pass_line<'input, T: BorrowedInput<'input>>(
    cursor: &mut Cursor<T>,
    at: &Layout,
    start: Marker,
    from: usize,
    fault: &mut Option<ScanError>,
) -> Result<Line<'input>, Refused>
    ensures here { Wherever T.unread cursor.old cursor.new (λ h Lands.
        h.unread.lends ≡ true → Some from ≡ h.unread.offset → start ≡ mark_of h
        → PassesLine (layout_data at.now) start h (answered fault.new result) Lands) }
    ensures kinds { IfErr (answered fault.new result) (λ e. e.kind ≡ InputSlicingUnavailable) }
    ensures moves { Moves T.unread T.left T.origin cursor.old cursor.new }
{
    let mut line = Line {
        front: "",
        end: start,
        blank: false,
    };
    'line: loop {
        let (blank, content) = pass_word(cursor, at.in_flow);
        line.blank = blank;
        if !content {
            return Ok(line);
        }
        line.front = match lent_since(cursor, from) {
            Ok(front) => front,
            Err(error) => return Err(refuse(fault, error)),
        };
        line.end = cursor.mark();
    }
}
