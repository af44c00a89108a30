//! A plain scalar of one line is passed at once, where its end is seen (YAML 1.2.2, 7.3.3).
ghost use Rattle.std.specs.Prelude.{◌≡◌};
ghost use Rattle.granit_cursor.specs.Plain.{PassesPlain, PassesWords};
ghost use Rattle.granit_cursor.specs.Reading.{Moves, Wherever};

use crate::cursor::Cursor;
use granit_base::Marker;
use granit_input::{BorrowedInput, Input};

impl<T: Input> Cursor<T> {
    /// Passes it: from which byte of the source to which it lies, and the place behind it. Nothing is passed where its
    /// end isn't seen at once.
    fn pass_plain(&mut self, in_flow: bool, column: Option<usize>) -> Option<(usize, usize, Marker)>
        ensures here { Wherever T.unread self.old self.new (λ h Lands. PassesWords in_flow column h result Lands) }
        ensures lost { self.new.lost ≡ self.old.lost }
        ensures moves { Moves T.unread T.left T.origin self.old self.new }
    {
        let (start, end, spaces) = self.input.take_plain(in_flow, column)?;
        let taken = end - start;
        self.index += taken;
        self.col += taken;
        self.tab = None;
        let behind = Marker::new(self.index, self.line, self.col).with_byte_offset(Some(end));
        match spaces {
            None => {
                self.begins_line = false;
                Some((start, end, behind))
            }
            Some(spaces) => {
                self.index += 1 + spaces;
                self.line += 1;
                self.col = spaces;
                self.begins_line = true;
                Some((start, end, behind))
            }
        }
    }
}

/// Passes the plain scalar that begins here and lends its text, with the place behind it, where it is seen at once
/// that it ends on this line: behind words of printable ASCII a `:` or a flow indicator ends it, or the next line,
/// which begins with a flow indicator in flow, or outside flow with a visible character of ASCII no further right than
/// `column` (YAML 1.2.2, 6.1 and 7.3.3). The cursor then stands behind it, and where the next line ends it, behind the
/// break and the spaces that follow. Nothing is passed elsewhere.
pub fn take_plain<'input, T: BorrowedInput<'input>>(
    cursor: &mut Cursor<T>,
    in_flow: bool,
    column: Option<usize>,
) -> Option<(&'input str, Marker)>
    ensures here { Wherever T.unread cursor.old cursor.new (λ h Lands. PassesPlain in_flow column h result Lands) }
    ensures lost { cursor.new.lost ≡ cursor.old.lost }
    ensures moves { Moves T.unread T.left T.origin cursor.old cursor.new }
{
    let (start, end, behind) = cursor.pass_plain(in_flow, column)?;
    match cursor.input().slice_borrowed(start, end) {
        Some(text) => Some((text, behind)),
        // an input lends what it says that it lends
        None => Some(("", behind)),
    }
}
