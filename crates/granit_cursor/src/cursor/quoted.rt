//! A quoted scalar of one line is taken at once.
ghost use Rattle.std.specs.Prelude.{◌≡◌};
ghost use Rattle.granit_lexemes.specs.Here.{Here, next_char};
ghost use Rattle.granit_lexemes.specs.QuotedScalar.{quote_char};
ghost use Rattle.granit_cursor.specs.QuotedReads.{LendsQuoted, PassesQuoted};
ghost use Rattle.granit_cursor.specs.Reading.{Moves, Stands, Wherever};

use crate::cursor::Cursor;
use granit_input::{BorrowedInput, Input};

impl<T: Input> Cursor<T> {
    /// Consumes the quoted scalar that begins here with its quote, where the input sees its end at once; where in the
    /// source what stands between the quotes is lent, from which byte to which.
    #[inline(always)]
    fn pass_quoted(&mut self, single: bool, in_flow: bool) -> Option<(usize, usize)>
        requires { (h : Here) → Stands T.unread self.old h → next_char h ≡ quote_char single }
        ensures here { Wherever T.unread self.old self.new (λ h Lands. PassesQuoted single in_flow h result Lands) }
        ensures moves { Moves T.unread T.left T.origin self.old self.new }
    {
        match self.input.take_quoted(single, in_flow) {
            None => None,
            Some((start, end)) => {
                let taken = end - start + 2;
                self.index += taken;
                self.col += taken;
                self.begins_line = false;
                self.tab = None;
                Some((start, end))
            }
        }
    }
}

/// What stands between the quotes of the scalar that begins here with its quote, where it is lent as it stands and its
/// end is seen at once: words that stand for themselves, with `:`, a line feed, or in flow `,`, `]` or `}` directly
/// behind the closing quote (YAML 1.2.2, 7.3.1 and 7.3.2). The scalar is consumed then, and nothing is where None is
/// answered, which says nothing of what stands here.
#[inline(always)]
pub fn take_quoted<'input, T: BorrowedInput<'input>>(
    cursor: &mut Cursor<T>,
    single: bool,
    in_flow: bool,
) -> Option<&'input str>
    requires { (h : Here) → Stands T.unread cursor.old h → next_char h ≡ quote_char single }
    ensures here { Wherever T.unread cursor.old cursor.new (λ h Lands. LendsQuoted single in_flow h result Lands) }
    ensures moves { Moves T.unread T.left T.origin cursor.old cursor.new }
{
    match cursor.pass_quoted(single, in_flow) {
        None => None,
        Some((start, end)) => cursor.input().slice_borrowed(start, end),
    }
}
