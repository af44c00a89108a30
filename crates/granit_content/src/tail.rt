//! What stands behind a lexeme on its line: blanks, and a comment that they part from it (YAML 1.2.2, 6.6).
ghost use Rattle.std.specs.Prelude.{◌≡◌, false, Some, IfOk};
ghost use Rattle.std.specs.Option.{option_map};
ghost use Rattle.granit_cursor.specs.Reading.{Moves, Stands, Wherever, GivesTo, coded};
ghost use Rattle.granit_error.specs.FaultKind as faults;
ghost use Rattle.granit_lexemes.specs.Comment as comments;
ghost use Rattle.granit_lexemes.specs.Here.{Here, mark_of};
ghost use Rattle.granit_lexemes.specs.Outcome.{fault_at};
ghost use Rattle.granit_lexemes.specs.Tail as spec;
ghost use Rattle.granit_items.specs.ItemViews.{boxed_view};
ghost use Rattle.granit_refused.specs.Answered.{answered, why};
ghost use Rattle.granit_refused.specs.declared.fault.Refused.TheVariants.{Kept};
ghost use Rattle.granit_content.specs.declared.tail.Tail.TheVariants.{Nothing};
ghost use Rattle.granit_content.specs.Reads.{NeverWants, comment_kept, seen, seen_comment, tail_view};

use crate::kinds::note;
use granit_cursor::{Cursor, pass_comment, read_comment};
use granit_error::{ErrorKind, ScanError};
use granit_input::{BorrowedInput, Input};
use granit_items::Note;
use granit_refused::{Refused, keep_fault, refuse_at};
use std::alloc::Global;

/// A comment behind a lexeme.
#[derive(Drop)]
pub enum Tail<'input> {
    /// There is none.
    Nothing,
    /// There is one, which isn't asked for.
    Passed,
    /// This one.
    Kept(Box<Note<'input>>),
}

impl<'input> Tail<'input> {
    /// The comment, where it is kept.
    pub(crate) fn into_note(self) -> Option<Box<Note<'input>>>
        ensures { option_map boxed_view result ≡ comment_kept (tail_view self.entry) }
    {
        match self {
            Tail::Nothing => None,
            Tail::Passed => None,
            Tail::Kept(note) => Some(note),
        }
    }
}

/// The blanks behind a lexeme that ends here, and a comment behind them.
///
/// # Errors
///
/// `CommentNotSeparated` at a `#` with no blank before it, and those of `comment_at`.
#[inline(always)]
pub fn tail_at<'input, T: BorrowedInput<'input>>(
    alloc: Global,
    at: &mut Cursor<T>,
    asked: bool,
    fault: &mut Option<ScanError>,
) -> Result<Tail<'input>, Refused>
    ensures here { Wherever T.unread at.old at.new (λ h Lands.
        GivesTo tail_view (answered fault.new result) Lands (coded (seen asked) (spec.tail_at h))) }
    ensures memory { asked ≡ false → NeverWants (answered fault.new result) }
    ensures moves { Moves T.unread T.left T.origin at.old at.new }
{
    let blanks = at.skip_while_blank();
    at.look(1);
    if at.input().peek() != '#' {
        return Ok(Tail::Nothing);
    }
    if blanks == 0 {
        return Err(refuse_touching(at, fault));
    }
    comment_at(alloc, at, asked, fault)
}

/// Refuses a `#` with no blank before it. Apart, since room for its fault would be cleared behind each lexeme.
#[inline(never)]
fn refuse_touching<T: Input>(at: &Cursor<T>, fault: &mut Option<ScanError>) -> Refused
    ensures refusal { result ≡ Kept }
    ensures kept { (h : Here) → Stands T.unread at.now h
        → fault.new ≡ Some (fault_at faults.CommentNotSeparated (mark_of h)) }
    ensures memory { (why fault.new result).kind ≡ faults.NoMemory → ⊥ }
{
    refuse_at(fault, at.mark(), ErrorKind::CommentNotSeparated)
}

/// The comment that begins here with its `#`.
///
/// # Errors
///
/// `NoMemory`, where comments are asked for, and `UnexpectedCharacter` at a character that isn't printable.
#[inline(never)]
#[tactic(auto, unfolding(granit_lexemes::specs::Comment::comment))]
pub fn comment_at<'input, T: BorrowedInput<'input>>(
    alloc: Global,
    at: &mut Cursor<T>,
    asked: bool,
    fault: &mut Option<ScanError>,
) -> Result<Tail<'input>, Refused>
    ensures here { Wherever T.unread at.old at.new (λ h Lands.
        GivesTo tail_view (answered fault.new result) Lands (coded (seen_comment asked) (comments.comment h))) }
    ensures some { IfOk result (λ t. t ≡ Nothing → ⊥) }
    ensures memory { asked ≡ false → NeverWants (answered fault.new result) }
    ensures moves { Moves T.unread T.left T.origin at.old at.new }
{
    if asked {
        let token = keep_fault(fault, read_comment(alloc, at))?;
        return Ok(Tail::Kept(Box::new(alloc, note(token))?));
    }
    keep_fault(fault, pass_comment(at))?;
    Ok(Tail::Passed)
}
