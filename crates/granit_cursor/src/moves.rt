//! Moves over blanks and breaks.
ghost use Rattle.std.specs.Prelude.{◌≡◌, ◌≤◌, ◌-◌, []};
ghost use Rattle.granit_base.specs.Classes.{is_blank};
ghost use Rattle.granit_base.specs.Written.{string_chars};
ghost use Rattle.granit_lexemes.specs.Basics as spec;
ghost use Rattle.granit_lexemes.specs.Here.{past};
ghost use Rattle.granit_cursor.specs.Reading.{GoesTo, Moves};

use crate::cursor::Cursor;
use granit_input::Input;

/// Blanks before a break are no part of a value (YAML 1.2.2, 6.5).
#[tactic(auto, using(crate::proofs::MoveLemmas::cleared))]
pub fn drop_blanks(blanks: &mut String)
    ensures { string_chars blanks.new ≡ [] }
{
    blanks.clear();
}

/// Behind a break, which CR LF is too (YAML 1.2.2, 5.4).
#[tactic(auto, unfolding(granit_lexemes::specs::Basics::past_break))]
pub fn past_break<T: Input>(cursor: &mut Cursor<T>)
    ensures here { GoesTo T.unread cursor.old cursor.new spec.past_break }
    ensures left { T.left cursor.new.input ≤ T.left cursor.old.input - 1 }
    ensures moves { Moves T.unread T.left T.origin cursor.old cursor.new }
{
    cursor.look(2);
    if cursor.input().next_2_are('\r', '\n') {
        cursor.step();
        cursor.step();
        return;
    }
    cursor.step();
}

/// Behind the blanks that stand here.
#[inline(always)]
pub fn past_blanks<T: Input>(cursor: &mut Cursor<T>)
    ensures here { GoesTo T.unread cursor.old cursor.new (past is_blank) }
    ensures moves { Moves T.unread T.left T.origin cursor.old cursor.new }
{
    cursor.skip_while_blank();
}
