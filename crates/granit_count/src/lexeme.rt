//! The lexeme that a text begins with, by the calls that read lexemes.
use granit_base::is_blank_or_breakz;
use granit_cursor::{Cursor, Layout, scan_comment};
use granit_error::ScanError;
use granit_input::{BorrowedInput, Input, StrInput};
use granit_plain::scan_plain_scalar;
use granit_quoted::scan_quoted_scalar;
use std::alloc::Global;

/// Nothing stands around the lexeme.
fn outermost() -> Layout {
    Layout {
        block_column: None,
        tab_column: 0,
        in_flow: false,
        strict: false,
        comments: true,
    }
}

/// Past what was read, or its fault. What is let go in a generic function is cheap to prove.
fn passed<T: Drop, E: Drop>(read: Result<T, E>) -> Result<(), E> {
    match read {
        Ok(lexeme) => {
            drop(lexeme);
            Ok(())
        }
        Err(error) => Err(error),
    }
}

/// Past the plain scalar that begins here, where one does.
fn pass_plain<'a, T: BorrowedInput<'a>>(
    alloc: Global,
    cursor: &mut Cursor<T>,
) -> Result<(), ScanError> {
    let at = outermost();
    cursor.look(2);
    let is_plain = !is_blank_or_breakz(cursor.input().peek())
        && cursor.input().next_can_be_plain_scalar(at.in_flow);
    if is_plain {
        passed(scan_plain_scalar(alloc, cursor, &at))
    } else {
        Ok(())
    }
}

/// Past the comment, the quoted or the plain scalar that begins here, where one does.
fn pass_lexeme<'a, T: BorrowedInput<'a>>(
    alloc: Global,
    cursor: &mut Cursor<T>,
) -> Result<(), ScanError> {
    cursor.look(2);
    match cursor.input().peek() {
        '#' => passed(scan_comment(alloc, cursor)),
        '\'' => passed(scan_quoted_scalar(alloc, cursor, true, &outermost())),
        '"' => passed(scan_quoted_scalar(alloc, cursor, false, &outermost())),
        _ => pass_plain(alloc, cursor),
    }
}

/// How many characters the lexeme that a text begins with has, or its fault.
pub fn lexeme_length(alloc: Global, text: &str) -> Result<u64, ScanError> {
    let mut cursor = Cursor::new(StrInput::new(text));
    match pass_lexeme(alloc, &mut cursor) {
        Ok(()) => Ok(cursor.mark().index() as u64),
        Err(error) => Err(error),
    }
}
