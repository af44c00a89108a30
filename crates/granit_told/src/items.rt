//! Items of a source that may fail.
use granit_error::ErrorKind;
use std::alloc::Global;

/// Characters, or the error in the place of one.
pub type Items = Vec<Result<char, ErrorKind>>;

/// One more item, where there is room. What is let go in a generic function is cheap to prove.
fn push<T: Drop>(items: &mut Vec<T>, item: T) {
    let _ = items.push(item).ok();
}

/// The characters of a text.
pub fn characters(alloc: Global, text: &str) -> Items {
    let mut items = Vec::new(alloc);
    for c in text.chars() {
        push(&mut items, Ok(c));
    }
    items
}

/// The same, and an error behind them.
pub fn characters_and_error(alloc: Global, text: &str) -> Items {
    let mut items = characters(alloc, text);
    push(
        &mut items,
        Err(ErrorKind::InputByteLimitExceeded { limit: 1 }),
    );
    items
}
