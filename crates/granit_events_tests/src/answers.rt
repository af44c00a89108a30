//! What was answered, told in numbers. An answer is let go in one place alone, which is dear to prove.
use granit_error::ScanError;
use granit_load::Events;

/// The number of a fault, and its character, line and column.
pub type Place = (u8, usize, usize, usize);

/// How many events there are, by each call of `Events`; none where they differ.
fn counted(events: Events<'_>) -> Option<usize> {
    let all = events.as_slice().len();
    if events.is_empty() || events.len() != all || events.get(all).is_some() {
        return None;
    }
    Some(events.into_vec().len())
}

/// The place of a fault.
fn place(error: &ScanError) -> Place {
    let at = error.marker();
    (error.kind().number(), at.index(), at.line(), at.col())
}

/// How many events were answered, or the fault.
fn told(answer: Result<Events<'_>, ScanError>) -> Result<Option<usize>, Place> {
    match answer {
        Ok(events) => Ok(counted(events)),
        Err(error) => Err(place(&error)),
    }
}

/// How many events were answered; none where the text was refused.
pub fn count(answer: Result<Events<'_>, ScanError>) -> Option<usize> {
    match told(answer) {
        Ok(count) => count,
        Err(_) => None,
    }
}

/// The fault, where the text was refused.
pub fn place_of(answer: Result<Events<'_>, ScanError>) -> Option<Place> {
    match told(answer) {
        Ok(_) => None,
        Err(place) => Some(place),
    }
}

/// The number of the fault, and how many characters stand before it.
pub fn fault(answer: Result<Events<'_>, ScanError>) -> Option<(u8, usize)> {
    match told(answer) {
        Ok(_) => None,
        Err((number, index, _, _)) => Some((number, index)),
    }
}
