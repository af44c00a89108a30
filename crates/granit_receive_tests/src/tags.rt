//! Handles that stay over documents.
use crate::agree::agree;
use granit_base::Span;
use granit_error::ScanError;
use granit_event::Event;
use granit_input::BorrowedInput;
use granit_parser::Parser;
use std::alloc::Global;

/// Two documents, the second one with the handle of the first.
const KEPT: &str = "%TAG !e! t:\n--- !e!a b\n--- !e!c d\n";

/// The same of `!!`, which never stays.
const CORE: &str = "%TAG !! t:\n--- !!a b\n--- !!c d\n";

/// What is given.
trait Given {
    /// What the handle of an event's tag stands for, and `?` for a refusal.
    fn handle(&self) -> &str;
}

impl<'a> Given for Option<Result<(Event<'a>, Span), ScanError>> {
    fn handle(&self) -> &str {
        match self {
            Some(Err(_)) => "?",
            Some(Ok((event, _))) => match event.tag() {
                Some(tag) => tag.handle(),
                None => "",
            },
            None => "",
        }
    }
}

/// What is left of a text behind that, where it begins so. What is given is let go here, which is cheap to prove in a
/// generic function.
fn behind<'t, T: Given + Drop>(given: T, text: &'t str) -> Option<&'t str> {
    text.strip_prefix(given.handle())
}

/// What tells its handles.
trait TellsHandles {
    /// The same, by whether handles stay from then on.
    fn keeping(self, keep: bool) -> Self;

    /// Whether these are those of all events, of twelve at most, one behind the other.
    fn tells(&mut self, want: &str) -> bool;

    /// Whether recovery finds another document.
    fn recovers(&mut self) -> bool;
}

impl<'a, T: BorrowedInput<'a>> TellsHandles for Parser<'a, T> {
    fn keeping(self, keep: bool) -> Parser<'a, T> {
        self.keep_tags(keep)
    }

    fn tells(&mut self, want: &str) -> bool {
        let mut left = want;
        'events: for _ in 0..12 {
            let rest = behind(self.next_event(), left);
            left = match rest {
                Some(rest) => rest,
                None => return false,
            };
        }
        left.is_empty()
    }

    fn recovers(&mut self) -> bool {
        finds_document(self.proceed_next_document())
    }
}

/// Whether recovery answers true. What it answers is let go here.
fn finds_document<E: Drop>(answer: Result<bool, E>) -> bool {
    matches!(answer, Ok(true))
}

/// Whether these are the handles of a parser that is let go here.
fn tells_of<P: TellsHandles + Drop>(parser: P, want: &str) -> bool {
    let mut parser = parser;
    parser.tells(want)
}

/// The same behind the fault of a first document, in front of which handles stayed, by whether they stay from then on.
fn tells_behind<P: TellsHandles + Drop>(parser: P, keep: bool, want: &str) -> bool {
    let mut parser = parser.keeping(true);
    let before = parser.tells("t:?");
    let mut parser = parser.keeping(keep);
    before && parser.recovers() && parser.tells(want)
}

/// The same of a text.
fn tells(alloc: Global, text: &str, keep: bool, want: &str) -> bool {
    tells_of(Parser::new_from_str(alloc, text).keep_tags(keep), want)
}

#[test]
fn handles_over_documents(rt: HostRuntime) {
    let told = [
        tells(rt.alloc(), KEPT, false, "t:?"),
        tells(rt.alloc(), KEPT, true, "t:t:"),
        tells(rt.alloc(), CORE, true, "t:tag:yaml.org,2002:"),
    ];
    agree(&rt, told, [true; 3]);
}

/// A document that isn't closed in place of the first one.
const UNCLOSED: &str = "%TAG !e! t:\n--- !e!a [\n--- !e!b c\n";

#[test]
fn handles_behind_a_fault(rt: HostRuntime) {
    let told = [
        tells_behind(Parser::new_from_str(rt.alloc(), UNCLOSED), true, "t:"),
        tells_behind(Parser::new_from_str(rt.alloc(), UNCLOSED), false, "?"),
    ];
    agree(&rt, told, [true; 2]);
}
