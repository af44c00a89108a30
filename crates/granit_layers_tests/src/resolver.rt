//! Who finds includes, and an iterator that gives no characters.
use crate::agree::agree;
use crate::letters::{own, prints};
use granit_base::{Marker, OwnedText};
use granit_buffered::BufferedInput;
use granit_error::{ErrorKind, ScanError};
use granit_input::Input;
use granit_replay::{FnResolver, Included, NoChars, NoResolver, RefusedParser, Resolver};
use std::alloc::Global;

/// Whether what is included are these characters.
fn is_text(included: &Included<'_>, want: &str) -> bool {
    match included {
        Included::Owned(text) => text.as_str() == want,
        Included::Borrowed(text) => *text == want,
    }
}

/// Whether a resolver answers a text of these characters, or a refusal of these words.
fn answers<'input, R: Resolver<'input>>(
    resolver: &mut R,
    alloc: Global,
    name: &str,
    want: &str,
) -> bool
    requires { R.ready resolver.old }
    ensures { R.ready resolver.new }
{
    match &resolver.resolve(alloc, name) {
        Ok(included) => is_text(included, want),
        Err(error) => prints(alloc, error, want),
    }
}

#[test]
fn no_includes_are_found(rt: HostRuntime) {
    let words = "No include resolver set for parser stack. at char 0 line 1 column 1";
    agree(
        &rt,
        answers(&mut NoResolver, rt.alloc(), "a.yaml", words),
        true,
    );
}

/// A place at the start.
fn start() -> Marker {
    Marker::new(0, 1, 0)
}

/// What is refused where no such text is.
fn missing(alloc: Global) -> ScanError {
    ScanError::new(start(), own(alloc, "no such file"))
}

/// The text that is made where it is asked for.
fn made(alloc: Global) -> Result<Included<'static>, ScanError> {
    match String::from_str(alloc, "c") {
        Ok(text) => Ok(Included::Owned(text)),
        Err(_) => Err(ScanError::from_kind(start(), ErrorKind::NoMemory)),
    }
}

/// The text of a name.
fn found(alloc: Global, name: &str) -> Result<Included<'static>, ScanError> {
    match name {
        "lent" => Ok(Included::Borrowed("a: b")),
        "own" => made(alloc),
        _ => Err(missing(alloc)),
    }
}

/// What a closure is told to answer to three names.
fn told_of_closure(alloc: Global) -> [bool; 3] {
    let mut asked = 0u8;
    let mut resolver = FnResolver::new(|alloc: Global, name: &str| {
        asked = asked.saturating_add(1);
        found(alloc, name)
    });
    let words = "no such file at char 0 line 1 column 1";
    [
        answers(&mut resolver, alloc, "lent", "a: b"),
        answers(&mut resolver, alloc, "own", "c"),
        answers(&mut resolver, alloc, "none", words),
    ]
}

#[test]
fn a_closure_finds_them(rt: HostRuntime) {
    agree(&rt, told_of_closure(rt.alloc()), [true; 3]);
}

/// Whether the end is next.
fn has_ended<T: Input>(input: &mut T) -> bool {
    input.lookahead(1);
    input.next_is_z()
}

/// The same of an input without characters.
fn is_at_end(alloc: Global) -> Option<bool> {
    let mut input = BufferedInput::new(alloc, NoChars).ok()?;
    Some(has_ended(&mut input))
}

#[test]
fn no_characters_come(rt: HostRuntime) {
    agree(&rt, is_at_end(rt.alloc()), Some(true));
}

/// The parser that comes back, and whether its name does.
fn told_of_refused(name: OwnedText) -> (u8, bool) {
    let refused = RefusedParser { parser: 7u8, name };
    (refused.parser, refused.name.as_str() == "root")
}

#[test]
fn what_is_refused_comes_back(rt: HostRuntime) {
    agree(&rt, told_of_refused(own(rt.alloc(), "root")), (7, true));
}
