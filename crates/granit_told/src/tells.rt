//! What is told of a parser, which is let go in one generic function: that is cheap to prove.
use granit_input::StrInput;
use granit_parser::Parser;
use std::alloc::Global;

/// What is told of the calls of a parser.
pub trait Tells<P> {
    /// What is told.
    type Told;

    /// Makes the calls, and tells of them.
    fn tell(&self, parser: &mut P) -> Self::Told;
}

/// What is told of a parser that is let go here.
pub fn told_of<P: Drop, C: Tells<P>>(parser: P, calls: &C) -> C::Told {
    let mut parser = parser;
    calls.tell(&mut parser)
}

/// The same of a parser of a text.
pub fn told_of_text<'a, C: Tells<Parser<'a, StrInput<'a>>>>(
    alloc: Global,
    text: &'a str,
    calls: &C,
) -> C::Told {
    told_of(Parser::new_from_str(alloc, text), calls)
}
