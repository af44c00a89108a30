//! The laws on includes. What names the types of parsers only hands them on, and two of them at most: a proof spells
//! them out.
use crate::resolver::{OneText, a_resolver_finds_the_small_text};
use granit_input::{BorrowedInput, StrInput};
use granit_layers::StackedParser;
use granit_parser::Parser;
use granit_replay::{ReplayParser, Resolver};
use granit_stack_laws::{
    a_new_parser_is_unread, a_small_text_comes_through, a_small_text_is_included,
    a_small_text_is_read, a_stack_includes_a_small_text, a_text_with_one_start_has_one_document,
    an_include_comes_through, includes_are_new,
};

/// The laws on parsers of any kinds.
fn of_kinds<'input, A, B, C, R>()
where
    A: StackedParser<'input>,
    B: StackedParser<'input>,
    C: StackedParser<'input>,
    R: Resolver<'input>,
{
    an_include_comes_through::<A, B, C, R>();
    a_small_text_is_included::<A, B, C, R>();
    a_small_text_comes_through::<A, B, C>();
}

/// The laws on parsers over any inputs.
fn of_inputs<'input, X, Y, Z, R>()
where
    X: BorrowedInput<'input>,
    Y: BorrowedInput<'input>,
    Z: BorrowedInput<'input>,
    R: Resolver<'input>,
{
    includes_are_new::<X, Y, Z, R>();
    a_new_parser_is_unread::<X>();
    a_stack_includes_a_small_text::<X, Y, Z, R>();
}

/// The laws on kinds, of parsers over strings and of events that are given once more.
fn at_kinds<'input>() {
    of_kinds::<
        Parser<'input, StrInput<'input>>,
        ReplayParser<'input>,
        ReplayParser<'input>,
        OneText,
    >();
}

/// The laws on inputs, of strings.
fn at_inputs<'input>() {
    of_inputs::<StrInput<'input>, StrInput<'input>, StrInput<'input>, OneText>();
}

#[test]
fn laws_of_stacks() {
    at_kinds();
    at_inputs();
    a_text_with_one_start_has_one_document();
    a_small_text_is_read();
    a_resolver_finds_the_small_text();
}
