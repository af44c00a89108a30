//! Kinds, errors and options: what is printed at concrete values.
use crate::agree::agree;
use granit_base::{Marker, NoMemory, OwnedText, TextList};
use granit_error::{ErrorKind, InputIoError, Options, ScanError};
use std::alloc::{AllocError, AllocFailed, Global};
use std::hash::{DefaultHasher, Hash, Hasher};
use std::io;

fn own(alloc: Global, text: &str) -> Result<OwnedText, NoMemory> {
    OwnedText::from_str(alloc, text)
}

/// Whether a copy that was made is equal to what it is of. What is let go in a generic function is cheap to prove.
fn is_same<T: PartialEq + Drop>(copy: Result<T, NoMemory>, of: &T) -> bool {
    match copy {
        Ok(copy) => copy == *of,
        Err(_) => false,
    }
}

/// Whether a text that was made has these words.
fn has_words<E: Drop>(text: Result<String, E>, words: &str) -> bool {
    match text {
        Ok(text) => text.as_str() == words,
        Err(_) => false,
    }
}

/// The number of a kind, where it prints these words and a clone is equal to it; else 0.
fn number_of(alloc: Global, kind: &ErrorKind, words: &str) -> u8 {
    let is_cloned = is_same(kind.try_clone(alloc), kind);
    if is_cloned && has_words(kind.to_string(alloc), words) {
        kind.number()
    } else {
        0
    }
}

/// The same of a kind that was made and is let go here.
fn told(alloc: Global, kind: Result<ErrorKind, NoMemory>, words: &str) -> u8 {
    match &kind {
        Ok(kind) => number_of(alloc, kind, words),
        Err(_) => 0,
    }
}

/// Of kinds without parts.
fn bare_kinds(alloc: Global) -> [u8; 3] {
    let colon = "':' may not precede any of `[{` in flow mapping";
    let missing = "No include resolver set for parser stack.";
    [
        told(alloc, Ok(ErrorKind::NoMemory), "out of memory"),
        told(
            alloc,
            Ok(ErrorKind::FlowMappingValueAdjacentCollection),
            colon,
        ),
        told(alloc, Ok(ErrorKind::MissingIncludeResolver), missing),
    ]
}

fn unclosed(opener: char) -> Result<ErrorKind, NoMemory> {
    Ok(ErrorKind::UnclosedFlowCollection { opener })
}

fn too_long(limit: usize) -> Result<ErrorKind, NoMemory> {
    Ok(ErrorKind::DirectiveByteLimitExceeded { limit })
}

fn unexpected(character: char) -> Result<ErrorKind, NoMemory> {
    Ok(ErrorKind::UnexpectedCharacter { character })
}

/// Of kinds with a number or a character.
fn kinds_with_parts(alloc: Global) -> [u8; 4] {
    let bytes = "directive exceeds the configured limit of 1024 bytes";
    [
        told(alloc, unclosed('{'), "unclosed bracket '{'"),
        told(alloc, too_long(1024), bytes),
        told(alloc, unexpected('\t'), "unexpected character: `\\t'"),
        told(alloc, unexpected('é'), "unexpected character: `\\u{e9}'"),
    ]
}

/// A kind with a text.
fn decoding(alloc: Global, text: &str) -> Result<ErrorKind, NoMemory> {
    let message = own(alloc, text)?;
    Ok(ErrorKind::InputDecoding { message })
}

/// Another one.
fn custom(alloc: Global, text: &str) -> Result<ErrorKind, NoMemory> {
    Ok(ErrorKind::Custom(own(alloc, text)?))
}

/// Of both.
fn kinds_with_texts(alloc: Global) -> [u8; 2] {
    [
        told(alloc, decoding(alloc, "é"), "input decoding error: é"),
        told(alloc, custom(alloc, "mine"), "mine"),
    ]
}

#[test]
fn kinds_print_their_words(rt: HostRuntime) {
    agree(&rt, bare_kinds(rt.alloc()), [1, 8, 84]);
    agree(&rt, kinds_with_parts(rt.alloc()), [2, 17, 76, 76]);
    agree(&rt, kinds_with_texts(rt.alloc()), [79, 81]);
}

fn hash_of(kind: &ErrorKind) -> u64 {
    let mut state = DefaultHasher::new();
    kind.hash(&mut state);
    state.finish()
}

/// `=` where two kinds are equal and have one hash, `/` where neither is so, and else `?`.
fn compared(first: &ErrorKind, second: &ErrorKind) -> char {
    match (first == second, hash_of(first) == hash_of(second)) {
        (true, true) => '=',
        (false, false) => '/',
        _ => '?',
    }
}

/// The same of a kind and the custom one of `a`, or of that one and itself; `!` is want of memory.
fn compared_to_custom(alloc: Global, kind: Option<&ErrorKind>) -> char {
    match &custom(alloc, "a") {
        Ok(a) => compared(kind.unwrap_or(a), a),
        Err(_) => '!',
    }
}

/// The same of a kind that was made.
fn made_compared(alloc: Global, kind: Result<ErrorKind, NoMemory>) -> char {
    match &kind {
        Ok(kind) => compared_to_custom(alloc, Some(kind)),
        Err(_) => '!',
    }
}

/// The same of that one itself, of another one of the same text, and of others.
fn comparisons(alloc: Global) -> [char; 5] {
    [
        compared_to_custom(alloc, None),
        made_compared(alloc, custom(alloc, "a")),
        made_compared(alloc, custom(alloc, "b")),
        made_compared(alloc, decoding(alloc, "a")),
        made_compared(alloc, Ok(ErrorKind::UnexpectedEof)),
    ]
}

#[test]
fn kinds_are_equal_by_their_parts(rt: HostRuntime) {
    agree(&rt, comparisons(rt.alloc()), ['=', '=', '/', '/', '/']);
}

fn mismatched() -> ScanError {
    let kind = ErrorKind::MismatchedFlowCollectionEnd {
        opener: '[',
        closer: '}',
    };
    ScanError::from_kind(Marker::new(3, 2, 1), kind)
}

/// Whether `info` gives these words.
fn informs(alloc: Global, error: &ScanError, words: &str) -> bool {
    match &error.info(alloc) {
        Ok(info) => info.as_str() == words,
        Err(_) => false,
    }
}

/// Whether Display prints them with that place behind them.
fn displays(alloc: Global, error: &ScanError, words: &str, place: &str) -> bool {
    match &error.to_string(alloc) {
        Ok(printed) => printed.as_str().strip_prefix(words) == Some(place),
        Err(_) => false,
    }
}

/// Whether `info` gives those words, Display the same with that place behind them, and a clone is equal.
fn prints(alloc: Global, error: &ScanError, words: &str, place: &str) -> [bool; 3] {
    [
        informs(alloc, error, words),
        displays(alloc, error, words, place),
        is_same(error.try_clone(alloc), error),
    ]
}

/// One more name, where there is room.
fn push(alloc: Global, stack: &mut TextList, name: &str) -> Result<(), NoMemory> {
    stack.push(own(alloc, name)?)
}

/// A list of names.
fn stack_of(alloc: Global, names: &[&str]) -> TextList {
    let mut stack = TextList::new(alloc);
    for name in names {
        let _ = push(alloc, &mut stack, name).is_ok();
    }
    stack
}

/// An error at a place, below sources.
fn below(alloc: Global, error: ScanError, names: &[&str]) -> ScanError {
    error.with_source_stack(stack_of(alloc, names))
}

/// Whether an error names so many sources, and what it prints.
fn has_printed(alloc: Global, error: &ScanError, count: usize, words: &str) -> bool {
    let place = " at char 3 line 2 column 2";
    error.source_stack().len() == count && prints(alloc, error, words, place) == [true; 3]
}

/// The same of one below sources.
fn prints_below(alloc: Global, names: &[&str], words: &str) -> bool {
    let error = below(alloc, mismatched(), names);
    has_printed(alloc, &error, names.len(), words)
}

/// The same of none, one and three.
fn all_print(alloc: Global) -> [bool; 3] {
    let words = "mismatched bracket '[' closed by '}'";
    let below = "mismatched bracket '[' closed by '}'\nwhile parsing a -> b -> c";
    [
        prints_below(alloc, &[], words),
        prints_below(alloc, &["a.yaml"], words),
        prints_below(alloc, &["a", "b", "c"], below),
    ]
}

#[test]
fn errors_print_words_sources_and_place(rt: HostRuntime) {
    agree(&rt, all_print(rt.alloc()), [true; 3]);
}

/// Whether an error without words has its number, its place, and what it prints.
fn told_of_silent(alloc: Global, error: &ScanError, place: &Marker) -> [bool; 3] {
    let words = " at char 0 line 1 column 18446744073709551615";
    [
        error.kind().number() == 81,
        error.marker() == place,
        prints(alloc, error, "", words) == [true; 3],
    ]
}

/// The same below two sources; no for want of memory.
fn silent(alloc: Global) -> [bool; 3] {
    let place = Marker::new(0, 1, usize::MAX);
    match own(alloc, "") {
        Ok(words) => {
            let names = ["a.yaml", "b.yaml"];
            let error = below(alloc, ScanError::new(place, words), &names);
            told_of_silent(alloc, &error, &place)
        }
        Err(_) => [false; 3],
    }
}

#[test]
fn an_error_without_words_names_no_sources(rt: HostRuntime) {
    agree(&rt, silent(rt.alloc()), [true; 3]);
}

fn is_failed_input(error: ScanError, message: &str) -> bool {
    match error.try_into_input_io_error() {
        Ok(error) => error.message() == message,
        Err(_) => false,
    }
}

/// Whether a failure is that of this message.
fn is_failure(alloc: Global, error: &InputIoError, words: &str) -> bool {
    match own(alloc, words) {
        Ok(message) => *error == InputIoError::from_message(message),
        Err(_) => false,
    }
}

/// Whether a clone of it prints these words.
fn clone_prints(alloc: Global, error: &InputIoError, words: &str) -> bool {
    match &error.try_clone(alloc) {
        Ok(copy) => has_words(copy.to_string(alloc), words),
        Err(_) => false,
    }
}

/// The failure of a missing file.
fn missing(alloc: Global) -> Result<InputIoError, NoMemory> {
    let missing = io::Error::from_raw_os_error(2);
    InputIoError::from_io(alloc, &missing)
}

/// Whether it has that message and is the one of it, and a clone prints it.
fn told_of_failure(alloc: Global, error: &InputIoError, words: &str) -> [bool; 3] {
    [
        error.message() == words,
        is_failure(alloc, error, words),
        clone_prints(alloc, error, words),
    ]
}

/// The same of the failure of a missing file; no for want of memory.
fn told_of_missing(alloc: Global, words: &str) -> [bool; 3] {
    match &missing(alloc) {
        Ok(error) => told_of_failure(alloc, error, words),
        Err(_) => [false; 3],
    }
}

/// An error of a text that is a failed input.
fn failed(error: InputIoError) -> ScanError {
    ScanError::from_kind(Marker::new(0, 1, 0), ErrorKind::InputIo { error })
}

/// Whether that failure is got back from an error of a text.
fn comes_back(alloc: Global, words: &str) -> bool {
    match missing(alloc) {
        Ok(error) => is_failed_input(failed(error), words),
        Err(_) => false,
    }
}

#[test]
fn failed_inputs_keep_their_message(rt: HostRuntime) {
    let words = "No such file or directory (os error 2)";
    agree(&rt, told_of_missing(rt.alloc(), words), [true; 3]);
    agree(&rt, comes_back(rt.alloc(), words), true);
    agree(&rt, is_failed_input(mismatched(), words), false);
}

/// The number of an error's kind.
fn kind_of(error: ScanError) -> u8 {
    error.kind().number()
}

#[test]
fn want_of_memory_is_an_error(rt: HostRuntime) {
    let numbers = [
        kind_of(ScanError::from(NoMemory)),
        kind_of(ScanError::from(AllocError)),
        kind_of(ScanError::from(AllocFailed { value: 7u8 })),
    ];
    agree(&rt, numbers, [1; 3]);
}

/// The limits of options.
fn limits(options: &Options) -> [usize; 6] {
    [
        options.flow_nesting_limit,
        options.block_nesting_limit,
        options.max_buffered_comment_events,
        options.simple_key_max_lookahead,
        options.max_directive_bytes,
        options.max_reserved_directive_params,
    ]
}

/// Options of which one number and the comments are set.
fn set() -> Options {
    granit_error::options!(flow_nesting_limit: 7, emit_comments: false)
}

/// Whether options are as the defaults are but for that number, once the comments are set back.
fn told_of_set(set: &mut Options) -> [bool; 2] {
    let was_set = set.emit_comments;
    set.set_keep_tags(true);
    set.set_keep_tags(false);
    set.set_emit_comments(true);
    let is_default = *set == granit_error::options!(flow_nesting_limit: 7);
    [!was_set, is_default]
}

/// Whether the defaults are not strict and keep no tags, and are what `options!` begins with.
fn told_of_default(default: &Options) -> [bool; 3] {
    [
        !default.strict_indentation,
        !default.keep_tags,
        granit_error::options!() == *default,
    ]
}

#[test]
fn options_begin_with_the_defaults(rt: HostRuntime) {
    agree(&rt, limits(&set()), [7, 255, 96, 1024, 1024, 16]);
    agree(&rt, told_of_set(&mut set()), [true; 2]);
    agree(&rt, told_of_default(&Options::default()), [true; 3]);
}
