//! Texts that are included, whatever the kinds of the parsers are.
use crate::pushes::{Pushes, Stack, put};
use crate::receivers::{Counting, Strict};
use crate::texts::Texts;
use crate::told::{Tells, Told, given, pass, refuses};
use granit_error::options;
use granit_layers::{FromReplay, StackedParser};
use granit_receivers::TryLoadError;
use granit_stack::IncludeStack;
use std::alloc::Global;

/// What is done with a stack.
#[derive(Clone, Copy)]
pub(crate) enum Case {
    /// A text is included that goes on behind its document.
    Second,
    /// A bad text is.
    Bad,
    /// One that isn't there is, behind an event.
    Missing,
    /// One with an anchor is.
    Anchored,
    /// Two texts are.
    Two,
    /// A text of two documents is, as the first one.
    Alone,
    /// None is.
    Nothing,
    /// None is, and the events are sent to receivers.
    Sent,
}

/// A stack that finds includes or doesn't, with or without comments.
fn empty_stack<'input, A, B, C, D>(
    alloc: Global,
    finds: bool,
    comments: bool,
) -> Stack<'input, A, B, C, D>
where
    A: StackedParser<'input>,
    B: StackedParser<'input>,
    C: StackedParser<'input>,
    D: StackedParser<'input>,
{
    let mut stack = IncludeStack::with_options(alloc, options!(emit_comments: comments));
    if finds {
        stack.set_resolver(Texts);
    }
    stack
}

/// Whether what is refused behind the first event of an include, which is the scalar `b`, has these words.
fn refuses_second<'input, S: FromReplay<'input>>(
    alloc: Global,
    stack: &mut IncludeStack<'input, S, Texts>,
    words: &str,
) -> bool {
    let _ = given(stack.push_include("two"));
    let (first, _) = given(stack.next_event());
    first == 'b' && refuses(alloc, stack.next_event(), words)
}

/// Two texts are included.
fn include_two<'input, S: FromReplay<'input>>(stack: &mut IncludeStack<'input, S, Texts>) {
    pass(stack, 4);
    let _ = given(stack.push_include("lent"));
    pass(stack, 2);
    let _ = given(stack.push_include("own"));
}

/// What a receiver answered.
trait Received {
    /// Its letter; `.` is nothing, `?` a refusal of the parser.
    fn letter(&self) -> char;
}

impl Received for Result<(), TryLoadError<char>> {
    fn letter(&self) -> char {
        match self {
            Ok(()) => '.',
            Err(TryLoadError::Scan(_)) => '?',
            Err(TryLoadError::Receiver(letter)) => *letter,
        }
    }
}

/// The same of what is let go here.
fn letter_of<T: Received + Drop>(answer: T) -> char {
    answer.letter()
}

/// What a receiver answers that wants no nodes, and the letter of what comes behind the end of the document; and how
/// many events come up to that end.
fn sent<'input, S: StackedParser<'input>>(stack: &mut IncludeStack<'input, S, Texts>) -> Told {
    let refused = letter_of(stack.try_load(&mut Strict, true));
    let mut counting = Counting { events: 0 };
    let _ = given(stack.load(&mut counting, false));
    let (next, _) = given(stack.next());
    let mut letters = ['.'; 10];
    letters[0] = refused;
    letters[1] = next;
    let mut numbers = [0; 10];
    numbers[0] = counting.events;
    (letters, numbers)
}

/// Whether what is refused in a case has these words.
fn refuses_in<'input, S: FromReplay<'input>>(
    alloc: Global,
    stack: &mut IncludeStack<'input, S, Texts>,
    case: Case,
    words: &str,
) -> bool {
    match case {
        Case::Second => refuses_second(alloc, stack, words),
        Case::Bad => refuses(alloc, stack.push_include("bad"), words),
        Case::Missing => {
            pass(stack, 1);
            refuses(alloc, stack.push_include("none"), words)
        }
        Case::Anchored => refuses(alloc, stack.push_include("own"), words),
        Case::Two => {
            include_two(stack);
            false
        }
        Case::Alone => refuses(alloc, stack.push_include("two"), words),
        Case::Nothing | Case::Sent => false,
    }
}

/// What texts are included in.
trait Includes {
    /// Whether what is refused in a case has these words, and what is told behind that.
    fn include(&mut self, alloc: Global, case: Case, words: &str) -> (bool, Told);
}

impl<'input, S: FromReplay<'input>> Includes for IncludeStack<'input, S, Texts> {
    fn include(&mut self, alloc: Global, case: Case, words: &str) -> (bool, Told) {
        let is_refused = refuses_in(alloc, self, case, words);
        let told = match case {
            Case::Sent => sent(self),
            _ => self.tell(),
        };
        (is_refused, told)
    }
}

/// The same of a stack that is let go here, which is cheap to prove in a generic function.
fn included<P: Includes + Drop>(alloc: Global, stack: P, case: Case, words: &str) -> (bool, Told) {
    let mut stack = stack;
    stack.include(alloc, case, words)
}

/// What is asked of a stack.
#[derive(Clone, Copy)]
pub(crate) struct Asked {
    /// Whether it finds includes.
    pub(crate) finds: bool,
    /// Whether it gives comments.
    pub(crate) comments: bool,
    /// What is put on it.
    pub(crate) pushes: Pushes,
    /// What is done with it then.
    pub(crate) case: Case,
}

/// The number that a next anchor gets behind what is put on a stack, whether what is refused then has these words, and
/// what is told behind that.
pub(crate) type Seen = (usize, bool, Told);

/// The same of three parsers.
pub(crate) fn seen_of<'input, A, B, C, D>(
    alloc: Global,
    asked: Asked,
    words: &str,
    string: A,
    characters: B,
    input: C,
) -> Seen
where
    A: StackedParser<'input>,
    B: StackedParser<'input>,
    C: StackedParser<'input>,
    D: FromReplay<'input>,
{
    let mut stack: Stack<'input, A, B, C, D> = empty_stack(alloc, asked.finds, asked.comments);
    let _ = put(alloc, &mut stack, asked.pushes, string, characters, input);
    let number = stack.current_anchor_offset();
    let (is_refused, told) = included(alloc, stack, asked.case, words);
    (number, is_refused, told)
}
