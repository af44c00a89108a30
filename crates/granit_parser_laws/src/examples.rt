//! That calls of a parser say what the laws ask of them.
ghost use Rattle.granit_parser.specs.Parsing.{Next, Parsing, ParserPeeksAs, ParserStepsTo};
ghost use Rattle.granit_parser.specs.Recovering.{CallsTo, PeeksIn};
ghost use Rattle.granit_parser_laws.specs.Again.{ProceedsTo, SeesEvent, TakesEvent};

use granit_base::Span;
use granit_error::ScanError;
use granit_event::Event;
use granit_input::BorrowedInput;
use granit_parser::Parser;

/// `proceed_next_document`, whose clauses are what the laws ask of it.
pub fn next_document_told<'input, T: BorrowedInput<'input>>(
    parser: &mut Parser<'input, T>,
) -> Result<bool, ScanError>
    ensures { ProceedsTo T.unread T.origin parser.old result parser.new }
{
    parser.proceed_next_document()
}

/// `next_event`, whose clauses are what the laws ask of it.
pub fn next_event_told<'input, T: BorrowedInput<'input>>(
    parser: &mut Parser<'input, T>,
) -> Option<Result<(Event<'input>, Span), ScanError>>
    ensures { TakesEvent T.unread T.origin parser.old result parser.new }
{
    parser.next_event()
}

/// A step of the iterator says the same (`taken`), and a look at the next event what the laws ask of looks (`seen`).
pub fn steps_and_looks_tell_of_calls<'input, T: BorrowedInput<'input>>()
    ensures taken { (old new : Parsing _) (r : Next) → ParserStepsTo T.unread T.left T.origin old r new
        → CallsTo T.unread T.origin old r new → TakesEvent T.unread T.origin old r new }
    ensures seen { (old new : Parsing _) (r : Next) → ParserPeeksAs T.unread T.left T.origin old r new
        → PeeksIn T.unread T.origin old r new → SeesEvent T.unread T.origin old r new }
{}
