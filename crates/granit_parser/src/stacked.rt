//! Parsers on a stack.
use crate::parser::Parser;
use granit_base::Span;
use granit_error::ScanError;
use granit_event::Event;
use granit_input::BorrowedInput;
use granit_layers::StackedParser;

/// Above another parser the number of a next anchor is that one's.
impl<'input, T: BorrowedInput<'input>> StackedParser<'input> for Parser<'input, T> {
    ghost use Rattle.std.specs.Prelude.{◌≡◌};
    ghost use Rattle.granit_parser.specs.Numbers.{next_number, with_number};
    ghost use Rattle.granit_parser.specs.Parsing.{ParserStepsTo};

    ghost steps = { λ p r q. ParserStepsTo T.unread T.left T.origin p r q };

    ghost offset_of = { next_number };

    ghost sets_offset = { λ offset p q. q ≡ with_number offset p };

    ghost offset_over = { λ p below. below };

    fn next_event(&mut self) -> Option<Result<(Event<'input>, Span), ScanError>> {
        self.next_event()
    }

    fn anchor_offset(&self) -> usize {
        self.anchor_offset()
    }

    fn set_anchor_offset(&mut self, offset: usize) {
        self.set_anchor_offset(offset);
    }

    fn offset_above(&self, below: usize) -> usize {
        below
    }
}
