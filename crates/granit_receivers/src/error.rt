//! How the sending of events fails.
use granit_base::Span;
use granit_error::ScanError;
use granit_event::Event;
use std::fmt;

/// What a parser gives: an event and its place, or why there is none.
pub type ParseResult<'input> = Result<(Event<'input>, Span), ScanError>;

/// Why no more events were sent.
#[derive(Debug, Drop, PartialEq, Eq)]
pub enum TryLoadError<E> {
    /// The parser refused its text.
    Scan(ScanError),
    /// The receiver wanted no more.
    Receiver(E),
}

impl<E> From<ScanError> for TryLoadError<E> {
    ghost use Rattle.std.specs.Prelude.{◌≡◌};
    ghost use Rattle.granit_receivers.specs.declared.error.TryLoadError.TheVariants.{Scan};

    ghost from_gives = { λ e r. r ≡ Scan e };

    fn from(error: ScanError) -> TryLoadError<E> {
        TryLoadError::Scan(error)
    }
}

impl<E: fmt::Display> fmt::Display for TryLoadError<E> {
    ghost use Rattle.granit_receivers.specs.LoadWords.{load_words};

    ghost output = { λ r. load_words E.output r };

    fn fmt<W: fmt::Write>(&self, f: &mut fmt::Formatter<W>) -> fmt::Result {
        match self {
            TryLoadError::Scan(error) => write!(f, "parser error: {error}"),
            TryLoadError::Receiver(error) => write!(f, "receiver error: {error}"),
        }
    }
}
