//! A fault, its place, and the sources that were being read.
ghost use Rattle.std.specs.Prelude.{◌≡◌, [], ◌==◌, not, false, IfOk, IsOk};
ghost use Rattle.std.specs.Str.{chars};
ghost use Rattle.granit_error.specs.FaultKind.{Custom, holds_text};
ghost use Rattle.granit_error.specs.Kinds.{kind_of};
ghost use Rattle.granit_error.specs.Refused.{input_io_of, names_sources, info_words};

use crate::info::Info;
use crate::io::InputIoError;
use crate::kind::ErrorKind;
use granit_base::{Marker, NoMemory, OwnedText, TextList};
use std::alloc::{AllocError, AllocFailed, Global};
use std::fmt;
use std::marker::Model;

/// What is wrong with a text, and where. Display prints the text of `info` and the place, whose
/// line and column begin at 1.
#[derive(Debug, Drop)]
pub struct ScanError {
    mark: Marker,
    kind: ErrorKind,
    // An error without named sources takes no memory.
    sources: Option<TextList>,
}

impl Model for ScanError {
    ghost use Rattle.granit_error.specs.Refused.{Refused, listed};
    ghost use Rattle.granit_error.specs.Kinds.{kind_of};

    ghost Value = { Refused };

    ghost view = { λ e. record { kind = kind_of e.kind; mark = e.mark; sources = listed e.sources } };
}

impl ScanError {
    /// A fault of the caller's own at that place, in those words, outside any named source.
    pub fn new(loc: Marker, message: OwnedText) -> ScanError
        ensures { result ≡ record { kind = Custom message.characters; mark = loc; sources = [] } }
    {
        ScanError::from_kind(loc, ErrorKind::Custom(message))
    }

    /// That kind at that place, outside any named source.
    pub fn from_kind(loc: Marker, kind: ErrorKind) -> ScanError
        ensures { result ≡ record { kind = kind_of kind; mark = loc; sources = [] } }
    {
        ScanError {
            mark: loc,
            kind,
            sources: None,
        }
    }

    /// The same error with those names of sources, the outermost first.
    pub fn with_source_stack(self, source_stack: TextList) -> ScanError
        ensures { result ≡ record self { sources = source_stack } }
    {
        ScanError {
            mark: self.mark,
            kind: self.kind,
            sources: Some(source_stack),
        }
    }

    /// Where the fault stands.
    pub fn marker(&self) -> &Marker
        ensures { result.now ≡ self.now.mark }
    {
        &self.mark
    }

    /// What is wrong.
    pub fn kind(&self) -> &ErrorKind
        ensures { kind_of result.now ≡ self.now.kind }
    {
        &self.kind
    }

    /// The names of the sources that were being read, the outermost first.
    pub fn source_stack(&self) -> &[OwnedText]
        ensures { result.now ≡ self.now.sources }
    {
        match &self.sources {
            None => &[],
            Some(names) => names.as_slice(),
        }
    }

    /// What is said of the input, where the fault is that it could not be read.
    ///
    /// # Errors
    ///
    /// Every other error, unchanged.
    pub fn try_into_input_io_error(self) -> Result<InputIoError, ScanError>
        ensures { result ≡ input_io_of self self.kind }
    {
        let ScanError {
            mark,
            kind,
            sources,
        } = self;
        match kind {
            ErrorKind::InputIo { error } => Ok(error),
            kind => Err(ScanError {
                mark,
                kind,
                sources,
            }),
        }
    }

    /// The words of its kind; where these aren't empty and more than one source is named, then a
    /// line feed, `while parsing ` and the names joined by ` -> `.
    ///
    /// # Errors
    ///
    /// `NoMemory` alone.
    pub fn info(&self, alloc: Global) -> Result<OwnedText, NoMemory>
        ensures { IfOk result (λ t. t ≡ record { characters = chars (info_words self.now); is_borrowed = false }) }
    {
        let words = Info(self).to_string(alloc)?;
        Ok(OwnedText::new(words))
    }

    /// Whether `info` names its sources.
    pub(crate) fn names_sources(&self) -> bool
        ensures { result ≡ names_sources self.now }
    {
        self.source_stack().len() > 1 && self.kind.has_words()
    }

    /// An equal error.
    ///
    /// # Errors
    ///
    /// `NoMemory` alone.
    pub fn try_clone(&self, alloc: Global) -> Result<ScanError, NoMemory>
        ensures value { IfOk result (λ e. e ≡ self.now) }
        ensures memory { self.now.sources ≡ [] → holds_text self.now.kind ≡ false → IsOk result }
    {
        let sources = match &self.sources {
            None => None,
            Some(names) => Some(names.try_clone(alloc)?),
        };
        Ok(ScanError {
            mark: self.mark,
            kind: self.kind.try_clone(alloc)?,
            sources,
        })
    }
}

impl fmt::Display for ScanError {
    ghost use Rattle.std.specs.Prelude.{Some, ◌++◌};
    ghost use Rattle.granit_error.specs.Refused.{info_words, place_words};

    ghost output = { λ e. Some (info_words e ++ place_words e.mark.place) };

    fn fmt<W: fmt::Write>(&self, f: &mut fmt::Formatter<W>) -> fmt::Result {
        let info = Info(self);
        let index = self.mark.index();
        let line = self.mark.line();
        let column = self.mark.col().saturating_add(1);
        write!(f, "{info} at char {index} line {line} column {column}")
    }
}

impl PartialEq for ScanError {
    ghost use Rattle.std.specs.Cmp.{partial_equiv_from_equiv};
    ghost use Rattle.granit_error.specs.Refused.{same_refused, same_refused_equiv};

    ghost eq = { same_refused };

    ghost laws = { partial_equiv_from_equiv same_refused_equiv };

    fn eq(&self, other: &ScanError) -> bool {
        self.kind == other.kind
            && self.mark == other.mark
            && self.source_stack() == other.source_stack()
    }
}

impl Eq for ScanError {
    ghost use Rattle.granit_error.specs.Refused.{same_refused_equiv};

    ghost laws = { same_refused_equiv };
}

impl From<NoMemory> for ScanError {
    ghost use Rattle.std.specs.Prelude.{◌≡◌};
    ghost use Rattle.granit_error.specs.FaultKind.{NoMemory as OutOfMemory};

    ghost from_gives = { λ _ e. e.kind ≡ OutOfMemory };

    fn from(_: NoMemory) -> ScanError {
        ScanError::from_kind(Marker::new(0, 0, 0), ErrorKind::NoMemory)
    }
}

impl From<AllocError> for ScanError {
    ghost use Rattle.std.specs.Prelude.{◌≡◌};
    ghost use Rattle.granit_error.specs.FaultKind.{NoMemory as OutOfMemory};

    ghost from_gives = { λ _ e. e.kind ≡ OutOfMemory };

    fn from(_: AllocError) -> ScanError {
        ScanError::from_kind(Marker::new(0, 0, 0), ErrorKind::NoMemory)
    }
}

impl<T: Drop> From<AllocFailed<T>> for ScanError {
    ghost use Rattle.std.specs.Prelude.{◌≡◌};
    ghost use Rattle.granit_error.specs.FaultKind.{NoMemory as OutOfMemory};

    ghost from_gives = { λ _ e. e.kind ≡ OutOfMemory };

    fn from(_: AllocFailed<T>) -> ScanError {
        ScanError::from_kind(Marker::new(0, 0, 0), ErrorKind::NoMemory)
    }
}
