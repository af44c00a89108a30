//! How a run ended.
ghost use Rattle.std.specs.Prelude.{◌≡◌};
ghost use Rattle.granit_events.specs.Codes.{code_of};

/// How a run ended.
#[derive(Clone, Copy, Debug, PartialEq, Eq)]
pub enum Status {
    /// The events were printed.
    Done,
    /// The text is refused, and its fault was printed.
    Fault,
    /// The words are not in the grammar.
    Usage,
    /// The source failed.
    ReadFault,
    /// The sink failed.
    WriteFault,
    /// The input isn't UTF-8.
    NotUtf8,
    /// No memory was found.
    NoMemory,
    /// The input has more than 67,108,864 bytes.
    TooLong,
}

impl Status {
    /// The exit status of the program, from 0 to 7 in the order of the variants.
    pub fn code(self) -> u8
        ensures { result ≡ code_of self }
    {
        match self {
            Status::Done => 0,
            Status::Fault => 1,
            Status::Usage => 2,
            Status::ReadFault => 3,
            Status::WriteFault => 4,
            Status::NotUtf8 => 5,
            Status::NoMemory => 6,
            Status::TooLong => 7,
        }
    }
}
