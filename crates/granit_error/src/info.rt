//! What is printed of an error but its place.
ghost use Rattle.std.specs.Prelude.{◌≡◌, ◌==◌, not, length, Some};
ghost use Rattle.granit_error.specs.FaultKind.{fault_words};
ghost use Rattle.granit_error.specs.Kinds.{kind_of};
ghost use Rattle.granit_error.specs.Refused.{name_behind};
ghost use Rattle.std.specs.Fmt.{WritesOnOk};
ghost use Rattle.std.specs.List.{flat_map};

use crate::error::ScanError;
use crate::kind::ErrorKind;
use crate::words::utf8;
use granit_base::OwnedText;
use std::fmt;

impl ErrorKind {
    /// Whether Display prints anything.
    pub(crate) fn has_words(&self) -> bool
        ensures { result ≡ not (length (fault_words (kind_of self.now)) == 0) }
    {
        match self {
            ErrorKind::Custom(message) => !utf8(message).is_empty(),
            _ => true,
        }
    }
}

/// Names of sources, printed with ` -> ` between them.
#[derive(Drop)]
struct Joined<'a>(&'a [OwnedText]);

impl<'a> fmt::Display for Joined<'a> {
    ghost use Rattle.granit_error.specs.Refused.{joined_names};

    ghost output = { λ j. Some (joined_names j.0.now) };

    fn fmt<W: fmt::Write>(&self, f: &mut fmt::Formatter<W>) -> fmt::Result {
        match self.0.split_first() {
            None => Ok(()),
            Some((first, rest)) => {
                f.write_str(utf8(first))?;
                write_behind(rest, f)
            }
        }
    }
}

fn write_behind<W: fmt::Write>(names: &[OwnedText], f: &mut fmt::Formatter<W>) -> fmt::Result
    ensures { WritesOnOk W.write_str_gives f.old result (flat_map name_behind names.now) f.new }
{
    for name in names {
        let name = utf8(name);
        write!(f, " -> {name}")?;
    }
    Ok(())
}

/// An error without its place.
#[derive(Drop)]
pub(crate) struct Info<'a>(pub(crate) &'a ScanError);

impl<'a> fmt::Display for Info<'a> {
    ghost use Rattle.granit_error.specs.Refused.{info_words};

    ghost output = { λ i. Some (info_words i.0.now) };

    fn fmt<W: fmt::Write>(&self, f: &mut fmt::Formatter<W>) -> fmt::Result {
        let error = self.0;
        let kind = error.kind();
        if error.names_sources() {
            let names = Joined(error.source_stack());
            write!(f, "{kind}\nwhile parsing {names}")
        } else {
            write!(f, "{kind}")
        }
    }
}
