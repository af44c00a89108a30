//! Why a text is refused, and the options of reading.
#![tactic(auto)]

mod error;
mod info;
mod io;
mod kind;
mod options;
mod parts;
mod words;

pub use error::ScanError;
pub use io::InputIoError;
pub use kind::ErrorKind;
pub use options::Options;
