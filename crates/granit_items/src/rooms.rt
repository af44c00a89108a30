//! Room for lexemes, which is used again.

use crate::item::Lexeme;
use granit_base::NoMemory;
use std::alloc::Global;

/// Room that lexemes left which aren't needed any more, for others to be read into; no clause speaks of it.
#[derive(Drop)]
pub struct Rooms<'input> {
    alloc: Global,
    spare: Vec<Box<Lexeme<'input>>>,
}

impl<'input> Rooms<'input> {
    /// No lexeme left any yet.
    pub fn new(alloc: Global) -> Rooms<'input> {
        Rooms {
            alloc,
            spare: Vec::new(alloc),
        }
    }

    /// Room for a lexeme: what another one left, or new.
    ///
    /// # Errors
    ///
    /// `NoMemory` alone.
    #[inline(always)]
    pub fn take(&mut self) -> Result<Box<Lexeme<'input>>, NoMemory> {
        match self.spare.pop() {
            Some(room) => Ok(room),
            None => Ok(Box::new(self.alloc, Lexeme::room())?),
        }
    }

    /// A lexeme that isn't needed any more leaves its room; where there is no memory to keep it, that goes too.
    #[inline(always)]
    pub fn keep(&mut self, room: Box<Lexeme<'input>>) {
        let _ = self.spare.push(room);
    }
}
