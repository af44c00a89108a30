//! Numbers that are drawn one after another.
ghost use Rattle.std.specs.Prelude.{◌≡◌, ◌<◌, ◌+◌, IfOk, OnOk};
ghost use Rattle.granit_generator.specs.Generator.{draw};

use granit_base::NoMemory;
use std::marker::Model;

/// What numbers are drawn from, and how many anchors the document has.
#[derive(Drop)]
pub struct Drawing {
    state: u32,
    anchors: u32,
}

impl Model for Drawing {
    ghost use Rattle.granit_generator.specs.Generator.{Draws};

    ghost Value = { Draws };

    ghost view = { λ d. record { state = d.state; anchors = d.anchors } };
}

impl Drawing {
    /// The draws that begin with this number.
    pub fn new(seed: u32) -> Drawing
        ensures { result ≡ record { state = seed; anchors = 0 } }
    {
        Drawing {
            state: seed,
            anchors: 0,
        }
    }

    /// A number below the bound.
    #[tactic(auto, unfolding(crate::specs::Generator::draw))]
    pub fn draw(&mut self, bound: u32) -> u32
        requires { 0 < bound }
        ensures value { result ≡ (draw bound self.old).value }
        ensures draws { self.new ≡ (draw bound self.old).draws }
        ensures below { result < bound }
    {
        let next = (self.state as u64 * 1_103_515_245 + 12_345) % 2_147_483_648;
        self.state = next as u32;
        self.state / 65_536 % bound
    }

    /// How many anchors the document has.
    pub fn anchors(&self) -> u32
        ensures { result ≡ self.now.anchors }
    {
        self.anchors
    }

    /// Counts one more anchor, and answers its number. No memory holds more than a `u32` counts.
    ///
    /// # Errors
    ///
    /// `NoMemory` alone.
    pub fn add_anchor(&mut self) -> Result<u32, NoMemory>
        ensures number { IfOk result (λ n. n ≡ self.old.anchors + 1) }
        ensures counted { OnOk result (self.new
            ≡ record { state = self.old.state; anchors = self.old.anchors + 1 }) }
    {
        self.anchors = self.anchors.checked_add(1).ok_or(NoMemory)?;
        Ok(self.anchors)
    }

    /// Begins a document, which has no anchors.
    pub fn start_document(&mut self)
        ensures { self.new ≡ record { state = self.old.state; anchors = 0 } }
    {
        self.anchors = 0;
    }
}
