//! Who takes the events of a stack.
use granit_event::Event;
use granit_receivers::{EventReceiver, TryEventReceiver};

/// How many events came.
#[derive(Drop)]
pub(crate) struct Counting {
    /// That many.
    pub(crate) events: usize,
}

impl<'input> EventReceiver<'input> for Counting {
    fn on_event(&mut self, ev: Event<'input>) {
        drop(ev);
        self.events = self.events.saturating_add(1);
    }
}

/// Wants no more behind a node.
#[derive(Drop)]
pub(crate) struct Strict;

impl<'input> TryEventReceiver<'input> for Strict {
    type Error = char;

    fn on_event(&mut self, ev: Event<'input>) -> Result<(), char> {
        let is_node = ev.is_node();
        drop(ev);
        if is_node { Err('!') } else { Ok(()) }
    }
}
