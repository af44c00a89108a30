//! Properties of a node that must come (YAML 1.2.2, 6.9).
ghost use Rattle.std.specs.Prelude.{◌≡◌, ◌<◌, ◌-◌, ◌^◌, true, Some, IsOk, IsSome, OnOk};
ghost use Rattle.granit_sorts.specs.SortViews.{machine_token};
ghost use Rattle.granit_frames.specs.Wanting.{WantsToGive};
ghost use Rattle.granit_machine.specs.Entries.{lookup_text};
ghost use Rattle.granit_machine.specs.Giving as giving;
ghost use Rattle.granit_machine.specs.NodeSteps as steps;
ghost use Rattle.granit_node_properties.specs.PropertyViews.{anchor_view, tag_view};

use crate::names::remember_name;
use crate::state::ParserState;
use granit_base::{NoMemory, Text};
use granit_event::Tag;
use granit_node_properties::{NodeAnchor, NodeProperties, NodeTag};
use granit_sorts::Token;
use std::alloc::Global;

impl<'input> ParserState<'input> {
    /// An anchor of the node that must come.
    #[tactic(auto, using(crate::proofs::FrameLemmas::bare_frames))]
    fn set_anchor(&mut self, anchor: NodeAnchor<'input>)
        ensures { self.new ≡ steps.with_properties
            (record (giving.properties_on self.old.frames anchor.entry.end) {
              anchor = Some
                  (anchor_view anchor.entry);
              end = anchor.entry.end;
            }) self.old }
    {
        let end = anchor.end;
        let tag = match self.properties.take() {
            None => None,
            Some(properties) => properties.tag,
        };
        self.properties = Some(NodeProperties {
            anchor: Some(anchor),
            tag,
            end,
        });
    }

    /// A tag of the node that must come.
    #[tactic(auto, using(crate::proofs::FrameLemmas::bare_frames))]
    fn set_tag(&mut self, tag: NodeTag)
        ensures { self.new ≡ steps.with_properties
            (record (giving.properties_on self.old.frames tag.end) {
              tag = Some
                  (tag_view tag);
              end = tag.end;
            }) self.old }
    {
        let end = tag.end;
        let anchor = match self.properties.take() {
            None => None,
            Some(properties) => properties.anchor,
        };
        self.properties = Some(NodeProperties {
            anchor,
            tag: Some(tag),
            end,
        });
    }

    /// An anchor where it stands: the next number is that of its name from now on, and of the node that must come.
    ///
    /// # Errors
    ///
    /// `NoMemory` alone.
    pub fn anchored(
        &mut self,
        alloc: Global,
        name: Text<'input>,
        token: &Token<'input>,
    ) -> Result<(), NoMemory>
        ensures leaves { OnOk result (self.new ≡ steps.anchored (machine_token token.now) name.entry self.old) }
        ensures kept { self.new.kept ≡ self.old.kept }
        ensures again { name.entry.is_borrowed ≡ true → self.old.count < 2 ^ 64 - 1
            → IsSome (lookup_text name.entry.characters self.old.names) → IsOk result }
    {
        // A count past `usize` would want more memory than there is.
        let Some(number) = self.count.checked_add(1) else {
            return Err(NoMemory);
        };
        remember_name(&mut self.names, alloc, &name, number)?;
        self.count = number;
        self.set_anchor(NodeAnchor {
            number,
            name,
            start: token.lexeme.shown_start,
            end: token.lexeme.shown_end,
        });
        Ok(())
    }

    /// A tag where it stands is that of the node that must come, behind the held comments.
    ///
    /// # Errors
    ///
    /// `NoMemory` alone.
    pub fn tagged(&mut self, tag: Tag, token: &Token<'input>) -> Result<(), NoMemory>
        ensures leaves { OnOk result (self.new
            ≡ steps.tagged (machine_token token.now) tag.original_handle tag.suffix tag.handle
            (giving.flush self.old)) }
        ensures kept { self.new.kept ≡ self.old.kept }
        ensures eventless { WantsToGive result self.old (giving.flush self.old) }
    {
        self.flush()?;
        self.set_tag(NodeTag {
            tag,
            start: token.lexeme.shown_start,
            end: token.lexeme.shown_end,
        });
        Ok(())
    }
}
