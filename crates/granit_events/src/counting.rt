//! The numbers of generated trees, of their text and of what it is read as.
ghost use Rattle.std.specs.Prelude.{◌≡◌, ◌≤◌, IfOk, string_bytes};
ghost use Rattle.granit_model.specs.Tree.{DocumentsFit, trees_depth};
ghost use Rattle.granit_events.specs.TreeNumbers.{flow_byte_count, selftest_line, text_events};

use granit_base::NoMemory;
use granit_error::{ErrorKind, Options};
use granit_generator::{node_count, trees_from};
use granit_load::load_str;
use granit_model::{TreeList, flow_text};
use std::alloc::Global;

/// How many bytes the canonical flow text of trees has, and how many events it is read as. No fault comes: the text
/// is answered, or memory runs out.
#[tactic(auto, using(crate::proofs::CountLemmas::events_counted))]
fn read_back(alloc: Global, trees: &TreeList) -> Result<(usize, usize), NoMemory>
    requires fit { DocumentsFit trees.now }
    requires depth { trees_depth trees.now ≤ 255 }
    ensures bytes { IfOk result (λ counts. counts.0 ≡ flow_byte_count trees.now) }
    ensures events { IfOk result (λ counts. counts.1 ≡ text_events trees.now) }
{
    let text = flow_text(alloc, trees)?;
    match load_str(alloc, text.as_str(), Options::default()) {
        Ok(events) => Ok((text.as_str().len(), events.len())),
        Err(error) => {
            let is_no_memory = error.kind().number() == ErrorKind::NoMemory.number();
            prove!(is_no_memory);
            Err(NoMemory)
        }
    }
}

/// The line `documents D nodes N bytes B events E` of `size` trees that are made from a number, of their canonical flow
/// text, and of what `load_str` reads it as with default options.
///
/// # Errors
///
/// `NoMemory` alone.
#[tactic(auto, unfolding(crate::specs::TreeNumbers::selftest_line))]
pub fn selftest_line(alloc: Global, seed: u32, size: u32) -> Result<String, NoMemory>
    ensures { IfOk result (λ line. string_bytes line ≡ selftest_line seed size) }
{
    let trees = trees_from(alloc, seed, size)?;
    let nodes = node_count(&trees)?;
    let (bytes, events) = read_back(alloc, &trees)?;
    let line = format!(in alloc; "documents {size} nodes {nodes} bytes {bytes} events {events}\n")?;
    Ok(line)
}
