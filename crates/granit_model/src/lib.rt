//! Trees: what canonical texts are written from, whether they fit, how deep they nest, and their canonical flow text.
#![tactic(auto)]

mod fitting;
mod nesting;
mod tree;
mod writing;

pub use fitting::fits;
pub use nesting::depth;
pub use tree::{PairList, Props, Tree, TreeList};
pub use writing::{flow_text, push_tag_bytes, push_tree};
