//! The properties of a node (YAML 1.2.2, 6.9).
use granit_base::{Marker, Text};
use granit_event::Tag;

/// An anchor of a node: its number, its name, and where it stands.
#[derive(Drop)]
pub struct NodeAnchor<'input> {
    /// How many anchors were read up to it.
    pub number: usize,
    /// Its name.
    pub name: Text<'input>,
    /// Where it begins with its `&`.
    pub start: Marker,
    /// The place behind it.
    pub end: Marker,
}

/// A tag of a node, and where it stands.
#[derive(Drop)]
pub struct NodeTag {
    /// Its handle and what follows that, with what the handle stands for.
    pub tag: Tag,
    /// Where it begins with its `!`.
    pub start: Marker,
    /// The place behind it.
    pub end: Marker,
}

/// The properties of a node that must come (YAML 1.2.2, 6.9).
#[derive(Drop)]
pub struct NodeProperties<'input> {
    /// Its anchor.
    pub anchor: Option<NodeAnchor<'input>>,
    /// Its tag.
    pub tag: Option<NodeTag>,
    /// The place behind the last of them.
    pub end: Marker,
}
