//! Block trees as plain data.
use crate::{Octets, TagName};

/// What a block begins with: a format, written with ':', or a channel, written with '#'.
/// (TeXmacs manual, interfacing: formatted output; channels, prompts and default input.)
#[derive(Debug, Drop, PartialEq, Eq)]
pub struct Tag {
    /// Whether it is a channel.
    pub channel: bool,
    /// Its name, without the separator.
    pub name: TagName,
}

/// One of the things that stand in a block.
#[cycle(tree)]
#[derive(Debug, Drop)]
pub enum Item {
    /// The bytes of a text, without escapes.
    Text(Octets),
    /// A block in the block.
    Block(Node),
}

/// A tag and what follows it, in reading order. Any tree may be built; `Block` holds those that
/// are blocks.
#[cycle(tree)]
#[derive(Debug, Drop)]
pub struct Node {
    /// The format or the channel.
    pub tag: Tag,
    /// What stands in it.
    pub items: Vec<Item>,
}
