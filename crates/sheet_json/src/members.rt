//! Objects, member by member.
ghost use Rattle.std.specs.Prelude.{◌≡◌, IfOk, codes};
ghost use Rattle.serde_json.specs.Data.{no_members, object, put as with_member, string};
ghost use Rattle.serde_json.specs.View.{members_view, view};
ghost use Rattle.sheet_json.specs.Blocks.{tree_data};
ghost use Rattle.sheet_json.specs.Bytes.{bytes_data};
ghost use Rattle.sheet_json.specs.Objects.{count, shown_data};
ghost use Rattle.sheet_text.specs.InputLines.{unfolded};

use crate::blocks::block_value;
use crate::bytes::bytes_value;
use crate::events::shown_value;
use block_tree::Block;
use serde_json::{Map, Value, put};
use sheet_text::unfolded as unfold;
use std::alloc::{AllocError, Global};

/// The members of an object that is made, by their names. Each call that adds one takes them, so that nothing is left where
/// memory is refused.
#[derive(Drop)]
pub(crate) struct Members {
    alloc: Global,
    map: Map<String, Value>,
}

impl Members {
    /// None.
    pub(crate) fn new(alloc: Global) -> Members
        ensures { members_view result.map.entries ≡ no_members }
    {
        Members {
            alloc,
            map: Map::new(alloc),
        }
    }

    /// With this value.
    pub(crate) fn with(self, name: &str, value: Value) -> Result<Members, AllocError>
        ensures { IfOk result (λ more. members_view more.map.entries
            ≡ with_member name.now (view value) (members_view self.map.entries)) }
    {
        let Members { alloc, mut map } = self;
        put(&mut map, alloc, name, value)?;
        Ok(Members { alloc, map })
    }

    /// With this number.
    pub(crate) fn count(self, name: &str, number: u64) -> Result<Members, AllocError>
        ensures { IfOk result (λ more. members_view more.map.entries
            ≡ with_member name.now (count number) (members_view self.map.entries)) }
    {
        self.with(name, Value::from(number))
    }

    /// With this text.
    pub(crate) fn text(self, name: &str, text: &str) -> Result<Members, AllocError>
        ensures { IfOk result (λ more. members_view more.map.entries
            ≡ with_member name.now (string text.now) (members_view self.map.entries)) }
    {
        let value = Value::try_from_str(self.alloc, text)?;
        self.with(name, value)
    }

    /// With these bytes.
    pub(crate) fn bytes(self, name: &str, bytes: &[u8]) -> Result<Members, AllocError>
        ensures { IfOk result (λ more. members_view more.map.entries
            ≡ with_member name.now (bytes_data bytes.now) (members_view self.map.entries)) }
    {
        let value = bytes_value(self.alloc, bytes)?;
        self.with(name, value)
    }

    /// With the blocks of an output.
    pub(crate) fn blocks(self, name: &str, output: &Block) -> Result<Members, AllocError>
        ensures { IfOk result (λ more. members_view more.map.entries
            ≡ with_member name.now (tree_data output.now) (members_view self.map.entries)) }
    {
        let value = block_value(self.alloc, output)?;
        self.with(name, value)
    }

    /// With an output as a worksheet shows it.
    pub(crate) fn shown(self, name: &str, output: &Block) -> Result<Members, AllocError>
        ensures { IfOk result (λ more. members_view more.map.entries
            ≡ with_member name.now (shown_data output.now) (members_view self.map.entries)) }
    {
        let value = shown_value(self.alloc, output)?;
        self.with(name, value)
    }

    /// With the input of a field, which has a line feed for each U+2028.
    pub(crate) fn input(self, input: &str) -> Result<Members, AllocError>
        ensures { IfOk result (λ more. members_view more.map.entries
            ≡ with_member (codes "input") (string (unfolded input.now))
            (members_view self.map.entries)) }
    {
        let text = unfold(self.alloc, input)?;
        self.with("input", Value::from(text))
    }

    /// The object of these.
    pub(crate) fn done(self) -> Value
        ensures { view result ≡ object (members_view self.map.entries) }
    {
        let Members { alloc: _, map } = self;
        Value::Object(map)
    }

    /// The object of these, where this is its type.
    pub(crate) fn typed(self, name: &str) -> Result<Value, AllocError>
        ensures { IfOk result (λ value. view value
            ≡ object (with_member (codes "type") (string name.now)
            (members_view self.map.entries))) }
    {
        let members = self.text("type", name)?;
        Ok(members.done())
    }
}
