//! The names of tags.
ghost use Rattle.std.specs.Prelude.{◌≡◌, IfOk, List, ℕ};
ghost use Rattle.std.proofs.Common.{rules};
ghost use Rattle.std.specs.Str.{bytes_eq};

use crate::OutOfMemory;
use smallvec::SmallVec;
use std::alloc::Global;
use std::marker::Model;

/// The name of a tag: bytes, which may be any. Up to 16 of them lie in the value itself, since a tree
/// has a name for each of its blocks and most names are short. Contracts compare it by its bytes.
#[derive(Drop, Debug)]
pub struct TagName {
    bytes: SmallVec<u8, 16>,
}

impl Model for TagName {
    ghost Value = { List ℕ };

    ghost view = { λ name. name.bytes.items };
}

impl TagName {
    /// The name with these bytes. It takes memory where it has more than 16.
    pub fn from_slice(alloc: Global, bytes: &[u8]) -> Result<TagName, OutOfMemory>
        ensures { IfOk result (λ name. name ≡ bytes.now) }
    {
        let bytes = SmallVec::from_slice(alloc, bytes)?;
        Ok(TagName { bytes })
    }

    /// The bytes.
    pub fn as_slice(&self) -> &[u8]
        ensures { result.now ≡ self.now }
    {
        self.bytes.as_slice()
    }

    /// A copy, by the allocator of this name. It fails where memory is refused.
    pub fn copy(&self) -> Result<TagName, OutOfMemory>
        ensures { IfOk result (λ copy. copy ≡ self.now) }
    {
        let bytes = SmallVec::from_slice(*self.bytes.allocator(), self.bytes.as_slice())?;
        Ok(TagName { bytes })
    }
}

impl PartialEq for TagName {
    ghost eq = { bytes_eq };

    ghost laws = { Prim.search rules };

    fn eq(&self, other: &TagName) -> bool {
        self.as_slice() == other.as_slice()
    }
}

impl Eq for TagName {
    ghost laws = { Prim.search rules };
}
