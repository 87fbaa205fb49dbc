//! Names of sessions.
ghost use Rattle.std.specs.Prelude.{◌≡◌, ◌↔◌, IsTrue, IsSome, IfSome};
ghost use Rattle.std.specs.List.{list_all};
ghost use Rattle.std.specs.Str.{bytes_eq};
ghost use Rattle.std.specs.Hash as fed;
ghost use Rattle.std.proofs.Common.{rules};
ghost use Rattle.std.specs.Cmp.Rules.{hashing};
ghost use Rattle.worksheet.specs.Names.{is_name as name_test};
ghost use Rattle.worksheet.specs.inside.Words.{is_name_byte as byte_test};

use crate::limits::LONGEST_NAME;
use std::hash::{Hash, Hasher};
use std::marker::Model;

/// The name of a session: 1 to 32 bytes, each an ASCII letter, a digit, `_` or `-`. Contracts see it
/// as the list of its bytes.
#[derive(Clone, Copy, Debug)]
pub struct Name {
    len: u8,
    bytes: [u8; LONGEST_NAME],
}

impl Model for Name {
    ghost use Rattle.std.specs.Prelude.{List, ℕ};

    ghost Value = { List ℕ };

    ghost use Rattle.worksheet.specs.inside.NameInside.{name_of, IsNameInside, inside_of, name_back};

    ghost view = { name_of };

    ghost invariant = { IsNameInside };

    ghost inverse = { inside_of };

    ghost inverse_ok = { name_back };
}

impl Name {
    /// The name with these bytes, where they are one.
    pub fn new(bytes: &[u8]) -> Option<Name>
        ensures valid { IsSome result ↔ IsTrue (name_test bytes.now) }
        ensures value { IfSome result (λ name. name ≡ bytes.now) }
    {
        if !is_name(bytes) {
            return None;
        }
        let mut all = [0; LONGEST_NAME];
        all[..bytes.len()].copy_from_slice(bytes);
        Some(Name {
            len: bytes.len() as u8,
            bytes: all,
        })
    }

    /// Its bytes.
    pub fn as_slice(&self) -> &[u8]
        ensures bytes { result.now ≡ self.now }
        ensures named { IsTrue (name_test self.now) }
    {
        &self.bytes[..self.len as usize]
    }
}

impl PartialEq for Name {
    ghost eq = { bytes_eq };

    ghost laws = { Prim.search rules };

    fn eq(&self, other: &Name) -> bool {
        self.as_slice() == other.as_slice()
    }
}

impl Eq for Name {
    ghost laws = { Prim.search rules };
}

impl Hash for Name {
    ghost hash_input = { fed.slice fed.u8 };

    ghost respects_eq = { Prim.search (hashing, rules) };

    fn hash<H: Hasher>(&self, state: &mut H) {
        self.as_slice().hash(state);
    }
}

/// Whether these bytes are a name.
pub fn is_name(bytes: &[u8]) -> bool
    ensures { result ≡ name_test bytes.now }
{
    !bytes.is_empty() && bytes.len() <= LONGEST_NAME && are_name_bytes(bytes)
}

fn are_name_bytes(bytes: &[u8]) -> bool
    ensures { result ≡ list_all byte_test bytes.now }
{
    bytes.iter().all(|byte| is_name_byte(*byte))
}

fn is_name_byte(byte: u8) -> bool
    ensures { result ≡ byte_test byte }
{
    matches!(byte, b'0'..=b'9' | b'A'..=b'Z' | b'a'..=b'z' | b'_' | b'-')
}
