// A name that a row owns.
ghost use Rattle.std.specs.Prelude.{◌≡◌, ◌≤◌, length};

use std::hash::{Hash, Hasher};
use std::marker::Model;

/// The most bytes of a name.
pub(crate) const LONGEST: usize = 64;

/// A row's name, held in the row itself.
#[derive(Drop)]
pub struct Name {
    room: [u8; 64],
    len: u8,
}

impl Model for Name {
    ghost use Rattle.std.specs.Prelude.{ℕ, List, take, ◌≤◌};

    ghost Value = { List ℕ };

    ghost view = { λ n. take n.len n.room };

    ghost invariant = { λ n. n.len ≤ 64 };
}

impl Name {
    pub(crate) fn new(bytes: &[u8]) -> Name
        requires short { length bytes.now ≤ 64 }
        ensures bytes { result ≡ bytes.now }
    {
        let mut room = [0; 64];
        room[..bytes.len()].copy_from_slice(bytes);
        Name {
            room,
            len: bytes.len() as u8,
        }
    }

    /// The name's bytes, which need not be UTF-8.
    pub fn bytes(&self) -> &[u8]
        ensures bytes { result.now ≡ self.now }
        ensures short { length result.now ≤ 64 }
    {
        &self.room[..self.len as usize]
    }
}

impl PartialEq for Name {
    ghost use Rattle.std.specs.Str.{bytes_eq};
    ghost use Rattle.std.specs.Cmp.{partial_equiv_from_equiv};
    ghost use Rattle.std.specs.Cmp.Lexicographic.{nat_list_eq_equiv};

    ghost eq = { bytes_eq };

    ghost laws = { partial_equiv_from_equiv nat_list_eq_equiv };

    fn eq(&self, other: &Name) -> bool {
        self.bytes() == other.bytes()
    }
}

impl Eq for Name {
    ghost use Rattle.std.specs.Cmp.Lexicographic.{nat_list_eq_equiv};

    ghost laws = { nat_list_eq_equiv };
}

impl Hash for Name {
    ghost use Rattle.std.specs.Hash as fed;
    ghost use Rattle.std.proofs.Common.{ap};
    ghost use Rattle.std.specs.Cmp.Lexicographic.{bytes_decides};

    ghost hash_input = { fed.slice fed.u8 };

    ghost respects_eq = { λ a b h. ap (fed.slice fed.u8) ((bytes_decides a b).0 h) };

    fn hash<H: Hasher>(&self, state: &mut H) {
        self.bytes().hash(state);
    }
}
