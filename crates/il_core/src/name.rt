ghost use Rattle.std.specs.Prelude.{◌≡◌, ◌≤◌, ◌++◌, ◌-◌, length, drop, replicate, Some, None, if◌then◌else◌, IsTrue, refl, nat_eq, bytes_eq};
ghost use Rattle.std.specs.List.{list_all};
ghost use Rattle.std.proofs.Common.{rules};
ghost use Rattle.std.specs.Ordering.{nat_cmp};
ghost use Rattle.std.specs.Hash as fed;
ghost use Rattle.std.specs.Cmp.{partial_equiv_from_equiv};
ghost use Rattle.std.specs.Cmp.Lexicographic.{pointwise, slice_cmp, nat_list_eq_equiv, nat_list_cmp_total, texts_ties, texts_po};
ghost use Rattle.std.specs.Cmp.Rules.{hashing};
ghost use Rattle.il_core.specs.Name.{is_name, is_name_part, starts_with_letter};

use std::cmp::Ordering;
use std::hash::{Hash, Hasher};
use std::marker::Model;

/// The greatest number of bytes of a name.
pub const NAME_LIMIT: usize = 40;

/// A name of the text language: a letter, then letters, digits and underscores, 40 bytes in all at most.
/// Contracts see it as the list of its bytes. Upper and lower case differ.
#[derive(Clone, Copy, Debug)]
pub struct Name {
    len: usize,
    bytes: [u8; 40],
}

impl Model for Name {
    ghost use Rattle.std.specs.Prelude.{◌≡◌, ℕ, ◌++◌, List, length, take, drop, replicate, IsTrue, refl};
    ghost use Rattle.il_core.specs.Name.{is_name};

    ghost Value = { List ℕ };

    ghost view = { λ n. take n.len n.bytes };

    ghost invariant = { λ n. IsTrue (is_name (take n.len n.bytes)) × (length (take n.len n.bytes) ≡ n.len)
        × (take n.len n.bytes ++ drop n.len (replicate 40 0) ≡ n.bytes) };

    ghost inverse = { λ l. record { len = length l; bytes = l ++ drop (length l) (replicate 40 0) } };

    ghost inverse_ok = { λ a h. Prim.rw (h.1, h.2) refl };
}

fn is_part(byte: u8) -> bool
    ensures { result ≡ is_name_part byte }
{
    byte.is_ascii_alphanumeric() || byte == b'_'
}

fn are_parts(bytes: &[u8]) -> bool
    ensures { result ≡ list_all is_name_part bytes.now }
{
    bytes.iter().all(|byte| is_part(*byte))
}

fn begins_with_letter(bytes: &[u8]) -> bool
    ensures { result ≡ starts_with_letter bytes.now }
{
    match bytes {
        [] => false,
        [first, ..] => first.is_ascii_alphabetic(),
    }
}

fn is_name_text(bytes: &[u8]) -> bool
    ensures { result ≡ is_name bytes.now }
{
    bytes.len() <= NAME_LIMIT && (begins_with_letter(bytes) && are_parts(bytes))
}

/// The bytes, with zeros behind them.
fn padded(bytes: &[u8]) -> [u8; 40]
    requires { length bytes.now ≤ 40 }
    ensures { result ≡ bytes.now ++ drop (length bytes.now) (replicate 40 0) }
{
    let mut padded = [0u8; 40];
    padded[..bytes.len()].copy_from_slice(bytes);
    padded
}

impl Name {
    /// The name with these bytes. It takes no memory. `None` comes exactly where the bytes are not a letter followed
    /// by letters, digits and underscores, 40 in all at most.
    pub fn new(bytes: &[u8]) -> Option<Name>
        ensures { result ≡ (if is_name bytes.now then Some bytes.now else None) }
    {
        if is_name_text(bytes) {
            Some(Name {
                len: bytes.len(),
                bytes: padded(bytes),
            })
        } else {
            None
        }
    }

    /// The bytes of the name. It takes no memory.
    pub fn as_bytes(&self) -> &[u8]
        ensures value { result.now ≡ self.now }
        ensures is_name { IsTrue (is_name self.now) }
    {
        &self.bytes[..self.len]
    }
}

impl PartialEq for Name {
    ghost eq = { pointwise nat_eq };

    ghost laws = { partial_equiv_from_equiv nat_list_eq_equiv };

    fn eq(&self, other: &Name) -> bool {
        self.as_bytes() == other.as_bytes()
    }
}

impl Eq for Name {
    ghost laws = { nat_list_eq_equiv };
}

impl PartialOrd for Name {
    ghost partial_cmp = { λ x y. Some (slice_cmp nat_cmp x y) };

    ghost laws = { texts_po };

    fn partial_cmp(&self, other: &Name) -> Option<Ordering> {
        Some(self.cmp(other))
    }
}

impl Ord for Name {
    ghost cmp = { slice_cmp nat_cmp };

    ghost total = { nat_list_cmp_total };

    ghost matches_partial_cmp = { λ x y. refl };

    ghost matches_eq = { texts_ties };

    fn cmp(&self, other: &Name) -> Ordering {
        self.as_bytes().cmp(other.as_bytes())
    }
}

impl Hash for Name {
    ghost hash_input = { fed.slice fed.u8 };

    ghost respects_eq = { Prim.search (hashing, rules) };

    fn hash<H: Hasher>(&self, state: &mut H) {
        self.as_bytes().hash(state);
    }
}
