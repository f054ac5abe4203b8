//! Names of contours.
ghost use Rattle.std.specs.Prelude.{◌≡◌, ◌↔◌, ◌≤◌, List, ℕ, length, IsSome, IfSome, true, nat_eq, IsUtf8};
ghost use Rattle.std.specs.Cmp.{partial_equiv_from_equiv};
ghost use Rattle.std.specs.Cmp.Lexicographic.{pointwise, nat_list_eq_equiv};
ghost use Rattle.std.specs.List.{list_all};
ghost use Rattle.std.specs.Cmp.Rules.{hashing};
ghost use Rattle.std.specs.Hash as fed;
ghost use Rattle.std.proofs.Common.{rules};
ghost use Rattle.fku_types.specs.Names.{is_name, is_name_byte};

use crate::limits::MAX_NAME_BYTES;
use arrayvec::ArrayString;
use std::hash::{Hash, Hasher};
use std::marker::Model;
use std::str;

/// 1 to `MAX_NAME_BYTES` bytes, each an ASCII letter, an ASCII digit, `_`, `-` or `.`. Contracts see the bytes.
#[derive(Drop)]
pub struct Name {
    text: ArrayString<MAX_NAME_BYTES>,
}

impl Model for Name {
    ghost Value = { List ℕ };

    ghost view = { λ n. n.text.bytes };

    ghost invariant = { λ n. is_name n.text.bytes ≡ true };
}

impl Name {
    /// The name of these bytes; none unless they are 1 to `MAX_NAME_BYTES` ASCII letters, digits, `_`, `-` and `.`.
    pub fn of(text: &[u8]) -> Option<Name>
        ensures rule { IsSome result ↔ (is_name text.now ≡ true) }
        ensures bytes { IfSome result (λ n. n ≡ text.now) }
    {
        if !is_name(text) {
            return None;
        }
        let text = str::from_utf8(text).ok()?;
        let text = ArrayString::from(text).ok()?;
        Some(Name { text })
    }

    /// An equal name.
    pub fn copy(&self) -> Name
        ensures { result ≡ self.now }
    {
        Name { text: self.text }
    }

    /// The bytes of the name, 1 to `MAX_NAME_BYTES`.
    pub fn as_bytes(&self) -> &[u8]
        ensures bytes { result.now ≡ self.now }
        ensures rule { is_name result.now ≡ true }
        ensures short { (1 ≤ length result.now) × (length result.now ≤ MAX_NAME_BYTES) }
    {
        self.text.as_str().as_bytes()
    }
}

#[tactic(auto, using(crate::proofs::NameLemmas::name_is_text))]
fn is_name(text: &[u8]) -> bool
    ensures rule { result ≡ is_name text.now }
    ensures text { result ≡ true → IsUtf8 text.now }
{
    1 <= text.len() && text.len() <= MAX_NAME_BYTES && all_name_bytes(text)
}

fn all_name_bytes(text: &[u8]) -> bool
    ensures { result ≡ list_all is_name_byte text.now }
{
    text.iter().all(|b| is_name_byte(*b))
}

fn is_name_byte(b: u8) -> bool
    ensures { result ≡ is_name_byte b }
{
    b.is_ascii_alphanumeric() || b == b'_' || b == b'-' || b == b'.'
}

impl PartialEq for Name {
    ghost eq = { pointwise nat_eq };

    ghost laws = { partial_equiv_from_equiv nat_list_eq_equiv };

    fn eq(&self, other: &Self) -> bool {
        self.as_bytes() == other.as_bytes()
    }
}

impl Eq for Name {
    ghost laws = { nat_list_eq_equiv };
}

impl Hash for Name {
    ghost hash_input = { λ s. fed.str s };

    ghost respects_eq = { Prim.search (hashing, rules) };

    fn hash<H: Hasher>(&self, state: &mut H) {
        self.text.as_str().hash(state);
    }
}
