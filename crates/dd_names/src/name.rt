ghost use Rattle.std.specs.Prelude.{◌≡◌, ◌⊎◌, ◌==◌, IfOk, None, Some, MatchResult, position, not, refl};
ghost use Rattle.std.proofs.Common.{rules};
ghost use Rattle.std.specs.Hash as fed;
ghost use Rattle.std.specs.Cmp.Rules.{hashing};
ghost use Rattle.std.specs.Str.{bytes_eq};
ghost use Rattle.std.specs.Cmp.{partial_equiv_from_equiv};
ghost use Rattle.std.specs.Cmp.Lexicographic.{nat_list_cmp_total, nat_list_eq_equiv, texts_po, texts_ties};
ghost use Rattle.dd_names.specs.Names.{IsName, name_fault, same, is_name_byte, fold, name_cmp};

use crate::digits::are_digits;
use crate::text::Text;
use crate::try_copy::TryCopy;
use std::alloc::{AllocError, Global};
use std::cmp::Ordering;
use std::hash::{Hash, Hasher};
use std::marker::Model;

/// The greatest number of characters of a name.
const MAX_CHARACTERS: usize = 64;

/// Why a text is no name.
#[derive(Clone, Copy, Debug, PartialEq, Eq)]
pub enum NameFault {
    /// There is no character.
    Empty,
    /// The first character that no name has, at its byte.
    BadCharacter { at: usize },
    /// Outside quotes, digits alone are a number.
    DigitsOnly,
    /// There are more than 64 characters.
    TooLong,
    /// There was no memory for the name.
    Memory,
}

/// A name of 1 to 64 characters, as it was written: letters, digits and `_`. Contracts see its bytes, and names are
/// compared byte by byte; `same` takes no notice of case (MySQL 8.0 Reference Manual, 9.2 and 9.2.3).
#[derive(Drop)]
pub struct Name {
    text: Text,
}

impl Model for Name {
    ghost use Rattle.std.specs.Prelude.{ℕ, List};
    ghost use Rattle.dd_names.specs.Names.{IsName};

    ghost Value = { List ℕ };

    ghost view = { λ n. n.text };

    ghost invariant = { λ n. IsName n.text };
}

impl Name {
    /// Reads a name that stood in quotes or didn't. The fault is the first in the order of `NameFault`.
    #[tactic(auto, using(crate::proofs::Reading::name_from_none))]
    pub fn read(alloc: Global, text: &str, quoted: bool) -> Result<Name, NameFault>
        ensures { MatchResult result
            (λ name. (name ≡ text.now) × (name_fault text.now quoted ≡ None))
            (λ fault. (fault ≡ NameFault.Memory) ⊎ (name_fault text.now quoted ≡ Some fault)) }
    {
        if let Some(fault) = fault_of(text.as_bytes(), quoted) {
            return Err(fault);
        }
        let Ok(text) = Text::of(alloc, text) else {
            return Err(NameFault::Memory);
        };
        Ok(Name { text })
    }

    /// The name as it was written.
    pub fn as_str(&self) -> &str
        ensures text { result.now ≡ self.now }
        ensures name { IsName result.now }
    {
        self.text.as_str()
    }

    /// The name's text, as a text of its own.
    pub fn to_text(&self) -> Result<Text, AllocError>
        ensures { IfOk result (λ text. text ≡ self.now) }
    {
        self.text.copy()
    }

    /// The name with its ASCII letters in lower case.
    pub fn fold(&self) -> Result<Name, AllocError>
        ensures { IfOk result (λ name. name ≡ fold self.now) }
    {
        Ok(Name {
            text: self.text.lowered()?,
        })
    }

    /// Whether the two differ in the case of ASCII letters at most.
    pub fn same(&self, other: &Name) -> bool
        ensures { result ≡ same self.now other.now }
    {
        self.as_str().eq_ignore_ascii_case(other.as_str())
    }
}

impl TryCopy for Name {
    fn copy(&self) -> Result<Name, AllocError> {
        Ok(Name {
            text: self.text.copy()?,
        })
    }
}

impl PartialEq for Name {
    ghost eq = { bytes_eq };

    ghost laws = { partial_equiv_from_equiv nat_list_eq_equiv };

    fn eq(&self, other: &Name) -> bool {
        self.as_str() == other.as_str()
    }
}

impl Eq for Name {
    ghost laws = { nat_list_eq_equiv };
}

impl PartialOrd for Name {
    ghost partial_cmp = { λ a b. Some (name_cmp a b) };

    ghost laws = { texts_po };

    fn partial_cmp(&self, other: &Name) -> Option<Ordering> {
        Some(self.cmp(other))
    }
}

impl Ord for Name {
    ghost cmp = { name_cmp };

    ghost total = { nat_list_cmp_total };

    ghost matches_partial_cmp = { λ _ _. refl };

    ghost matches_eq = { texts_ties };

    fn cmp(&self, other: &Name) -> Ordering {
        self.as_str().cmp(other.as_str())
    }
}

impl Hash for Name {
    ghost hash_input = { λ name. fed.str name };

    ghost respects_eq = { Prim.search (hashing, rules) };

    fn hash<H: Hasher>(&self, state: &mut H) {
        self.as_str().hash(state);
    }
}

fn fault_of(bytes: &[u8], quoted: bool) -> Option<NameFault>
    ensures { result ≡ name_fault bytes.now quoted }
{
    if bytes.is_empty() {
        return Some(NameFault::Empty);
    }
    if let Some(at) = first_bad(bytes) {
        return Some(NameFault::BadCharacter { at });
    }
    if !quoted && are_digits(bytes) {
        return Some(NameFault::DigitsOnly);
    }
    if bytes.len() > MAX_CHARACTERS {
        return Some(NameFault::TooLong);
    }
    None
}

fn first_bad(bytes: &[u8]) -> Option<usize>
    ensures { result ≡ position (λ c. not (is_name_byte c)) bytes.now }
{
    bytes.iter().position(|c| !is_name_byte(*c))
}

fn is_name_byte(c: u8) -> bool
    ensures { result ≡ is_name_byte c }
{
    c.is_ascii_alphanumeric() || c == b'_'
}
