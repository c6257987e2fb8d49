ghost use Rattle.std.specs.Prelude.{◌≡◌, ◌==◌, ◌++◌, IfOk, OnOk, OnErr, Some, length, refl, string_bytes};
ghost use Rattle.std.specs.Str.{IsUtf8, bytes_eq};
ghost use Rattle.std.specs.Cmp.{partial_equiv_from_equiv};
ghost use Rattle.std.specs.Cmp.Lexicographic.{nat_list_cmp_total, nat_list_eq_equiv, texts_po, texts_ties};
ghost use Rattle.dd_names.specs.Names.{fold, name_cmp};

use crate::try_copy::TryCopy;
use std::alloc::{AllocError, Global};
use std::cmp::Ordering;
use std::marker::Model;

/// UTF-8 text, which contracts see as its bytes. Texts are compared byte by byte.
#[derive(Drop)]
pub struct Text {
    inner: String,
}

impl Model for Text {
    ghost use Rattle.std.specs.Prelude.{ℕ, List, string_bytes};

    ghost Value = { List ℕ };

    ghost view = { λ t. string_bytes t.inner };
}

impl Text {
    /// The text of a `String`. It takes no memory.
    pub fn from_string(inner: String) -> Text
        ensures { result ≡ string_bytes inner }
    {
        Text { inner }
    }

    /// A copy of a text.
    pub fn of(alloc: Global, text: &str) -> Result<Text, AllocError>
        ensures { IfOk result (λ t. t ≡ text.now) }
    {
        Ok(Text {
            inner: String::from_str(alloc, text)?,
        })
    }

    /// The text as a `&str`.
    pub fn as_str(&self) -> &str
        ensures text { result.now ≡ self.now }
        ensures utf8 { IsUtf8 result.now }
    {
        self.inner.as_str()
    }

    /// Its length in bytes.
    pub fn len(&self) -> usize
        ensures { result ≡ length self.now }
    {
        self.inner.len()
    }

    /// Whether it has no byte.
    pub fn is_empty(&self) -> bool
        ensures { result ≡ (length self.now == 0) }
    {
        self.inner.is_empty()
    }

    /// A copy with its ASCII letters in lower case.
    pub fn lowered(&self) -> Result<Text, AllocError>
        ensures { IfOk result (λ text. text ≡ fold self.now) }
    {
        let mut inner = String::from_str(*self.inner.allocator(), self.as_str())?;
        inner.make_ascii_lowercase();
        Ok(Text { inner })
    }

    /// Adds a text at the end. For want of memory the text stays as it is.
    pub fn push_str(&mut self, more: &str) -> Result<(), AllocError>
        ensures ok { OnOk result (self.new ≡ self.old ++ more.now) }
        ensures err { OnErr result (self.new ≡ self.old) }
    {
        self.inner.push_str(more)
    }
}

impl TryCopy for Text {
    fn copy(&self) -> Result<Text, AllocError> {
        Text::of(*self.inner.allocator(), self.as_str())
    }
}

impl PartialEq for Text {
    ghost eq = { bytes_eq };

    ghost laws = { partial_equiv_from_equiv nat_list_eq_equiv };

    fn eq(&self, other: &Text) -> bool {
        self.as_str() == other.as_str()
    }
}

impl Eq for Text {
    ghost laws = { nat_list_eq_equiv };
}

impl PartialOrd for Text {
    ghost partial_cmp = { λ a b. Some (name_cmp a b) };

    ghost laws = { texts_po };

    fn partial_cmp(&self, other: &Text) -> Option<Ordering> {
        Some(self.cmp(other))
    }
}

impl Ord for Text {
    ghost cmp = { name_cmp };

    ghost total = { nat_list_cmp_total };

    ghost matches_partial_cmp = { λ _ _. refl };

    ghost matches_eq = { texts_ties };

    fn cmp(&self, other: &Text) -> Ordering {
        self.as_str().cmp(other.as_str())
    }
}
