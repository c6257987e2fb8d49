ghost use Rattle.std.specs.Prelude.{◌≡◌, Bool};
ghost use Rattle.std.specs.List.{list_any};
ghost use Rattle.std.specs.Str.{bytes_eq};
ghost use Rattle.dd_definitions.specs.Distinct.{are_distinct};

use dd_names::Name;

/// Items of which a list may not hold two that are alike.
pub(crate) trait Distinct {
    ghost is_like: { Self → Self → Bool };

    /// Whether the two are alike.
    fn is_like(&self, other: &Self) -> bool
        ensures { result ≡ is_like self.now other.now };
}

impl Distinct for Name {
    ghost is_like = { bytes_eq };

    fn is_like(&self, other: &Name) -> bool {
        self == other
    }
}

pub(crate) fn are_distinct<T: Distinct>(items: &[T]) -> bool
    ensures { result ≡ are_distinct T.is_like items.now }
{
    let mut rest = items;
    while let [first, others @ ..] = rest {
        if has_like(first, others) {
            return false;
        }
        rest = others;
    }
    true
}

fn has_like<T: Distinct>(item: &T, others: &[T]) -> bool
    ensures { result ≡ list_any (T.is_like item.now) others.now }
{
    others.iter().any(|other| item.is_like(other))
}
