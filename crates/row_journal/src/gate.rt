// One gate, and what stands behind it.
ghost use Rattle.std.specs.Prelude.{◌≡◌, ◌<◌, ◌^◌, ◌++◌, ℕ, List, length, MatchOption};
ghost use Rattle.std.specs.Int.{w64, to_be_bytes};
ghost use Rattle.row_journal.specs.Gates.{IsAsRead};
ghost use Rattle.row_journal.specs.Opening.{IsOpen};

/// The gate byte behind which a batch stands.
pub const OPEN: u8 = 1;

/// What bytes begin with.
#[derive(Clone, Copy)]
pub enum Gate<'a> {
    /// A gate that ends the journal.
    Closed,
    /// An open gate, as many bytes as the length behind it says, and what follows them.
    Open { content: &'a [u8], more: &'a [u8] },
    /// No gate, or an open one with too few bytes behind it.
    Missing,
}

/// The bytes behind a length of eight bytes, as many as it says, and what follows them; None where there are fewer.
fn split_sized(bytes: &[u8]) -> Option<(&[u8], &[u8])>
    ensures { MatchOption result ((content more : List ℕ) → length content < 2 ^ 64 → bytes.now ≡ (to_be_bytes w64 (length content) ++ content) ++ more → ⊥)
        (λ parts. (length parts.0.now < 2 ^ 64) × (bytes.now ≡ (to_be_bytes w64 (length parts.0.now) ++ parts.0.now) ++ parts.1.now)) }
{
    if bytes.len() < 8 {
        return None;
    }
    let (front, rest) = bytes.split_at(8);
    let size = u64::from_be_bytes([
        front[0], front[1], front[2], front[3], front[4], front[5], front[6], front[7],
    ]) as usize;
    if rest.len() < size {
        return None;
    }
    Some(rest.split_at(size))
}

/// The gate that bytes begin with.
pub fn gate_of(bytes: &[u8]) -> Gate<'_>
    ensures { IsAsRead result bytes.now }
{
    match bytes {
        [] => Gate::Missing,
        [OPEN, after @ ..] => match split_sized(after) {
            None => Gate::Missing,
            Some((content, more)) => Gate::Open { content, more },
        },
        [_, ..] => Gate::Closed,
    }
}
