// Which calls of a disk in memory fail.
ghost use Rattle.std.specs.Prelude.{◌≡◌, ◌||◌, ◌&&◌, ◌==◌};
ghost use Rattle.std.specs.Str.{bytes_eq};
ghost use Rattle.disk_memory.specs.Fail.{same_call, is_on, names, counted};

use disk_trait::PathText;

/// The calls of a disk that may fail.
#[derive(Clone, Copy, Debug)]
pub enum Call {
    List,
    Size,
    ReadAt,
    Create,
    Remove,
    Rename,
    WriteAt,
    Cut,
    Sync,
}

/// A call that fails.
#[derive(Drop)]
pub enum FailAt {
    /// The call with this number, counted from 1 over all calls that may fail.
    Call(u64),
    /// The call with this number, counted from 1 over the calls of this kind that name this path. A rename names both of its
    /// paths, and each `list` counts, whatever the path.
    On {
        call: Call,
        path: PathText,
        nth: u32,
    },
}

/// Whether two calls are of one kind.
pub fn is_same(call: Call, other: Call) -> bool
    ensures { result ≡ same_call call other }
{
    match call {
        Call::List => matches!(other, Call::List),
        Call::Size => matches!(other, Call::Size),
        Call::ReadAt => matches!(other, Call::ReadAt),
        Call::Create => matches!(other, Call::Create),
        Call::Remove => matches!(other, Call::Remove),
        Call::Rename => matches!(other, Call::Rename),
        Call::WriteAt => matches!(other, Call::WriteAt),
        Call::Cut => matches!(other, Call::Cut),
        Call::Sync => matches!(other, Call::Sync),
    }
}

/// Whether a call that names these paths is of this kind and on this path.
fn counts(wanted: Call, path: &str, call: Call, from: &str, to: &str) -> bool
    ensures { result ≡ is_on wanted path.now call from.now to.now }
{
    if !is_same(wanted, call) {
        return false;
    }
    is_same(call, Call::List) || path == from || path == to
}

/// Whether a call, which makes that moment, is the one that fails.
pub fn is_named(at: &FailAt, moment: u64, call: Call, from: &str, to: &str) -> bool
    ensures { result ≡ names at.now moment call from.now to.now }
{
    match at {
        FailAt::Call(number) => *number == moment,
        FailAt::On {
            call: wanted,
            path,
            nth,
        } => counts(*wanted, path.as_str(), call, from, to) && *nth == 1,
    }
}

/// Counts a call.
pub fn count(at: &mut FailAt, call: Call, from: &str, to: &str)
    ensures { at.new ≡ counted at.old call from.now to.now }
{
    if let FailAt::On {
        call: wanted,
        path,
        nth,
    } = at
    {
        if counts(*wanted, path.as_str(), call, from, to) {
            *nth = nth.saturating_sub(1);
        }
    }
}
