// The record of a disk in memory, done again up to a moment.
ghost use Rattle.std.specs.Prelude.{◌≡◌, ℕ, ◌∷◌, List, nat_le, filter, OnOk, IfOk};
ghost use Rattle.disk_trait.specs.Change.{Directory};
ghost use Rattle.disk_trait.specs.Crash.{Events};
ghost use Rattle.disk_memory.specs.Record.{directory_of, event_of, events_of, with_event};
ghost use Rattle.disk_memory.specs.Replay.{Agrees};

use crate::again::{redo, tear};
use crate::files::{self, Files};
use crate::record::Entry;
use std::alloc::{AllocError, Global};

/// Does a call again on both; one that failed and is undecided is left undone.
fn once_again(
    alloc: Global,
    reads: &mut Files,
    torn: &mut Files,
    entry: &Entry,
    choice: u64,
) -> Result<(), AllocError>
    ensures { OnOk result ((start : Directory) (events : Events) → Agrees choice start events (directory_of reads.old) (directory_of torn.old) → Agrees choice start (event_of entry.now ∷ events) (directory_of reads.new) (directory_of torn.new)) }
{
    if entry.undecided {
        return Ok(());
    }
    tear(alloc, reads, torn, &entry.call, choice)?;
    redo(alloc, reads, &entry.call)?;
    Ok(())
}

/// The same for a call up to a moment; a later one is left out.
fn again_until(
    alloc: Global,
    reads: &mut Files,
    torn: &mut Files,
    entry: &Entry,
    last: u64,
    choice: u64,
) -> Result<(), AllocError>
    ensures { OnOk result ((start : Directory) (events : Events) → Agrees choice start events (directory_of reads.old) (directory_of torn.old) → Agrees choice start (with_event last entry.now events) (directory_of reads.new) (directory_of torn.new)) }
{
    if entry.moment > last {
        return Ok(());
    }
    once_again(alloc, reads, torn, entry, choice)
}

/// What the disk read after the calls up to a moment, and what a crash then leaves by the choice.
pub fn replay(
    alloc: Global,
    start: &Files,
    calls: &[Entry],
    last: u64,
    choice: u64,
) -> Result<(Files, Files), AllocError>
    ensures { IfOk result (λ pair. Agrees choice (directory_of start.now) (events_of (filter (λ e. nat_le e.moment last) calls.now)) (directory_of pair.0) (directory_of pair.1)) }
{
    let mut reads = files::copy(start)?;
    let mut torn = files::copy(start)?;
    'calls: for entry in calls {
        again_until(alloc, &mut reads, &mut torn, entry, last, choice)?;
    }
    Ok((reads, torn))
}
