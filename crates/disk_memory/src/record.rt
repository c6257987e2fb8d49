// The record that a disk in memory keeps of its calls.
ghost use Rattle.std.specs.Prelude.{◌≡◌, ℕ, ◌∷◌, false, OnOk, OnErr, length};
ghost use Rattle.std.proofs.Common.{inl, inr};
ghost use Rattle.disk_trait.specs.Change.{made, removed, moved, wrote, cut, tried, settled};
ghost use Rattle.disk_trait.specs.Crash.{Event, Events};
ghost use Rattle.disk_memory.specs.Record.{change_of, event_when, noted, told, Notes, IsSame};

use disk_trait::PathText;
use std::alloc::{AllocError, Global};

/// What a call did.
#[derive(Drop)]
pub enum Did {
    Made(PathText),
    Removed(PathText),
    Moved(PathText, PathText),
    Wrote(PathText, u64, Vec<u8>),
    Cut(PathText, u64),
    /// A write of so many bytes at a place, that failed.
    TriedWrite(PathText, u64, usize),
    /// A cut to a size, that failed.
    TriedCut(PathText, u64),
    Settled(PathText),
}

/// A call of the record.
#[derive(Drop)]
pub struct Entry {
    /// The number of the call.
    pub moment: u64,
    /// The call failed, and a crash leaves the directory of before or after.
    pub undecided: bool,
    pub call: Did,
}

/// The calls that had an effect, in their order, or nothing where none are to be kept.
#[derive(Drop)]
pub struct Record {
    pub alloc: Global,
    pub keep: bool,
    pub entries: Vec<Entry>,
}

impl Record {
    /// Adds a call at the end.
    fn note(&mut self, moment: u64, undecided: bool, call: Did) -> Result<(), AllocError>
        ensures ok { OnOk result ((self.new.keep ≡ self.old.keep) × (told self.new ≡ (moment, event_when undecided (change_of call)) ∷ told self.old)) }
        ensures err { OnErr result (IsSame self.old self.new) }
    {
        self.entries.push(Entry {
            moment,
            undecided,
            call,
        })?;
        Ok(())
    }

    /// A file was made, or that failed.
    pub fn made(&mut self, moment: u64, undecided: bool, path: &str) -> Result<(), AllocError>
        ensures ok { OnOk result (Notes self.old self.new (moment, event_when undecided (made path.now))) }
        ensures err { OnErr result (IsSame self.old self.new) }
    {
        if !self.keep {
            return Ok(());
        }
        self.note(
            moment,
            undecided,
            Did::Made(PathText::of(self.alloc, path)?),
        )
    }

    /// A file was removed, or that failed.
    pub fn removed(&mut self, moment: u64, undecided: bool, path: &str) -> Result<(), AllocError>
        ensures ok { OnOk result (Notes self.old self.new (moment, event_when undecided (removed path.now))) }
        ensures err { OnErr result (IsSame self.old self.new) }
    {
        if !self.keep {
            return Ok(());
        }
        self.note(
            moment,
            undecided,
            Did::Removed(PathText::of(self.alloc, path)?),
        )
    }

    /// A file was given another path, or that failed.
    pub fn moved(
        &mut self,
        moment: u64,
        undecided: bool,
        from: &str,
        to: &str,
    ) -> Result<(), AllocError>
        ensures ok { OnOk result (Notes self.old self.new (moment, event_when undecided (moved from.now to.now))) }
        ensures err { OnErr result (IsSame self.old self.new) }
    {
        if !self.keep {
            return Ok(());
        }
        self.note(
            moment,
            undecided,
            Did::Moved(
                PathText::of(self.alloc, from)?,
                PathText::of(self.alloc, to)?,
            ),
        )
    }

    /// Bytes were written.
    pub fn wrote(
        &mut self,
        moment: u64,
        path: &str,
        at: u64,
        bytes: &[u8],
    ) -> Result<(), AllocError>
        ensures ok { OnOk result (Notes self.old self.new (moment, event_when false (wrote path.now at bytes.now))) }
        ensures err { OnErr result (IsSame self.old self.new) }
    {
        if !self.keep {
            return Ok(());
        }
        self.note(
            moment,
            false,
            Did::Wrote(
                PathText::of(self.alloc, path)?,
                at,
                bytes.to_vec(self.alloc)?,
            ),
        )
    }

    /// A file was cut.
    pub fn cut(&mut self, moment: u64, path: &str, size: u64) -> Result<(), AllocError>
        ensures ok { OnOk result (Notes self.old self.new (moment, event_when false (cut path.now size))) }
        ensures err { OnErr result (IsSame self.old self.new) }
    {
        if !self.keep {
            return Ok(());
        }
        self.note(
            moment,
            false,
            Did::Cut(PathText::of(self.alloc, path)?, size),
        )
    }

    /// A write of so many bytes failed.
    pub fn tried_write(
        &mut self,
        moment: u64,
        path: &str,
        at: u64,
        size: usize,
    ) -> Result<(), AllocError>
        ensures ok { OnOk result (Notes self.old self.new (moment, event_when false (tried path.now (inl (at, size))))) }
        ensures err { OnErr result (IsSame self.old self.new) }
    {
        if !self.keep {
            return Ok(());
        }
        self.note(
            moment,
            false,
            Did::TriedWrite(PathText::of(self.alloc, path)?, at, size),
        )
    }

    /// A cut failed.
    pub fn tried_cut(&mut self, moment: u64, path: &str, size: u64) -> Result<(), AllocError>
        ensures ok { OnOk result (Notes self.old self.new (moment, event_when false (tried path.now (inr size)))) }
        ensures err { OnErr result (IsSame self.old self.new) }
    {
        if !self.keep {
            return Ok(());
        }
        self.note(
            moment,
            false,
            Did::TriedCut(PathText::of(self.alloc, path)?, size),
        )
    }

    /// A file was synced.
    pub fn settled(&mut self, moment: u64, path: &str) -> Result<(), AllocError>
        ensures ok { OnOk result (Notes self.old self.new (moment, event_when false (settled path.now))) }
        ensures err { OnErr result (IsSame self.old self.new) }
    {
        if !self.keep {
            return Ok(());
        }
        self.note(moment, false, Did::Settled(PathText::of(self.alloc, path)?))
    }

    /// Takes the last note back.
    pub fn forget(&mut self)
        ensures { (event : ℕ × Event) (events : Events) → told self.old ≡ noted self.old.keep event events → (self.new.keep ≡ self.old.keep) × (told self.new ≡ events) }
    {
        if !self.keep {
            return;
        }
        let _ = self.entries.pop();
    }
}
