// The counts of a disk in memory, and which of its calls fail.
ghost use Rattle.std.specs.Prelude.{◌≡◌, ◌+◌, ◌-◌, ◌^◌, ◌<◌, ◌≤◌, ◌||◌, true, false, drop, map};
ghost use Rattle.disk_trait.specs.Calls.{last_moment, next_count};
ghost use Rattle.disk_memory.specs.Fail.{Begins, listed, passed};

use crate::fail::{Call, FailAt, count, is_named};

/// What becomes of a call.
#[derive(Clone, Copy)]
pub enum Turn {
    /// It fails, since the disk has come to its last moment.
    Over,
    /// It fails, since it is one of those that shall.
    Listed,
    /// It is done.
    Open,
}

/// How many calls there were, how many faults, how often the disk could not grow, and which calls are to fail.
#[derive(Drop)]
pub struct Clock {
    pub moment: u64,
    pub faults: u64,
    pub lacked: u64,
    pub fail: Vec<FailAt>,
}

impl Clock {
    /// Begins a call that names these paths. A call that fails here is counted as a fault.
    pub fn begin(&mut self, call: Call, from: &str, to: &str) -> Turn
        ensures lacked { self.new.lacked ≡ self.old.lacked }
        ensures moment { self.new.moment ≡ next_count self.old.moment }
        ensures onward { self.old.moment ≤ self.new.moment }
        ensures later { self.old.faults ≤ self.new.faults }
        ensures turn { Begins self.old self.new call from.now to.now result }
    {
        if self.moment == u64::MAX {
            self.faults = self.faults.saturating_add(1);
            return Turn::Over;
        }
        self.moment += 1;
        let is_listed = is_listed(&self.fail, self.moment, call, from, to);
        count_all(&mut self.fail, call, from, to);
        if is_listed {
            self.faults = self.faults.saturating_add(1);
            return Turn::Listed;
        }
        Turn::Open
    }

    /// Counts a fault.
    pub fn fault(&mut self)
        ensures moment { self.new.moment ≡ self.old.moment }
        ensures lacked { self.new.lacked ≡ self.old.lacked }
        ensures faults { self.new.faults ≡ next_count self.old.faults }
        ensures later { self.old.faults ≤ self.new.faults }
        ensures fail { self.new.fail.items ≡ self.old.fail.items }
    {
        self.faults = self.faults.saturating_add(1);
    }

    /// Counts a want of memory.
    pub fn lack(&mut self)
        ensures moment { self.new.moment ≡ self.old.moment }
        ensures lacked { self.new.lacked ≡ next_count self.old.lacked }
        ensures faults { self.new.faults ≡ self.old.faults }
        ensures fail { self.new.fail.items ≡ self.old.fail.items }
    {
        self.lacked = self.lacked.saturating_add(1);
    }
}

/// Whether a call is one of those that fail.
fn is_listed(fail: &[FailAt], moment: u64, call: Call, from: &str, to: &str) -> bool
    ensures { result ≡ listed moment call from.now to.now fail.now }
{
    fail.iter().any(|at| is_named(at, moment, call, from, to))
}

/// Counts a call in each of these.
fn count_all(fail: &mut [FailAt], call: Call, from: &str, to: &str)
    ensures { fail.new ≡ passed call from.now to.now fail.old }
{
    'points: for at in fail.iter_mut() {
        count(at, call, from, to);
    }
}
