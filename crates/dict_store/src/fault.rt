/// Why a call of the store wasn't done.
#[derive(Clone, Copy, Debug, PartialEq, Eq)]
pub enum StoreFault {
    /// The disk failed, and a batch that was to be committed doesn't count; with the disk's count of faults.
    Fault { count: u64 },
    /// The disk failed later, so a crash may leave the batch or not; with the disk's count of faults.
    Unsure { count: u64 },
    /// An earlier call failed so that the store doesn't go on; with the count of faults that it answered.
    Halted { count: u64 },
    /// There was no memory, and nothing was done.
    Memory,
}

/// No number was left to draw.
#[derive(Clone, Copy, Debug, PartialEq, Eq)]
pub struct NoSpaceId {
    /// The next number, which can't be drawn.
    pub next: u32,
}
