//! How the devices of a run behave.

ghost use Rattle.std.specs.Prelude.{◌≤◌};

/// A shelf and a sink, by what they give and take and where they fail.
#[derive(Clone, Copy)]
pub struct Devices {
    /// The greatest number of bytes of a read, at least 1.
    pub read: u32,
    /// The greatest number of bytes of a write, at least 1.
    pub write: u32,
    /// How many bytes the sink takes in all.
    pub room: u64,
    /// The number of the call of the shelf that fails, counted from 1, or 0.
    pub failing_read: u64,
    /// The number of the write that fails, counted from 1, or 0.
    pub failing_write: u64,
    ghost reads: { 1 ≤ read },
    ghost writes: { 1 ≤ write },
}

/// Devices that fail at nothing.
pub const GOOD: Devices = Devices {
    read: 1_000_000,
    write: 1_000_000,
    room: 1_000_000_000,
    failing_read: 0,
    failing_write: 0,
};

/// Devices of which this call of the shelf and this write of the sink fail.
pub fn failing(read: u64, write: u64) -> Devices {
    Devices {
        read: 1_000_000,
        write: 1_000_000,
        room: 1_000_000_000,
        failing_read: read,
        failing_write: write,
    }
}
