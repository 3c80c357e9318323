//! A sink in memory, which can be told to fail.

ghost use Rattle.std.specs.Prelude.{◌≡◌, ◌+◌, ◌≤◌, ◌++◌, length, take, vec_len, vec_capacity};

use crate::calls::Calls;
use crate::{Failed, Sink};
use khe_base::{NoMemory, Seq};
use std::alloc::Global;

/// A sink that keeps what it takes in memory. It takes at most a given number of bytes in all and in each
/// write, and fails at the calls that it is told to fail at. It tells everything.
#[derive(Drop)]
pub struct MemorySink {
    taken: Vec<u8>,
    room: usize,
    piece: u32,
    calls: Calls,
    ghost some: { 1 ≤ piece },
    ghost ample: { room ≤ vec_capacity taken },
}

impl MemorySink {
    ghost use Rattle.std.specs.Prelude.{[], Some, IfOk};
    ghost use Rattle.khe_io.specs.MemorySink.{state_of};

    /// A sink with room for the given number of bytes, all of which is taken from memory here. Nothing was
    /// taken yet, and no fault is counted. A write takes at most `piece` bytes. `failing` has the numbers of
    /// the calls that fail: the calls of `write` are counted from 1.
    ///
    /// A write to a full sink is a fault, and a write that is longer than the room left takes what fits. No
    /// later call takes memory, and each goes through the numbers of `failing`.
    pub fn new(
        alloc: Global,
        room: u64,
        piece: u32,
        failing: Seq<u64>,
    ) -> Result<MemorySink, NoMemory>
        requires { 1 ≤ piece }
        ensures taken { IfOk result (λ sink. ⟦<MemorySink as Sink>⟧.taken sink ≡ Some []) }
        ensures faults { IfOk result (λ sink. ⟦<MemorySink as Sink>⟧.faults sink ≡ 0) }
        ensures state { IfOk result (λ sink. state_of sink ≡ record { taken = []; room = room; piece = piece; failing = failing; made = 0; faults = 0 }) }
    {
        let room = room as usize;
        Ok(MemorySink {
            taken: Vec::with_capacity(alloc, room)?,
            room,
            piece,
            calls: Calls::new(failing),
        })
    }

    /// All bytes that the sink took, in order.
    pub fn taken(&self) -> &[u8]
        ensures { ⟦<MemorySink as Sink>⟧.taken self.now ≡ Some result.now }
    {
        self.taken.as_slice()
    }
}

/// Adds the first bytes of a piece to what was taken, for which there is room.
fn take_front(taken: &mut Vec<u8>, piece: &[u8], count: usize)
    requires within { count ≤ length piece.now }
    requires room { vec_len taken.old + count ≤ vec_capacity taken.old }
    ensures taken { taken.new.items ≡ taken.old.items ++ take count piece.now }
    ensures room { vec_capacity taken.old ≤ vec_capacity taken.new }
{
    let Ok(()) = taken.extend_from_slice(&piece[..count]) else {
        unreachable!()
    };
}

impl Sink for MemorySink {
    ghost use Rattle.std.specs.Prelude.{◌<◌, Some, is_err, IfOk, OnErr};
    ghost use Rattle.khe_io.specs.Faults.{Rose};
    ghost use Rattle.khe_io.specs.MemorySink.{after_write, fails_to_take, fitting, state_of};

    ghost taken = { λ s. Some s.taken.items };

    ghost faults = { λ s. s.calls.faults };

    /// It fails where its call is listed and where no byte fits. Else it takes as many bytes as there
    /// are, as a write takes at most and as still fit. The sink is then as its definition says.
    fn write(&mut self, piece: &[u8]) -> Result<usize, Failed>
        requires piece { 0 < length piece.now }
        ensures fails { is_err result ≡ fails_to_take (state_of self.old) (length piece.now) }
        ensures count { IfOk result (λ n. n ≡ fitting (state_of self.old) (length piece.now)) }
        ensures after { state_of self.new ≡ after_write (state_of self.old) piece.now }
        ensures failed { OnErr result (Rose self.old.calls.faults self.new.calls.faults) }
        ensures counted { self.old.calls.faults ≤ self.new.calls.faults }
    {
        self.calls.make()?;
        let left = self.room.saturating_sub(self.taken.len());
        let count = piece.len().min(self.piece as usize).min(left);
        if count == 0 {
            return Err(self.calls.fault());
        }
        // The room was taken when the sink was made, so this takes no memory.
        take_front(&mut self.taken, piece, count);
        Ok(count)
    }
}
