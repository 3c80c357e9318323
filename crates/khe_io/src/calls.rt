//! Which calls of a device in memory fail, and how many were made.

ghost use Rattle.std.specs.Prelude.{◌≡◌, ◌+◌, ◌-◌, ◌^◌, ◌≤◌, min, is_err, IsTrue, IsOk, OnOk, OnErr};
ghost use Rattle.khe_io.specs.Faults.{Rose};
ghost use Rattle.khe_io.specs.Calls.{fails_next, faults_after, none_to_come, one_more};

use crate::Failed;
use crate::faults::count_fault;
use khe_base::Seq;

/// The calls of a device in memory: which of them fail, how many were made, and how many faults
/// were counted. The calls are numbered from 1; both counts stop at the greatest value.
#[derive(Drop)]
pub(crate) struct Calls {
    failing: Seq<u64>,
    made: u64,
    faults: u64,
}

impl Calls {
    /// No call was made yet. It takes no memory.
    pub(crate) fn new(failing: Seq<u64>) -> Calls
        ensures { result ≡ record { failing = failing; made = 0; faults = 0 } }
    {
        Calls {
            failing,
            made: 0,
            faults: 0,
        }
    }

    /// Counts a call. It fails, and counts a fault, where the call's number is listed.
    pub(crate) fn make(&mut self) -> Result<(), Failed>
        ensures listed { is_err result ≡ fails_next self.old.failing self.old.made }
        ensures failing { self.new.failing ≡ self.old.failing }
        ensures made { self.new.made ≡ min (self.old.made + 1) (2 ^ 64 - 1) }
        ensures ok { OnOk result (self.new.faults ≡ self.old.faults) }
        ensures failed { OnErr result (Rose self.old.faults self.new.faults) }
        ensures counted { self.old.faults ≤ self.new.faults }
        ensures faults { self.new.faults ≡ faults_after (fails_next self.old.failing self.old.made) self.old.faults }
        ensures sound { IsTrue (none_to_come self.old.failing self.old.made) → IsOk result }
        ensures stays_sound { IsTrue (none_to_come self.old.failing self.old.made) → IsTrue (none_to_come self.new.failing self.new.made) }
    {
        let Some(number) = self.made.checked_add(1) else {
            return Ok(());
        };
        self.made = number;
        if self.failing.as_slice().contains(&number) {
            return Err(self.fault());
        }
        Ok(())
    }

    /// Counts a fault.
    pub(crate) fn fault(&mut self) -> Failed
        ensures failing { self.new.failing ≡ self.old.failing }
        ensures made { self.new.made ≡ self.old.made }
        ensures rose { Rose self.old.faults self.new.faults }
        ensures one_more { self.new.faults ≡ one_more self.old.faults }
        ensures counted { self.old.faults ≤ self.new.faults }
    {
        count_fault(&mut self.faults)
    }
}
