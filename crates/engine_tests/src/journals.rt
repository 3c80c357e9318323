//! A journal with a mark in a mark.

ghost use Rattle.std.specs.Prelude.{◌≡◌, ◌≤◌, []};

use khe_base::NoMemory;
use std::alloc::Global;
use std::test::Fail;
use undo_paths::Journal;

/// Whether two records stay while a mark behind them is open, and come back, the last one first, once it is closed.
fn gives_back(journal: &mut Journal<u8>) -> bool
    requires spare { 2 ≤ journal.old.spare }
    requires marks { journal.old.since ≡ [] }
{
    let Ok(()) = journal.mark() else {
        return false;
    };
    journal.push(1);
    journal.push(2);
    if journal.mark().is_err() || journal.pop().is_some() || journal.unmark().is_err() {
        return false;
    }
    journal.pop() == Some(2) && journal.pop() == Some(1) && journal.pop().is_none()
}

/// Whether a journal with room for two records does so.
fn is_a_stack(alloc: Global) -> Result<bool, NoMemory> {
    let mut journal = Journal::open(alloc)?;
    journal.reserve(2)?;
    Ok(gives_back(&mut journal))
}

#[test]
fn records_come_back_behind_their_marks(rt: HostRuntime) -> Result<(), Fail> {
    assert!(rt; is_a_stack(rt.alloc())?);
    Ok(())
}
