//! Archives in their canonical spelling.

ghost use Rattle.std.specs.Prelude.{◌≡◌, ◌≤◌, ◌⊎◌, Some, IsTrue};
ghost use Rattle.khe_io.specs.Shelf.{IsMissing};
ghost use Rattle.khe_app.specs.Ends.{IsEnd};
ghost use Rattle.command_words.specs.Words.{checking};

use khe_io::{Shelf, Sink};
use reading_commands::{Status, Stop, answer_to, write_spelling};
use std::alloc::Global;
use std::mem::ManuallyDrop;

/// Writes the archive under a name in its canonical spelling, or the line that refuses it. The archive stays in memory, as
/// for a report: a run is the end of a process.
#[tactic(auto, using(crate::proofs::EndsLemmas::end_starved, crate::proofs::EndsLemmas::end_stopped, crate::proofs::CheckEnds::check_lacks))]
pub(crate) fn check<S: Shelf, K: Sink>(
    alloc: Global,
    shelf: &mut S,
    out: &mut K,
    name: &str,
) -> Status
    ensures end { IsEnd (Some (checking name.now)) (S.holdings shelf.old) (S.is_sound shelf.old) (S.faults shelf.old) (S.faults shelf.new) (K.taken out.old) (K.taken out.new) (K.faults out.old) (K.faults out.new) result.0 }
    ensures status { result.0 ≡ 2 → ⊥ }
    ensures absent { IsTrue (S.is_sound shelf.old) → IsMissing (S.holdings shelf.old) name.now → result.0 ≡ 4 }
    ensures holdings { S.holdings shelf.new ≡ S.holdings shelf.old }
    ensures read_fault_ends { (result.0 ≡ 4) ⊎ (S.faults shelf.new ≡ S.faults shelf.old) }
    ensures shelf_faults { S.faults shelf.old ≤ S.faults shelf.new }
    ensures sound { IsTrue (S.is_sound shelf.old) → IsTrue (S.is_sound shelf.new) }
    ensures write_fault_ends { (result.0 ≡ 5) ⊎ (K.faults out.new ≡ K.faults out.old) }
    ensures sink_faults { K.faults out.old ≤ K.faults out.new }
{
    match answer_to(alloc, shelf, name) {
        Ok(answer) => {
            let status = write_spelling(alloc, out, &answer);
            let _left = ManuallyDrop::new(answer);
            status
        }
        Err(Stop::ReadFault) => Status(4),
        Err(Stop::NoMemory) => Status(6),
    }
}
