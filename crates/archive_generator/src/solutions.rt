//! The solutions of a job.

ghost use Rattle.std.specs.Prelude.{◌≡◌, ◌++◌, IfOk, OnOk, IsTrue, map};
ghost use Rattle.khe_base.specs.Text.{is_ascii};
ghost use Rattle.archive_generator.specs.Solutions as spec;

use crate::drawing::DrawnEntry;
use crate::lists::roomy;
use crate::names::{name, to, to_numbered, to_time};
use khe_base::{NoMemory, Seq, both};
use std::alloc::Global;
use xhstt_shape::{Entries, RawEntry, RawGiven, RawSolution};

/// A resource for a role.
fn given(alloc: Global, role: &str, word: &str, number: u32) -> Result<RawGiven, NoMemory>
    requires role { IsTrue (is_ascii role.now) }
    requires word { IsTrue (is_ascii word.now) }
    ensures { IfOk result (λ g. g ≡ spec.given role.now word.now number) }
{
    let (reference, role) = both(to_numbered(alloc, word, number), name(alloc, role))?;
    Ok(RawGiven {
        reference,
        role: Some(role),
    })
}

/// Adds the teacher and the room that were drawn for an entry.
fn add_given(alloc: Global, list: &mut Seq<RawGiven>, drawn: DrawnEntry) -> Result<(), NoMemory>
    ensures { OnOk result (list.new ≡ list.old ++ spec.all_given drawn) }
{
    if let Some(number) = drawn.teacher {
        list.push(given(alloc, "T", "p", number)?)?;
    }
    if let Some(number) = drawn.room {
        list.push(given(alloc, "R", "q", number)?)?;
    }
    Ok(())
}

/// The teacher and the room that were drawn for an entry.
fn all_given(alloc: Global, drawn: DrawnEntry) -> Result<Seq<RawGiven>, NoMemory>
    ensures { IfOk result (λ list. list ≡ spec.all_given drawn) }
{
    let count = drawn.teacher.is_some() as usize + drawn.room.is_some() as usize;
    let mut list = roomy(alloc, count)?;
    add_given(alloc, &mut list, drawn)?;
    Ok(list)
}

/// An entry of a solution.
#[tactic(auto, unfolding(crate::specs::Solutions::entry))]
fn entry(alloc: Global, drawn: DrawnEntry) -> Result<RawEntry, NoMemory>
    ensures { IfOk result (λ e. e ≡ spec.entry drawn) }
{
    let references = both(
        to_numbered(alloc, "e", drawn.event),
        to_time(alloc, drawn.time),
    );
    let ((reference, time), resources) = both(references, all_given(alloc, drawn))?;
    Ok(RawEntry {
        reference,
        duration: Some(drawn.duration),
        time,
        resources,
    })
}

/// The entries of a solution.
#[tactic(auto, using(crate::proofs::ListLemmas::one_of))]
fn entries(alloc: Global, drawn: &[DrawnEntry]) -> Result<Entries, NoMemory>
    ensures { IfOk result (λ list. list ≡ map spec.entry drawn.now) }
{
    let mut list = Entries::new(alloc);
    for one in drawn {
        let made = entry(alloc, *one)?;
        list.push(&made)?;
    }
    Ok(list)
}

/// A solution.
#[tactic(auto, unfolding(crate::specs::Solutions::solution))]
fn solution(alloc: Global, drawn: &[DrawnEntry]) -> Result<RawSolution, NoMemory>
    ensures { IfOk result (λ s. s ≡ spec.solution drawn.now) }
{
    let (reference, events) = both(to(alloc, "made"), entries(alloc, drawn))?;
    Ok(RawSolution {
        reference,
        description: None,
        running_time: None,
        events,
    })
}

/// All solutions.
#[tactic(auto, using(crate::proofs::ListLemmas::one_of))]
pub(crate) fn solutions(
    alloc: Global,
    drawn: &[Seq<DrawnEntry>],
) -> Result<Seq<RawSolution>, NoMemory>
    ensures { IfOk result (λ list. list ≡ map spec.solution drawn.now) }
{
    let mut list = roomy(alloc, drawn.len())?;
    for one in drawn {
        list.push(solution(alloc, one.as_slice())?)?;
    }
    Ok(list)
}
