//! The ties of all meets, and where the followers of each are found.

ghost use Rattle.std.specs.Prelude.{◌≡◌, ◌<◌, ◌^◌, ◌*◌, ◌+◌, None, Some, length, replicate, slice_set, IfOk, IfSome};
ghost use Rattle.followers.specs.Links.{AreLinked, count_of};
ghost use Rattle.followers.specs.Rows.{IsNextTie};
ghost use Rattle.followers.specs.Ties.{leads, tie_at};

use crate::Tie;
use crate::rows::{first_set, mark, no_marks};
use khe_base::{MeetId, NoMemory};
use std::alloc::Global;
use std::marker::Model;

/// The tie of each meet that follows another. Contracts see a list with an entry for each meet slot.
///
/// The followers of a meet are linked to one another, so that they are found without a look at others, and a meet is
/// tied or untied in constant time.
pub(crate) struct Ties {
    ties: Vec<Option<Tie>>,
    /// The first follower of each meet, or the number of all slots.
    first: Vec<u32>,
    /// The next follower of the same leader, or the number of all slots.
    next: Vec<u32>,
    /// The one before it, or the number of all slots.
    prev: Vec<u32>,
    /// How many followers each meet has.
    counts: Vec<u32>,
    /// One bit for each meet, set where it has a tie.
    words: Vec<u64>,
}

// By hand: an exit of a caller then has one call to prove, and not a drop for each field.
impl Drop for Ties {
    fn drop(self) {
        let Ties {
            ties: _ties,
            first: _first,
            next: _next,
            prev: _prev,
            counts: _counts,
            words: _words,
        } = self;
    }
}

impl Model for Ties {
    ghost use Rattle.std.specs.Prelude.{ℕ, ◌+◌, ◌*◌, ◌<◌, ◌^◌, Option, List, length};
    ghost use Rattle.followers.specs.Links.{AreLinked};
    ghost use Rattle.followers.specs.Rows.{AreMarked};
    ghost use Rattle.followers.specs.declared.edits.Tie.{Tie};

    ghost Value = { List (Option Tie) };

    ghost view = { λ t. t.ties.items };

    ghost invariant = { λ t. AreLinked t.ties.items t.first.items t.next.items t.prev.items t.counts.items × (2 * length t.ties.items + 1 < 2 ^ 32) × AreMarked t.ties.items t.words.items };
}

/// The ties of all meets and the links of their followers.
#[derive(Clone, Copy)]
pub(crate) struct Links<'t> {
    pub ties: &'t [Option<Tie>],
    pub first: &'t [u32],
    pub next: &'t [u32],
    pub prev: &'t [u32],
    pub counts: &'t [u32],
}

impl Ties {
    /// No ties, for the given number of meets.
    #[tactic(auto, using(crate::proofs::LinkLaws::open_linked))]
    pub fn open(alloc: Global, slots: u32) -> Result<Ties, NoMemory>
        requires { 2 * slots + 1 < 2 ^ 32 }
        ensures { IfOk result (λ t. t ≡ replicate slots None) }
    {
        let count = slots as usize;
        let ties = vec![in alloc; None; count]?;
        let first = vec![in alloc; slots; count]?;
        let next = vec![in alloc; slots; count]?;
        let prev = vec![in alloc; slots; count]?;
        let counts = vec![in alloc; 0; count]?;
        let words = no_marks(alloc, count)?;
        Ok(Ties {
            ties,
            first,
            next,
            prev,
            counts,
            words,
        })
    }

    /// The tie of a meet.
    pub fn get(&self, meet: MeetId) -> Option<Tie>
        ensures { result ≡ tie_at self.now meet.0 }
    {
        let number = meet.0 as usize;
        if number < self.ties.len() {
            self.ties[number]
        } else {
            None
        }
    }

    /// The tie of each meet slot.
    pub fn as_slice(&self) -> &[Option<Tie>]
        ensures { result.now ≡ self.now }
    {
        self.ties.as_slice()
    }

    /// The ties and their links.
    pub fn links(&self) -> Links<'_>
        ensures ties { result.ties.now ≡ self.now }
        ensures linked { AreLinked result.ties.now result.first.now result.next.now result.prev.now result.counts.now }
    {
        Links {
            ties: self.ties.as_slice(),
            first: self.first.as_slice(),
            next: self.next.as_slice(),
            prev: self.prev.as_slice(),
            counts: self.counts.as_slice(),
        }
    }

    /// How many followers a meet has. It takes constant time.
    #[tactic(auto, using(crate::proofs::LinkLaws::count_past, crate::proofs::LinkLaws::count_small))]
    pub fn count(&self, meet: MeetId) -> u32
        ensures count { result ≡ count_of self.now meet.0 }
        ensures small { 2 * result + 1 < 2 ^ 32 }
    {
        let _few = self.slots();
        let links = self.links();
        let number = meet.0 as usize;
        if number < links.ties.len() {
            links.counts[number]
        } else {
            0
        }
    }

    /// Whether a meet has followers.
    #[tactic(auto, using(crate::proofs::LinkLaws::leads_many, crate::proofs::LinkLaws::leads_past))]
    pub fn leads(&self, meet: MeetId) -> bool
        ensures { result ≡ leads self.now meet.0 }
    {
        let links = self.links();
        let number = meet.0 as usize;
        number < links.ties.len() && 0 < links.counts[number]
    }

    /// The first meet from a number on that has a tie. It looks at a word for each 64 meets up to there.
    #[tactic(auto, using(crate::proofs::RowsLaws::no_tie_at, crate::proofs::RowsLaws::tie_there))]
    pub fn next(&self, from: MeetId) -> Option<MeetId>
        ensures next { IsNextTie self.now from.0 result }
        ensures there { IfSome result (λ m. m.0 < length self.now) }
        ensures small { IfSome result (λ m. m.0 + 1 < 2 ^ 32) }
    {
        match first_set(self.words.as_slice(), from.0 as usize) {
            None => None,
            Some(meet) => Some(MeetId(meet as u32)),
        }
    }

    /// How many meet slots there are.
    pub fn slots(&self) -> u32
        ensures slots { result ≡ length self.now }
        ensures few { 2 * result + 1 < 2 ^ 32 }
    {
        self.ties.len() as u32
    }

    /// Gives a meet another tie, or none. It takes constant time.
    pub fn set(&mut self, meet: MeetId, tie: Option<Tie>)
        requires there { meet.0 < length self.old }
        requires leader { IfSome tie (λ t. t.leader.0 < length self.old) }
        ensures { self.new ≡ slice_set self.old meet.0 tie }
    {
        retie(
            self.ties.as_mut_slice(),
            self.first.as_mut_slice(),
            self.next.as_mut_slice(),
            self.prev.as_mut_slice(),
            self.counts.as_mut_slice(),
            meet.0,
            tie,
        );
        mark(&mut self.words, meet.0 as usize, tie.is_some());
    }
}

/// Gives a meet another tie, or none.
#[tactic(auto, using(crate::proofs::LinkLaws::tied_again, crate::proofs::LinkLaws::tie_gone, crate::proofs::LinkLaws::same_long))]
fn retie(
    ties: &mut [Option<Tie>],
    first: &mut [u32],
    next: &mut [u32],
    prev: &mut [u32],
    counts: &mut [u32],
    meet: u32,
    tie: Option<Tie>,
)
    requires linked { AreLinked ties.old first.old next.old prev.old counts.old }
    requires there { meet < length ties.old }
    requires leader { IfSome tie (λ t. t.leader.0 < length ties.old) }
    requires few { length ties.old + 1 < 2 ^ 32 }
    ensures linked { AreLinked ties.new first.new next.new prev.new counts.new }
    ensures ties { ties.new ≡ slice_set ties.old meet tie }
{
    untie(ties, first, next, prev, counts, meet);
    if let Some(tie) = tie {
        link(ties, first, next, prev, counts, meet, tie);
    }
}

/// Writes a number at a place of a row, if the row has that place.
#[tactic(auto, using(crate::proofs::LinkLaws::set_past))]
fn write(row: &mut [u32], place: u32, number: u32)
    ensures { row.new ≡ slice_set row.old place number }
{
    if (place as usize) < row.len() {
        row[place as usize] = number;
    }
}

/// Takes the tie of a meet, if it has one: the followers before and after it lead to one another.
#[tactic(auto, using(crate::proofs::LinkLaws::untied_none))]
fn untie(
    ties: &mut [Option<Tie>],
    first: &mut [u32],
    next: &mut [u32],
    prev: &mut [u32],
    counts: &mut [u32],
    meet: u32,
)
    requires linked { AreLinked ties.old first.old next.old prev.old counts.old }
    requires there { meet < length ties.old }
    requires few { length ties.old + 1 < 2 ^ 32 }
    ensures linked { AreLinked ties.new first.new next.new prev.new counts.new }
    ensures ties { ties.new ≡ slice_set ties.old meet None }
{
    let Some(old) = ties[meet as usize] else {
        return;
    };
    let leader = old.leader.0 as usize;
    let before = prev[meet as usize];
    let after = next[meet as usize];
    counts[leader] -= 1;
    ties[meet as usize] = None;
    write(next, before, after);
    write(prev, after, before);
    if before as usize >= ties.len() {
        first[leader] = after;
    }
}

/// Ties a meet that has no tie: it becomes the first follower of its leader.
fn link(
    ties: &mut [Option<Tie>],
    first: &mut [u32],
    next: &mut [u32],
    prev: &mut [u32],
    counts: &mut [u32],
    meet: u32,
    tie: Tie,
)
    requires linked { AreLinked ties.old first.old next.old prev.old counts.old }
    requires there { meet < length ties.old }
    requires leader { tie.leader.0 < length ties.old }
    requires free { tie_at ties.old meet ≡ None }
    requires few { length ties.old + 1 < 2 ^ 32 }
    ensures linked { AreLinked ties.new first.new next.new prev.new counts.new }
    ensures ties { ties.new ≡ slice_set ties.old meet (Some tie) }
{
    let leader = tie.leader.0 as usize;
    let after = first[leader];
    prev[meet as usize] = ties.len() as u32;
    write(prev, after, meet);
    next[meet as usize] = after;
    first[leader] = meet;
    counts[leader] += 1;
    ties[meet as usize] = Some(tie);
}
