//! The live slots as a row of bits with marks, so that the next one is found without a walk over the
//! slots between.

ghost use Rattle.std.specs.Prelude.{◌≡◌, ◌<◌, ◌≤◌, ◌*◌, ◌/◌, ◌^◌, ℕ, false, length, nat_eq, if◌then◌else◌, IfOk, MatchOption};
ghost use Rattle.khe_base.specs.Bits.{is_set};
ghost use Rattle.khe_told.specs.Changes.{meet_of};
ghost use Rattle.khe_solution.specs.FreeBits.{AreClear, IsFirst};
ghost use Rattle.khe_solution.specs.LiveBits.{AreLiveBits, AreLiveRows, lives};
ghost use Rattle.khe_solution.specs.Marks.{AreMarked};

use crate::marks::{first_marked, put_bit};
use khe_base::bits::no_bits;
use khe_base::{MeetId, NoMemory};
use khe_told::{Change, Told};
use std::alloc::Global;

/// One bit for each slot, set where it has a meet.
#[derive(Drop)]
pub(crate) struct LiveRows {
    pub(crate) words: Vec<u64>,
    /// A bit for each word.
    pub(crate) marks: Vec<u64>,
}

/// The bits of a told state, in time and memory in proportion to its slots.
pub(crate) fn live_rows(alloc: Global, told: &Told) -> Result<LiveRows, NoMemory>
    requires { length told.now < 2 ^ 32 }
    ensures { IfOk result (λ rows. AreLiveBits told.now rows) }
{
    let mut rows = no_rows(alloc, told.len())?;
    set_live(&mut rows, told);
    Ok(rows)
}

/// Bits for the given number of slots, none of them set.
fn no_rows(alloc: Global, slots: usize) -> Result<LiveRows, NoMemory>
    requires { slots < 2 ^ 32 }
    ensures rows { IfOk result (λ rows. AreLiveRows slots rows) }
    ensures clear { IfOk result (λ rows. (m : ℕ) → is_set rows.words.items m ≡ false) }
{
    let words = slots / 64 + 1;
    let marks = no_bits(alloc, words / 64 + 1)?;
    Ok(LiveRows {
        words: no_bits(alloc, words)?,
        marks,
    })
}

/// Sets the bit of each live slot.
#[tactic(auto, using(crate::proofs::LiveLaws::live_all))]
fn set_live(rows: &mut LiveRows, told: &Told)
    requires few { length told.now < 2 ^ 32 }
    requires rows { AreLiveRows (length told.now) rows.old }
    requires clear { (m : ℕ) → is_set rows.old.words.items m ≡ false }
    ensures { AreLiveBits told.now rows.new }
{
    for slot in 0..told.len() {
        let is_live = told.span(MeetId(slot as u32)).is_some();
        put_bit(&mut rows.words, &mut rows.marks, slot, is_live);
    }
}

/// Keeps the bits after a change, in constant time.
pub(crate) fn keep_live(rows: &mut LiveRows, change: Change)
    requires marked { AreMarked rows.old.words.items rows.old.marks.items }
    requires there { meet_of change / 64 < length rows.old.words.items }
    requires room { meet_of change / 64 / 64 < length rows.old.marks.items }
    ensures length { length rows.new.words.items ≡ length rows.old.words.items }
    ensures marks { length rows.new.marks.items ≡ length rows.old.marks.items }
    ensures bits { (m : ℕ) → is_set rows.new.words.items m ≡ (if nat_eq m (meet_of change) then lives change (is_set rows.old.words.items m) else is_set rows.old.words.items m) }
    ensures marked { AreMarked rows.new.words.items rows.new.marks.items }
{
    match change {
        Change::Add { meet, .. } => {
            put_bit(&mut rows.words, &mut rows.marks, meet.0 as usize, true);
        }
        Change::Drop { meet, .. } => {
            put_bit(&mut rows.words, &mut rows.marks, meet.0 as usize, false);
        }
        _ => {}
    }
}

/// The first set bit from a number on. It looks at a mark for each 64 words up to there.
pub(crate) fn next_live(rows: &LiveRows, from: MeetId) -> Option<MeetId>
    requires marked { AreMarked rows.now.words.items rows.now.marks.items }
    requires few { (length rows.now.words.items ≤ 2 ^ 26) × (length rows.now.marks.items ≤ 2 ^ 26) }
    ensures { MatchOption result (AreClear rows.now.words.items from.0 (64 * length rows.now.words.items)) (λ m. IsFirst rows.now.words.items from.0 m.0) }
{
    let end = rows.words.len();
    match first_marked(&rows.words, &rows.marks, from.0 as usize, end) {
        Some(slot) => Some(MeetId(slot as u32)),
        None => None,
    }
}
