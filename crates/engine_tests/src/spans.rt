//! Busy and idle times where the times fill two words and begin a third one.

ghost use Rattle.std.specs.Prelude.{◌≡◌, ◌∷◌, [], ℕ, List, length, IfOk};
ghost use Rattle.engine_tests.specs.Spans.{IsOneRow};

use khe_base::{IdSet, NoMemory, ResourceId, TimeId};
use std::alloc::Global;
use std::test::Fail;
use timetables::{Mask, Timetable};

/// How many times there are.
const TIMES: u32 = 130;

/// The only resource.
const RESOURCE: ResourceId = ResourceId(0);

/// The first and the last time of each word.
const BUSY: &[u32] = &[0, 63, 64, 129];

/// The resource is busy at one time more, where there is such a time.
fn rise(timetable: &mut Timetable, time: u32)
    requires { IsOneRow timetable.old 130 }
    ensures { IsOneRow timetable.new 130 }
{
    if time < TIMES && timetable.count(RESOURCE, TimeId(time)) == 0 {
        timetable.rise(RESOURCE, TimeId(time));
    }
}

/// A timetable of one resource that is busy at these times.
fn busy_at(alloc: Global, times: &[u32]) -> Result<Timetable, NoMemory>
    ensures { IfOk result (λ t. IsOneRow t 130) }
{
    let mut timetable = Timetable::open(alloc, 1, TIMES)?;
    for time in times {
        rise(&mut timetable, *time);
    }
    Ok(timetable)
}

/// The mask of these times.
fn mask_of(alloc: Global, from: u32, to: u32) -> Result<Mask, NoMemory>
    ensures { IfOk result (λ m. length m ≡ 130) }
{
    let mut set = IdSet::new(alloc, TIMES)?;
    for time in from..to {
        if time < TIMES {
            set.insert(time);
        }
    }
    Mask::new(alloc, &set)
}

/// Whether the given numbers of times of a mask are busy and idle.
fn counts(timetable: &Timetable, mask: &Mask, busy: u32, idle: u32) -> bool
    requires rows { IsOneRow timetable.now 130 }
    requires size { length mask.now ≡ 130 }
{
    timetable.busy_in(RESOURCE, mask) == busy && timetable.idle_in(RESOURCE, mask) == idle
}

/// Whether these are the three words.
fn has_words(timetable: &Timetable, words: (u64, u64, u64)) -> bool
    requires { IsOneRow timetable.now 130 }
{
    (
        timetable.word(RESOURCE, 0),
        timetable.word(RESOURCE, 1),
        timetable.word(RESOURCE, 2),
    ) == words
}

/// Whether words and counts are as they should: over all times, and over those between the first two busy ones.
fn are_right(alloc: Global) -> Result<bool, NoMemory> {
    let timetable = busy_at(alloc, BUSY)?;
    let all = mask_of(alloc, 0, TIMES)?;
    let between = mask_of(alloc, 1, 63)?;
    Ok(
        has_words(&timetable, ((1 << 63) + 1, 1, 2))
            && counts(&timetable, &all, 4, 126)
            && counts(&timetable, &between, 0, 0),
    )
}

#[test]
fn times_of_three_words_are_counted(rt: HostRuntime) -> Result<(), Fail> {
    assert!(rt; are_right(rt.alloc())?);
    Ok(())
}
