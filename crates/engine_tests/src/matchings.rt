//! Matchings of demands.

ghost use Rattle.std.specs.Prelude.{◌≡◌, ◌*◌, ◌<◌, ◌≤◌, length, IfOk};
ghost use Rattle.engine_tests.specs.Matchings.{IsSized, SameSizes};

use demand_matching::{Domain, Matching, Pick};
use khe_base::{NoMemory, Seq};
use std::alloc::Global;
use std::test::Fail;

fn empty(alloc: Global, demands: u32, last: u32, width: u32) -> Result<Matching, NoMemory>
    ensures { IfOk result (λ m. IsSized m demands last width) }
{
    Matching::new(
        alloc,
        demands,
        Seq::new(alloc),
        Seq::new(alloc),
        last,
        width,
    )
}

// The demand may have one supply alone.
fn put(matching: &mut Matching, demand: u32, time: u32, resource: u32)
    requires demand { demand < length matching.old.demands }
    requires time { time < matching.old.last }
    requires resource { resource < matching.old.width }
    ensures { SameSizes matching.old matching.new }
{
    let domain = Domain {
        times: Pick::One(time),
        shift: 0,
        resources: Pick::One(resource),
    };
    matching.set_domain(demand, Some(domain));
}

// Each demand may have a supply of its own.
fn put_all(matching: &mut Matching, demands: u32, columns: u32)
    requires demands { demands ≤ length matching.old.demands }
    requires last { demands ≤ matching.old.last * columns }
    requires columns { 0 < columns }
    requires width { columns ≤ matching.old.width }
    ensures { SameSizes matching.old matching.new }
{
    for demand in 0..demands {
        put(matching, demand, demand / columns, demand % columns);
    }
}

fn drop_all(matching: &mut Matching, demands: u32)
    requires { demands ≤ length matching.old.demands }
    ensures { SameSizes matching.old matching.new }
{
    for demand in 0..demands {
        matching.set_domain(demand, None);
    }
}

// Whether this is the deficit, and this the Hall set.
fn shows(matching: &Matching, deficit: u32, hall: &[u32]) -> bool {
    match matching.hall_set() {
        Ok(set) => matching.deficit() == deficit && set.as_slice() == hall,
        Err(_) => false,
    }
}

// Each of 200,000 demands gets a supply of its own, one loses it to another, and all go.
fn round(matching: &mut Matching) -> bool
    requires { IsSized matching.old 200_000 2_000 100 }
    ensures { SameSizes matching.old matching.new }
{
    put_all(matching, 200_000, 100);
    let none = shows(matching, 0, &[]);
    put(matching, 1, 0, 0);
    let one = shows(matching, 1, &[0, 1]);
    drop_all(matching, 200_000);
    none && one && shows(matching, 0, &[])
}

// Five such rounds.
fn rounds(matching: &mut Matching) -> bool
    requires { IsSized matching.old 200_000 2_000 100 }
{
    let mut right = true;
    'again: for _ in 0..5u8 {
        right = round(matching) && right;
    }
    right
}

/// Whether all rounds show what they should.
fn rounds_of(alloc: Global) -> Result<bool, NoMemory> {
    let mut matching = empty(alloc, 200_000, 2_000, 100)?;
    Ok(rounds(&mut matching))
}

// Three demands for one supply, of which one goes.
fn lacks_two(matching: &mut Matching) -> bool
    requires { IsSized matching.old 3 1 1 }
{
    put(matching, 0, 0, 0);
    put(matching, 1, 0, 0);
    put(matching, 2, 0, 0);
    let two = shows(matching, 2, &[0, 1, 2]);
    matching.set_domain(1, None);
    two && shows(matching, 1, &[0, 2])
}

/// Whether two are short where three want one supply.
fn crowds(alloc: Global) -> Result<bool, NoMemory> {
    let mut matching = empty(alloc, 3, 1, 1)?;
    Ok(lacks_two(&mut matching))
}

#[test]
fn three_demands_for_one_supply(rt: HostRuntime) -> Result<(), Fail> {
    assert!(rt; crowds(rt.alloc())?);
    Ok(())
}

/// A change that looked at all present demands would take hours here.
#[test]
fn a_change_looks_at_few_demands(rt: HostRuntime) -> Result<(), Fail> {
    assert!(rt; rounds_of(rt.alloc())?);
    Ok(())
}
