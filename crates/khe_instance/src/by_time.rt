//! The monitors of an instance by the resources and the times that they watch.

ghost use Rattle.std.specs.Prelude.{◌≡◌, ◌<◌, ◌≤◌, ◌+◌, ◌*◌, ◌==◌, ◌^◌, ◌&&◌, [], length, map, nat_lt, count_by, replicate, slice_index_or, IfOk, OnOk};
ghost use Rattle.khe_base.specs.Bits.{words_for};
ghost use Rattle.khe_base.specs.IdSet.{has_member};
ghost use Rattle.khe_base.specs.ListedSets.{is_listed};
ghost use Rattle.khe_base.specs.declared.numbers.ResourceId.{ResourceId};
ghost use Rattle.khe_instance.specs.ByTime.{AreApart, AreByTime, lists_in, words_in};
ghost use Rattle.khe_instance.specs.Listing.{IsAddedAt};
ghost use Rattle.khe_instance.specs.Watching.{is_at, lists_time};
ghost use Rattle.khe_instance.specs.declared.points.Point.TheVariants.{Resource};

use crate::instances::Instance;
use crate::listing::no_lists;
use crate::monitor_tables::MonitorTable;
use crate::points::{Monitor, Point};
use crate::rules::Rule;
use khe_base::{IdSet, MonitorId, NoMemory, Seq};
use std::alloc::Global;

/// The monitors of an instance at each resource that list a time, by words of 64 times: the ones that a change
/// at the resource and at a time of the word may change. A row of the table is a resource, a column a word.
///
/// It takes memory in proportion to the resources, the words of all resources together, a 64th of the cells,
/// and what the monitors watch, and time in proportion to these and to the times of all sets that the
/// constraints list.
pub fn monitors_by_time(alloc: Global, inst: &Instance) -> Result<MonitorTable, NoMemory>
    ensures { IfOk result (λ table. AreByTime inst.now table) }
{
    inst.facts();
    let words = inst.times().div_ceil(64);
    let listed = listed_words(alloc, inst, words)?;
    let mut table = no_monitors(alloc, inst.resources(), words)?;
    for number in 0..inst.monitors() {
        let monitor = inst.monitor(MonitorId(number));
        add_at_times(&mut table, listed.as_slice(), monitor, number)?;
    }
    Ok(table)
}

/// A table with an empty list of monitors in each row for each word.
fn no_monitors(alloc: Global, rows: u32, words: u32) -> Result<MonitorTable, NoMemory>
    ensures { IfOk result (λ table. table ≡ replicate rows (replicate words [])) }
{
    let mut table = Seq::new(alloc);
    for _ in 0..rows {
        table.push(no_lists(alloc, words as usize)?)?;
    }
    Ok(MonitorTable { rows: table })
}

/// For each constraint the words in which it lists a time.
fn listed_words(alloc: Global, inst: &Instance, words: u32) -> Result<Seq<Seq<u32>>, NoMemory>
    requires { words * 64 + 64 < 2 ^ 32 }
    ensures { IfOk result (λ listed. listed ≡ map (λ c. words_in words c.rule) inst.now.constraints) }
{
    let mut listed = Seq::new(alloc);
    for constraint in 0..inst.constraints() {
        listed.push(words_of(alloc, &inst.constraint(constraint).rule, words)?)?;
    }
    Ok(listed)
}

/// The words in which a rule lists a time.
fn words_of(alloc: Global, rule: &Rule, words: u32) -> Result<Seq<u32>, NoMemory>
    requires { words * 64 + 64 < 2 ^ 32 }
    ensures { IfOk result (λ listed. listed ≡ words_in words rule.now) }
{
    let mut listed = Seq::new(alloc);
    for word in 0..words {
        if lists_in(rule, word) {
            listed.push(word)?;
        }
    }
    Ok(listed)
}

/// Whether a rule lists one of the times of a word.
fn lists_in(rule: &Rule, word: u32) -> bool
    requires { word * 64 + 64 < 2 ^ 32 }
    ensures { result ≡ lists_in rule.now word }
{
    for time in 64 * word..64 * word + 64 {
        if lists(rule, time) {
            return true;
        }
    }
    false
}

/// Whether a rule lists a time.
fn lists(rule: &Rule, time: u32) -> bool
    ensures { result ≡ lists_time rule.now time }
{
    match rule {
        Rule::AvoidClashes => true,
        Rule::AvoidUnavailableTimes { times } => times.has(time),
        Rule::LimitIdleTimes { groups, .. } => one_has(groups.as_slice(), time),
        Rule::ClusterBusyTimes { groups, .. } => one_has(groups.as_slice(), time),
        Rule::LimitBusyTimes { groups, .. } => one_has(groups.as_slice(), time),
        _ => false,
    }
}

/// Whether one of some sets has a time.
fn one_has(sets: &[IdSet], time: u32) -> bool
    ensures { result ≡ nat_lt 0 (count_by (λ g. has_member g time) sets.now) }
{
    for set in sets {
        if set.has(time) {
            return true;
        }
    }
    false
}

/// Adds a monitor to the lists of its resource, if it is at one, in the words of its constraint.
fn add_at_times(
    table: &mut MonitorTable,
    listed: &[Seq<u32>],
    monitor: Monitor,
    number: u32,
) -> Result<(), NoMemory>
    requires resource { (r : ResourceId) → monitor.point ≡ Resource r → r.0 < length table.old }
    requires constraint { monitor.constraint < length listed.now }
    requires words { (r : ResourceId) → monitor.point ≡ Resource r → AreApart (slice_index_or listed.now monitor.constraint [])
        (length (slice_index_or table.old r.0 [])) }
    ensures { OnOk result (IsAddedAt (λ a b. is_at monitor.point a && is_listed (slice_index_or listed.now monitor.constraint []) b)
        number table.old table.new) }
{
    match monitor.point {
        Point::Resource(resource) => {
            let words = listed[monitor.constraint as usize].as_slice();
            add_in_words(table, resource.0, words, number)
        }
        _ => Ok(()),
    }
}

/// Adds a monitor to the lists of some words in a row.
fn add_in_words(
    table: &mut MonitorTable,
    row: u32,
    words: &[u32],
    monitor: u32,
) -> Result<(), NoMemory>
    requires row { row < length table.old }
    requires words { AreApart words.now (length (slice_index_or table.old row [])) }
    ensures { OnOk result (IsAddedAt (λ a b. (row == a) && is_listed words.now b) monitor table.old table.new) }
{
    for word in words {
        table.push(row, *word, monitor)?;
    }
    Ok(())
}
