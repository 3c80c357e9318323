//! Which demands compete with the unserved ones for supplies.

ghost use Rattle.std.specs.Prelude.{◌≡◌, ◌+◌, ◌*◌, ◌<◌, ℕ, true, length, slice_index, Some, IfOk, OnOk};
ghost use Rattle.khe_base.specs.Bits.{has_bit};
ghost use Rattle.khe_base.specs.IdSet.{has_member};
ghost use Rattle.demand_matching.specs.Domains.{domain_of, is_present, is_picked};
ghost use Rattle.demand_matching.specs.Listing.{IsListing};
ghost use Rattle.demand_matching.specs.Matched.{IsMaximum};
ghost use Rattle.demand_matching.specs.Reach.{AreAll, AreSeen, IsInAll, IsReach, IsReached, Reaches};
ghost use Rattle.demand_matching.specs.Table.{IsTable, domains_of, may_take, owner_of, demands_in, supplies_in};

use crate::Domain;
use crate::empty::all_bits;
use crate::order::Order;
use crate::table::Table;
use crate::windows::window;
use khe_base::bits::{clear_bit, has_bit};
use khe_base::{IdSet, NoMemory, Seq};
use std::alloc::Global;

/// Demands that were reached, in the order in which they were, and a mark for each.
#[derive(Drop)]
pub(crate) struct Reach {
    pub(crate) demands: Seq<u32>,
    pub(crate) marks: IdSet,
}

impl Reach {
    /// No demand is reached yet, of the given number.
    fn new(alloc: Global, count: u32) -> Result<Reach, NoMemory>
        ensures demands { IfOk result (λ r. length r.demands ≡ 0) }
        ensures size { IfOk result (λ r. length r.marks ≡ count) }
        ensures none { IfOk result (λ r. (d : ℕ) → has_member r.marks d ≡ true → ⊥) }
    {
        Ok(Reach {
            demands: Seq::new(alloc),
            marks: IdSet::new(alloc, count)?,
        })
    }

    /// The demand that was reached at a place of the order.
    fn demand(&self, k: usize) -> u32
        requires { k < length self.now.demands }
        ensures { result ≡ slice_index self.now.demands k }
    {
        self.demands.as_slice()[k]
    }

    /// One demand is reached, if it was not before.
    fn reach(&mut self, table: &Table, demand: u32) -> Result<(), NoMemory>
        requires reach { IsReach table.now self.old.demands self.old.marks }
        requires demand { demand < demands_in table.now }
        requires present { is_present (domains_of table.now) demand ≡ true }
        requires all { IsInAll table.now demand }
        ensures reaches { OnOk result (Reaches table.now self.old self.new) }
        ensures reached { OnOk result (has_member self.new.marks demand ≡ true) }
    {
        if self.marks.has(demand) {
            return Ok(());
        }
        self.marks.insert(demand);
        self.demands.push(demand)?;
        Ok(())
    }

    /// Reaches the demand that has a supply, which a reached demand may have.
    fn follow_supply(&mut self, table: &Table, from: u32, supply: usize) -> Result<(), NoMemory>
        requires table { IsTable table.now }
        requires reach { IsReach table.now self.old.demands self.old.marks }
        requires from { has_member self.old.marks from ≡ true }
        requires supply { supply < supplies_in table.now }
        requires allowed { may_take (domains_of table.now) from supply ≡ true }
        ensures reaches { OnOk result (Reaches table.now self.old self.new) }
        ensures reached { OnOk result ((by : ℕ) → owner_of table.now supply ≡ Some by → has_member self.new.marks by ≡ true) }
    {
        let Some(owner) = table.owners[supply] else {
            return Ok(());
        };
        self.reach(table, owner)?;
        Ok(())
    }

    /// Reaches the demand that has the supply at a place of a word of supplies that were not looked at, if its bit is
    /// set, and marks the supply as looked at.
    fn follow_bit(
        &mut self,
        table: &Table,
        unseen: &mut Vec<u64>,
        from: u32,
        word: u64,
        first: usize,
        i: u32,
    ) -> Result<(), NoMemory>
        requires table { IsTable table.now }
        requires reach { IsReach table.now self.old.demands self.old.marks }
        requires seen { AreSeen table.now self.old.marks unseen.old.items }
        requires from { has_member self.old.marks from ≡ true }
        requires place { i < 64 }
        requires below { has_bit word i ≡ true → first + i < supplies_in table.now }
        requires allowed { has_bit word i ≡ true → may_take (domains_of table.now) from (first + i) ≡ true }
        ensures reaches { OnOk result (Reaches table.now self.old self.new) }
        ensures seen { OnOk result (AreSeen table.now self.new.marks unseen.new.items) }
        ensures reached { OnOk result ((by : ℕ) → has_bit word i ≡ true → owner_of table.now (first + i) ≡ Some by
            → has_member self.new.marks by ≡ true) }
    {
        if !has_bit(word, i) {
            return Ok(());
        }
        let supply = first + i as usize;
        self.follow_supply(table, from, supply)?;
        clear_bit(unseen, supply);
        Ok(())
    }

    /// Reaches the demands that have the supplies whose bits are set in a word.
    fn follow_word(
        &mut self,
        table: &Table,
        unseen: &mut Vec<u64>,
        from: u32,
        word: u64,
        first: usize,
    ) -> Result<(), NoMemory>
        requires table { IsTable table.now }
        requires reach { IsReach table.now self.old.demands self.old.marks }
        requires seen { AreSeen table.now self.old.marks unseen.old.items }
        requires from { has_member self.old.marks from ≡ true }
        requires below { (i : ℕ) → i < 64 → has_bit word i ≡ true → first + i < supplies_in table.now }
        requires allowed { (i : ℕ) → i < 64 → has_bit word i ≡ true
            → may_take (domains_of table.now) from (first + i) ≡ true }
        ensures reaches { OnOk result (Reaches table.now self.old self.new) }
        ensures seen { OnOk result (AreSeen table.now self.new.marks unseen.new.items) }
        ensures reached { OnOk result ((i by : ℕ) → i < 64 → has_bit word i ≡ true
            → owner_of table.now (first + i) ≡ Some by → has_member self.new.marks by ≡ true) }
    {
        if word == 0 {
            return Ok(());
        }
        for i in 0..64u32 {
            self.follow_bit(table, unseen, from, word, first, i)?;
        }
        Ok(())
    }

    /// All are reached that have supplies of one resource which a demand that was reached may have. Only supplies that
    /// were not looked at before are looked at, by words of 64.
    fn follow_at(
        &mut self,
        table: &Table,
        unseen: &mut Vec<u64>,
        from: u32,
        domain: Domain,
        resource: u32,
    ) -> Result<(), NoMemory>
        requires table { IsTable table.now }
        requires reach { IsReach table.now self.old.demands self.old.marks }
        requires seen { AreSeen table.now self.old.marks unseen.old.items }
        requires from { has_member self.old.marks from ≡ true }
        requires domain { domain_of (domains_of table.now) from ≡ Some domain }
        requires picked { is_picked table.now.resources domain.resources resource ≡ true }
        ensures reaches { OnOk result (Reaches table.now self.old self.new) }
        ensures seen { OnOk result (AreSeen table.now self.new.marks unseen.new.items) }
        ensures reached { OnOk result ((time by : ℕ) → is_picked table.now.times domain.times time ≡ true → owner_of table.now (resource * table.now.last + domain.shift + time) ≡ Some by → has_member self.new.marks by ≡ true) }
    {
        let row = table.row(domain, resource);
        let (first, end) = table.times.span(domain.times);
        for k in first..end {
            let word = window(unseen.as_slice(), row + 64 * k) & table.times.word(domain.times, k);
            self.follow_word(table, unseen, from, word, row + 64 * k)?;
        }
        Ok(())
    }

    /// All are reached that have supplies which a demand that was reached may have.
    fn follow(&mut self, table: &Table, unseen: &mut Vec<u64>, from: u32) -> Result<(), NoMemory>
        requires table { IsTable table.now }
        requires reach { IsReach table.now self.old.demands self.old.marks }
        requires seen { AreSeen table.now self.old.marks unseen.old.items }
        requires from { has_member self.old.marks from ≡ true }
        ensures reaches { OnOk result (Reaches table.now self.old self.new) }
        ensures seen { OnOk result (AreSeen table.now self.new.marks unseen.new.items) }
        ensures reached { OnOk result ((supply by : ℕ) → may_take (domains_of table.now) from supply ≡ true → owner_of table.now supply ≡ Some by → has_member self.new.marks by ≡ true) }
    {
        let Some(domain) = table.demands[from as usize] else {
            return Ok(());
        };
        for i in 0..table.resources.count(domain.resources) {
            let resource = table.resources.number(domain.resources, i);
            self.follow_at(table, unseen, from, domain, resource)?;
        }
        Ok(())
    }

    /// All that are left out are reached.
    fn start(&mut self, table: &Table, order: &Order, left: u32) -> Result<(), NoMemory>
        requires reach { IsReach table.now self.old.demands self.old.marks }
        requires listing { IsListing table.now order.now left }
        ensures reaches { OnOk result (Reaches table.now self.old self.new) }
        ensures reached { OnOk result ((k : ℕ) → k < left → has_member self.new.marks (slice_index order.now.demands.items k) ≡ true) }
    {
        for place in 0..left {
            self.reach(table, order.demands[place as usize])?;
        }
        Ok(())
    }

    /// Reaches all demands that can be reached. It ends as soon as `most` are, which is a bound on them.
    fn follow_all(
        &mut self,
        table: &Table,
        unseen: &mut Vec<u64>,
        most: u32,
    ) -> Result<(), NoMemory>
        requires table { IsTable table.now }
        requires reach { IsReach table.now self.old.demands self.old.marks }
        requires seen { AreSeen table.now self.old.marks unseen.old.items }
        requires all { AreAll table.now most }
        ensures reaches { OnOk result (Reaches table.now self.old self.new) }
        ensures reached { OnOk result ((demand supply by : ℕ) → has_member self.new.marks demand ≡ true → may_take (domains_of table.now) demand supply ≡ true → owner_of table.now supply ≡ Some by → has_member self.new.marks by ≡ true) }
    {
        let mut k = 0;
        while k < self.demands.len() {
            if self.demands.len() >= most as usize {
                return Ok(());
            }
            let demand = self.demand(k);
            self.follow(table, unseen, demand)?;
            k += 1;
        }
        Ok(())
    }
}

/// The marks of all demands that are reached from the unserved ones. They are among the first
/// demands of the order, `met` of them; where all of these are reached, none is followed any more.
pub(crate) fn reached_from(
    alloc: Global,
    table: &Table,
    order: &Order,
    left: u32,
    met: u32,
) -> Result<IdSet, NoMemory>
    requires { IsMaximum table.now order.now left met }
    ensures { IfOk result (IsReached table.now) }
{
    let mut unseen = all_bits(alloc, (table.owners.len() + 63) / 64)?;
    let mut reach = Reach::new(alloc, table.demands.len() as u32)?;
    reach.start(table, order, left)?;
    reach.follow_all(table, &mut unseen, met)?;
    Ok(reach.marks)
}
