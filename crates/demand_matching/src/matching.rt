//! A maximum matching of demands with supplies, kept as domains change.

ghost use Rattle.std.specs.Prelude.{◌≡◌, ◌<◌, ◌==◌, ℕ, true, false, length, IfOk, None, Some, Option};
ghost use Rattle.std.specs.List.Sorted.{IsStrictlyIncreasing};
ghost use Rattle.std.specs.Option.{ForSome};
ghost use Rattle.std.specs.List.{list_any};
ghost use Rattle.khe_base.specs.IdSet.{has_member};
ghost use Rattle.demand_matching.specs.Domains.{Domains, IsInRange, domain_of, with_domain, no_domains};
ghost use Rattle.demand_matching.specs.Excess.{IsDeficit, IsHallSet, IsAssignment};

use crate::Domain;
use crate::empty::{all_bits, no_domains, no_numbers};
use crate::order::Order;
use crate::reach::reached_from;
use crate::sets::Sets;
use crate::table::{Found, Table};
use khe_base::bits::set_bit;
use khe_base::{IdSet, NoMemory, Seq, both};
use std::alloc::Global;
use std::marker::Model;
use std::mem;

/// Demands, each with a domain while it is present, and a maximum matching of them with supplies.
/// A supply is a resource at a time. Contracts see the given sets, the number of times, the number
/// of resources, and the domain of each demand.
///
/// It takes memory in proportion to the demands, the supplies, and the sets with their members.
/// The order has the unserved demands first, then the others of the set that is kept, then all
/// other demands. One row of bits has those of the supplies outside of that set; the other has all
/// bits set between calls.
#[derive(Drop)]
pub struct Matching {
    table: Table,
    order: Order,
    left: u32,
    met: u32,
    outside: Vec<u64>,
    unseen: Vec<u64>,
    alloc: Global,
}

impl Model for Matching {
    ghost use Rattle.demand_matching.specs.Domains.{Domains};

    ghost Value = { Domains };

    ghost use Rattle.demand_matching.specs.Table.{domains_of};
    ghost use Rattle.demand_matching.specs.Matched.{IsReady};

    ghost view = { λ m. domains_of m.table };

    ghost invariant = { λ m. IsReady m.table m.order m.left m.met m.outside.items m.unseen.items };
}

impl Matching {
    /// The given number of demands, numbered from 0, all absent. `last` is the number of times, `width` that
    /// of the resources; a domain names the given sets by their numbers in the two lists. It takes
    /// all memory that later changes need, and time in proportion to it. Supplies are numbered
    /// below 2^32, and more count as memory that is refused.
    pub fn new(
        alloc: Global,
        demands: u32,
        times: Seq<IdSet>,
        resources: Seq<IdSet>,
        last: u32,
        width: u32,
    ) -> Result<Matching, NoMemory>
        ensures { IfOk result (λ m. m ≡ no_domains times resources last width demands) }
    {
        let count = demands as usize;
        let supplies = width as usize * last as usize;
        if supplies > u32::MAX as usize {
            return Err(NoMemory);
        }
        let words = (supplies + 63) / 64;
        let sets = both(Sets::new(alloc, times), Sets::new(alloc, resources));
        let kept = both(no_numbers(alloc, count), no_numbers(alloc, supplies));
        let bits = both(all_bits(alloc, words), all_bits(alloc, words));
        let first = both(sets, both(no_domains(alloc, count), kept));
        let second = both(
            Order::new(alloc, demands),
            both(all_bits(alloc, words), bits),
        );
        let (first, second) = both(first, second)?;
        let ((times, resources), (demands, (supplies, owners))) = first;
        let (order, (free, (outside, unseen))) = second;
        Ok(Matching {
            left: 0,
            met: 0,
            alloc,
            outside,
            unseen,
            order,
            table: Table {
                last,
                width,
                free,
                demands,
                supplies,
                owners,
                times,
                resources,
            },
        })
    }

    /// Gives a demand a new domain, or makes it absent where there is none; all other demands
    /// keep theirs. It takes no memory.
    ///
    /// The matching keeps a set of demands that holds all that are left out, and that has every
    /// supply which one of its demands may have. No search follows, and a change takes constant
    /// time, where the demand is made absent and is left out or stands outside of the set; and
    /// where it stands outside of the set and its new domain admits the supply that it has.
    ///
    /// Else there is a search from the unserved demands, where a demand of the set loses its
    /// supply, and one from the demand itself, where it gets a domain. A search meets each demand
    /// once at most, from the demand itself none of the set, and ends at the first free supply.
    /// For each demand met it takes one look at each resource of the domain for each 64 of its
    /// times, first for free supplies, then for supplies of demands that are not met yet. A search
    /// that found none from those left out takes time in proportion to the set before it, too.
    pub fn set_domain(&mut self, demand: u32, domain: Option<Domain>)
        requires demand { demand < length self.old.demands }
        requires domain { ForSome domain (IsInRange self.old) }
        ensures { self.new ≡ with_domain self.old demand domain }
    {
        let Some(domain) = domain else {
            self.remove(demand);
            return;
        };
        if !self.write(demand, domain) {
            self.remove(demand);
            self.add(demand, domain);
        }
    }

    /// The greatest excess of a set of present demands: its size less the number of supplies that
    /// at least one of them may have. That many present demands are left without a supply of their
    /// own. It takes constant time and no memory.
    pub fn deficit(&self) -> u32
        ensures greatest { IsDeficit self.now result }
        ensures served { (supply : ℕ → Option (ℕ × ℕ)) × IsAssignment self.now supply result }
    {
        self.left
    }

    /// The least set of present demands whose excess is the deficit, ascending: it is contained in
    /// each set that has this excess.
    ///
    /// Where the deficit is 0 it is empty, and is answered in constant time and without memory.
    /// Else it takes memory for one bit for each demand and for each supply and for the demands of the
    /// set, and time in proportion to these and, for each demand that is followed, to the resources
    /// that it may have and a 64th of the times: first the unserved ones, and none any more once all
    /// demands of the kept set were met. Each supply is looked at once.
    pub fn hall_set(&self) -> Result<Seq<u32>, NoMemory>
        ensures ascending { IfOk result (λ hall. IsStrictlyIncreasing hall) }
        ensures least { IfOk result (λ hall. IsHallSet self.now (λ demand. list_any (λ member. member == demand) hall)) }
    {
        if self.left == 0 {
            return Ok(Seq::new(self.alloc));
        }
        let marks = reached_from(self.alloc, &self.table, &self.order, self.left, self.met)?;
        marks.members(self.alloc)
    }

    /// The least set of present demands whose excess is the deficit: it is contained in each set that
    /// has this excess. It has a mark for each demand, and none is marked where the deficit is 0.
    ///
    /// It fails where memory is refused; the matching stays as it was in any case. It takes memory for
    /// one bit for each demand and for each supply and for the demands of the set, and time in
    /// proportion to these and, for each demand that is followed, to the resources that it may have
    /// and a 64th of the times: first the unserved ones, and none any more once all demands of the
    /// kept set were met. Each supply is looked at once.
    pub fn hall_marks(&self) -> Result<IdSet, NoMemory>
        ensures size { IfOk result (λ marks. length marks ≡ length self.now.demands) }
        ensures least { IfOk result (λ marks. IsHallSet self.now (has_member marks)) }
    {
        reached_from(self.alloc, &self.table, &self.order, self.left, self.met)
    }

    /// Writes the domain, where the demand stands outside of the set that is kept and has a supply
    /// that the domain admits. The result is whether that is so.
    fn write(&mut self, demand: u32, domain: Domain) -> bool
        requires demand { demand < length self.old.demands }
        requires domain { IsInRange self.old domain }
        ensures written { result ≡ true → self.new ≡ with_domain self.old demand (Some domain) }
        ensures same { result ≡ false → self.new ≡ self.old }
    {
        if self.order.spots[demand as usize] < self.met || !self.table.is_served(demand, domain) {
            return false;
        }
        self.table.put_domain(demand, domain);
        true
    }

    /// Takes away the domain of a demand. Where it has a supply and is in the set that is kept, one
    /// of the unserved demands may get a supply then.
    fn remove(&mut self, demand: u32)
        requires { demand < length self.old.demands }
        ensures { self.new ≡ with_domain self.old demand None }
    {
        if self.table.demands[demand as usize].is_none() {
            return;
        }
        let inside = self.order.spots[demand as usize] < self.met;
        match self.table.drop_domain(demand) {
            None => {
                (self.left, self.met) = (self.left - 1, self.met - 1);
                self.order.put(demand, self.left);
                self.order.put(demand, self.met);
            }
            Some(supply) if inside => {
                self.met -= 1;
                self.order.put(demand, self.met);
                set_bit(&mut self.outside, supply as usize);
                match self
                    .table
                    .search(&mut self.order, &mut self.unseen, 0, self.left)
                {
                    Found::Closed(less) => {
                        self.table
                            .unmark(&self.order, &mut self.outside, 0, self.met);
                        mem::swap(&mut self.outside, &mut self.unseen);
                        self.met = less;
                    }
                    Found::Open(place, supply) => {
                        let served = self.table.shift(&self.order, 0, place, supply);
                        self.left -= 1;
                        self.order.put(served, self.left);
                    }
                }
            }
            Some(_) => {}
        }
    }

    /// Gives a domain to a demand that has none. Where no supply can be had for it beside those of
    /// the others, it joins the set that is kept, with all whom the search met.
    fn add(&mut self, demand: u32, domain: Domain)
        requires demand { demand < length self.old.demands }
        requires absent { domain_of self.old demand ≡ None }
        requires domain { IsInRange self.old domain }
        ensures { self.new ≡ with_domain self.old demand (Some domain) }
    {
        self.table.put_domain(demand, domain);
        let met = self.met;
        self.order.put(demand, met);
        match self
            .table
            .search(&mut self.order, &mut self.outside, met, met + 1)
        {
            Found::Open(place, supply) => {
                self.table.shift(&self.order, met, place, supply);
            }
            Found::Closed(more) => {
                self.order.put(demand, self.left);
                self.left += 1;
                self.met = more;
            }
        }
    }
}
