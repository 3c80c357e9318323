//! The domains of demands, and which demand has which supply.

ghost use Rattle.std.specs.Prelude.{◌≡◌, ◌≢◌, ◌+◌, ◌-◌, ◌*◌, ◌^◌, ◌<◌, ◌≤◌, ℕ, true, false, length, slice_index};
ghost use Rattle.std.specs.Prelude.{Option, None, Some, IfSome, MatchOption};
ghost use Rattle.khe_base.specs.Bits.{has_bit, is_set};
ghost use Rattle.demand_matching.specs.Domains.{IsInRange, is_picked, domain_of, with_domain};
ghost use Rattle.demand_matching.specs.Members.{picked};
ghost use Rattle.demand_matching.specs.Order.{IsOrder};
ghost use Rattle.demand_matching.specs.Table.{IsTable, IsServed, domains_of, may_take, admits_supply, supply_of};
ghost use Rattle.demand_matching.specs.Table.{owner_of, demands_in, supplies_in};
ghost use Rattle.demand_matching.specs.Search.{IsSearch, IsReached, IsMarked, IsTaken, IsFreeFor, GoesOn, Ends};
ghost use Rattle.demand_matching.specs.Listing.{ServesOne};

use crate::Domain;
use crate::order::Order;
use crate::sets::Sets;
use crate::windows::window;
use khe_base::bits::{clear_bit, has_bit, set_bit};

/// The domains of the demands, which demand has which supply, and the bits of the free supplies.
pub(crate) struct Table {
    pub(crate) times: Sets,
    pub(crate) resources: Sets,
    pub(crate) last: u32,
    pub(crate) width: u32,
    pub(crate) demands: Vec<Option<Domain>>,
    pub(crate) supplies: Vec<Option<u32>>,
    pub(crate) owners: Vec<Option<u32>>,
    pub(crate) free: Vec<u64>,
}

// By hand: an exit of a caller then has one call to prove, and not a drop for each field.
impl Drop for Table {
    fn drop(self) {
        let Table {
            times: _times,
            resources: _resources,
            last: _last,
            width: _width,
            demands: _demands,
            supplies: _supplies,
            owners: _owners,
            free: _free,
        } = self;
    }
}

/// How far a search has come: it began with the demands that stand in the order at `head` or later, and looks at what
/// the one at `place` may have.
#[derive(Clone, Copy)]
struct Stage {
    head: u32,
    place: u32,
}

/// What a search ended with.
pub(crate) enum Found {
    /// The demand at this place of the order may have this free supply.
    Open(u32, u32),
    /// This many demands are met, and all supplies that they may have are theirs.
    Closed(u32),
}

impl Table {
    /// The number of the supply of a resource at the time 0, moved on by the shift of the domain.
    pub(crate) fn row(&self, domain: Domain, resource: u32) -> usize
        ensures is { result ≡ resource * self.now.last + domain.shift }
        ensures small { result ≤ 2 ^ 64 - 2 ^ 32 }
    {
        resource as usize * self.last as usize + domain.shift as usize
    }

    /// A free supply of one resource that the domain admits.
    fn free_at(&self, domain: Domain, resource: u32) -> Option<u32>
        requires table { IsTable self.now }
        requires domain { IsInRange (domains_of self.now) domain }
        requires picked { is_picked self.now.resources domain.resources resource ≡ true }
        ensures { MatchOption result ((time : ℕ) → is_picked self.now.times domain.times time ≡ true
            → is_set self.now.free.items (resource * self.now.last + domain.shift + time) ≡ false)
            (IsFreeFor self.now domain) }
    {
        let row = self.row(domain, resource);
        let (first, end) = self.times.span(domain.times);
        for k in first..end {
            let free = window(self.free.as_slice(), row + 64 * k)
                & self.times.word(domain.times, k);
            if free != 0 {
                let supply = row + 64 * k + free.trailing_zeros() as usize;
                return Some(supply as u32);
            }
        }
        None
    }

    /// A free supply that the domain admits, of one of its resources from an index on, before
    /// another.
    fn free_between(&self, domain: Domain, first: usize, end: usize) -> Option<u32>
        requires table { IsTable self.now }
        requires domain { IsInRange (domains_of self.now) domain }
        requires end { end ≤ length (picked self.now.resources domain.resources) }
        ensures { MatchOption result ((j time : ℕ) → first ≤ j → j < end
            → is_picked self.now.times domain.times time ≡ true
            → is_set self.now.free.items (slice_index (picked self.now.resources domain.resources)
            j * self.now.last + domain.shift + time) ≡ false) (IsFreeFor self.now domain) }
    {
        for i in first..end {
            let resource = self.resources.number(domain.resources, i);
            match self.free_at(domain, resource) {
                Some(supply) => return Some(supply),
                None => {}
            }
        }
        None
    }

    /// A free supply that the domain admits. It looks first at a resource that depends on the
    /// demand, so that demands with the same domain find free supplies at once.
    fn free_in(&self, domain: Domain, demand: u32) -> Option<u32>
        requires table { IsTable self.now }
        requires domain { IsInRange (domains_of self.now) domain }
        ensures { MatchOption result ((supply : ℕ) → admits_supply (domains_of self.now) domain supply ≡ true
            → owner_of self.now supply ≡ None → ⊥) (IsFreeFor self.now domain) }
    {
        let count = self.resources.count(domain.resources);
        if count == 0 {
            return None;
        }
        let start = demand as usize % count;
        match self.free_between(domain, start, count) {
            Some(supply) => Some(supply),
            None => self.free_between(domain, 0, start),
        }
    }

    /// Looks at one supply that is not free: its demand is met from the one at a place of the
    /// order. The result is how many are met then.
    fn meet(
        &self,
        order: &mut Order,
        unseen: &mut Vec<u64>,
        stage: Stage,
        supply: u32,
        len: u32,
    ) -> u32
        requires table { IsTable self.now }
        requires search { IsSearch self.now stage.head order.old.demands.items order.old.spots.items
            order.old.met_from.items len }
        requires marked { IsMarked self.now order.old.spots.items unseen.old.items len }
        requires head { stage.head ≤ stage.place }
        requires place { stage.place < len }
        requires supply { supply < supplies_in self.now }
        requires allowed { may_take (domains_of self.now) (slice_index order.old.demands.items stage.place) supply
            ≡ true }
        requires taken { owner_of self.now supply ≡ None → ⊥ }
        ensures goes_on { GoesOn self.now stage.head order.old order.new unseen.new.items len result }
        ensures reached { IsReached self.now order.new.spots.items result supply }
    {
        let Some(demand) = self.owners[supply as usize] else {
            return len;
        };
        clear_bit(unseen, supply as usize);
        if order.spots[demand as usize] < len {
            return len;
        }
        order.put(demand, len);
        order.met_from[demand as usize] = stage.place;
        len + 1
    }

    /// Looks at the supplies, of 64, whose bits are set in a word.
    fn meet_word(
        &self,
        order: &mut Order,
        unseen: &mut Vec<u64>,
        stage: Stage,
        word: u64,
        from: usize,
        len: u32,
    ) -> u32
        requires table { IsTable self.now }
        requires search { IsSearch self.now stage.head order.old.demands.items order.old.spots.items
            order.old.met_from.items len }
        requires marked { IsMarked self.now order.old.spots.items unseen.old.items len }
        requires head { stage.head ≤ stage.place }
        requires place { stage.place < len }
        requires below { (i : ℕ) → i < 64 → has_bit word i ≡ true → from + i < supplies_in self.now }
        requires allowed { (i : ℕ) → i < 64 → has_bit word i ≡ true
            → may_take (domains_of self.now) (slice_index order.old.demands.items stage.place) (from + i) ≡ true }
        requires taken { IsTaken self.now (slice_index order.old.demands.items stage.place) }
        ensures goes_on { GoesOn self.now stage.head order.old order.new unseen.new.items len result }
        ensures reached { (i : ℕ) → i < 64 → has_bit word i ≡ true
            → IsReached self.now order.new.spots.items result (from + i) }
    {
        let mut met = len;
        if word != 0 {
            for i in 0..64u32 {
                if has_bit(word, i) {
                    let supply = (from + i as usize) as u32;
                    met = self.meet(order, unseen, stage, supply, met);
                }
            }
        }
        met
    }

    /// Looks at the supplies of one resource that the demand at a place of the order may have and
    /// that are not seen yet. None is free.
    fn meet_at(
        &self,
        order: &mut Order,
        unseen: &mut Vec<u64>,
        stage: Stage,
        domain: Domain,
        resource: u32,
        len: u32,
    ) -> u32
        requires table { IsTable self.now }
        requires search { IsSearch self.now stage.head order.old.demands.items order.old.spots.items
            order.old.met_from.items len }
        requires marked { IsMarked self.now order.old.spots.items unseen.old.items len }
        requires head { stage.head ≤ stage.place }
        requires place { stage.place < len }
        requires domain { domain_of (domains_of self.now) (slice_index order.old.demands.items stage.place)
            ≡ Some domain }
        requires picked { is_picked self.now.resources domain.resources resource ≡ true }
        requires taken { IsTaken self.now (slice_index order.old.demands.items stage.place) }
        ensures goes_on { GoesOn self.now stage.head order.old order.new unseen.new.items len result }
        ensures reached { (time : ℕ) → is_picked self.now.times domain.times time ≡ true
            → IsReached self.now order.new.spots.items result (resource * self.now.last + domain.shift + time) }
    {
        let row = self.row(domain, resource);
        let (first, end) = self.times.span(domain.times);
        let mut met = len;
        for k in first..end {
            let word = window(unseen.as_slice(), row + 64 * k) & self.times.word(domain.times, k);
            met = self.meet_word(order, unseen, stage, word, row + 64 * k, met);
        }
        met
    }

    /// Looks at all supplies that the demand at a place of the order may have and that are not
    /// seen yet. None is free.
    fn meet_all(
        &self,
        order: &mut Order,
        unseen: &mut Vec<u64>,
        stage: Stage,
        domain: Domain,
        len: u32,
    ) -> u32
        requires table { IsTable self.now }
        requires search { IsSearch self.now stage.head order.old.demands.items order.old.spots.items
            order.old.met_from.items len }
        requires marked { IsMarked self.now order.old.spots.items unseen.old.items len }
        requires head { stage.head ≤ stage.place }
        requires place { stage.place < len }
        requires domain { domain_of (domains_of self.now) (slice_index order.old.demands.items stage.place)
            ≡ Some domain }
        requires taken { IsTaken self.now (slice_index order.old.demands.items stage.place) }
        ensures goes_on { GoesOn self.now stage.head order.old order.new unseen.new.items len result }
        ensures reached { (supply : ℕ) → may_take (domains_of self.now)
            (slice_index order.old.demands.items stage.place) supply ≡ true
            → IsReached self.now order.new.spots.items result supply }
    {
        let mut met = len;
        for i in 0..self.resources.count(domain.resources) {
            let resource = self.resources.number(domain.resources, i);
            met = self.meet_at(order, unseen, stage, domain, resource, met);
        }
        met
    }

    /// Sets the bits of the supplies of the demands from a place of the order on, before another.
    pub(crate) fn unmark(&self, order: &Order, unseen: &mut Vec<u64>, from: u32, to: u32)
        requires table { IsTable self.now }
        requires order { IsOrder (demands_in self.now) order.now.demands.items order.now.spots.items }
        requires marked { IsMarked self.now order.now.spots.items unseen.old.items to }
        requires to { to ≤ demands_in self.now }
        ensures { IsMarked self.now order.now.spots.items unseen.new.items from }
    {
        for place in from..to {
            let demand = order.demands[place as usize];
            if let Some(supply) = self.supplies[demand as usize] {
                set_bit(unseen, supply as usize);
            }
        }
    }

    /// Looks for a free supply, from the first demands of the order that stand at `head` or later:
    /// these are met, and each demand that has a supply which a met one may have. The demands before
    /// `head` count as met, and nothing is looked at for them. The bits of the supplies that those
    /// met have are cleared, and set again where a free supply is found.
    ///
    /// It takes time in proportion to the demands met from `head` on and to the words of 64
    /// supplies that these may have.
    pub(crate) fn search(
        &self,
        order: &mut Order,
        unseen: &mut Vec<u64>,
        head: u32,
        left: u32,
    ) -> Found
        requires table { IsTable self.now }
        requires search { IsSearch self.now head order.old.demands.items order.old.spots.items order.old.met_from.items
            left }
        requires marked { IsMarked self.now order.old.spots.items unseen.old.items left }
        requires head { head ≤ left }
        ensures { Ends self.now order.old order.new unseen.new.items head left result }
    {
        let mut place = head;
        let mut met = left;
        while place < met {
            let demand = order.demands[place as usize];
            let Some(domain) = self.demands[demand as usize] else {
                unreachable!()
            };
            match self.free_in(domain, demand) {
                Some(supply) => {
                    self.unmark(order, unseen, left, met);
                    return Found::Open(place, supply);
                }
                None => met = self.meet_all(order, unseen, Stage { head, place }, domain, met),
            }
            place += 1;
        }
        Found::Closed(met)
    }

    /// Frees the supply of a demand, if it has one.
    fn release(&mut self, demand: u32) -> Option<u32>
        requires table { IsTable self.old }
        requires demand { demand < demands_in self.old }
        ensures table { IsTable self.new }
        ensures domains { domains_of self.new ≡ domains_of self.old }
        ensures result { result ≡ supply_of self.old demand }
        ensures none { supply_of self.new demand ≡ None }
        ensures others { (other : ℕ) → other ≢ demand → supply_of self.new other ≡ supply_of self.old other }
        ensures free { (supply : ℕ) → owner_of self.old supply ≡ None → owner_of self.new supply ≡ None }
        ensures freed { IfSome result (λ supply. (supply < supplies_in self.new) × (owner_of self.new supply ≡ None)) }
    {
        let supply = self.supplies[demand as usize]?;
        self.supplies[demand as usize] = None;
        self.owners[supply as usize] = None;
        set_bit(&mut self.free, supply as usize);
        Some(supply)
    }

    /// Gives a free supply to a demand that has none.
    fn give(&mut self, demand: u32, supply: u32)
        requires table { IsTable self.old }
        requires demand { demand < demands_in self.old }
        requires supply { supply < supplies_in self.old }
        requires none { supply_of self.old demand ≡ None }
        requires free { owner_of self.old supply ≡ None }
        requires allowed { may_take (domains_of self.old) demand supply ≡ true }
        ensures table { IsTable self.new }
        ensures domains { domains_of self.new ≡ domains_of self.old }
        ensures given { supply_of self.new demand ≡ Some supply }
        ensures others { (other : ℕ) → other ≢ demand → supply_of self.new other ≡ supply_of self.old other }
        ensures owners { (other : ℕ) → other ≢ supply → owner_of self.new other ≡ owner_of self.old other }
    {
        self.supplies[demand as usize] = Some(supply);
        self.owners[supply as usize] = Some(demand);
        clear_bit(&mut self.free, supply as usize);
    }

    /// Gives a free supply to the demand at a place of the order, its supply to the demand from
    /// which it was met, and so on to a demand that had none. The result is this one.
    pub(crate) fn shift(&mut self, order: &Order, head: u32, mut place: u32, mut supply: u32) -> u32
        requires table { IsTable self.old }
        requires head { head ≤ place }
        requires search { IsSearch self.old head order.now.demands.items order.now.spots.items order.now.met_from.items
            (place + 1) }
        requires supply { supply < supplies_in self.old }
        requires free { owner_of self.old supply ≡ None }
        requires allowed { may_take (domains_of self.old) (slice_index order.now.demands.items place) supply ≡ true }
        ensures table { IsTable self.new }
        ensures domains { domains_of self.new ≡ domains_of self.old }
        ensures one { ServesOne self.old self.new result }
        ensures after { head ≤ slice_index order.now.spots.items result }
    {
        loop {
            let demand = order.demands[place as usize];
            let old = self.release(demand);
            self.give(demand, supply);
            let Some(freed) = old else {
                return demand;
            };
            supply = freed;
            place = order.met_from[demand as usize];
        }
    }

    /// Whether the demand has a supply, and the domain admits it.
    pub(crate) fn is_served(&self, demand: u32, domain: Domain) -> bool
        requires table { IsTable self.now }
        requires demand { demand < demands_in self.now }
        requires domain { IsInRange (domains_of self.now) domain }
        ensures { result ≡ true → IsServed self.now demand domain }
    {
        let Some(supply) = self.supplies[demand as usize] else {
            return false;
        };
        let resource = supply / self.last;
        let time = supply % self.last;
        if time < domain.shift {
            return false;
        }
        self.resources.has(domain.resources, resource)
            && self.times.has(domain.times, time - domain.shift)
    }

    /// Takes away the domain of a demand, and its supply, which is the result.
    pub(crate) fn drop_domain(&mut self, demand: u32) -> Option<u32>
        requires table { IsTable self.old }
        requires demand { demand < demands_in self.old }
        ensures table { IsTable self.new }
        ensures domains { domains_of self.new ≡ with_domain (domains_of self.old) demand None }
        ensures result { result ≡ supply_of self.old demand }
        ensures none { supply_of self.new demand ≡ None }
        ensures others { (other : ℕ) → other ≢ demand → supply_of self.new other ≡ supply_of self.old other }
    {
        let supply = self.release(demand);
        self.demands[demand as usize] = None;
        supply
    }

    /// Gives a demand a domain. It keeps its supply, which the domain is to admit.
    pub(crate) fn put_domain(&mut self, demand: u32, domain: Domain)
        requires table { IsTable self.old }
        requires demand { demand < demands_in self.old }
        requires domain { IsInRange (domains_of self.old) domain }
        requires supply { (supply : ℕ) → supply_of self.old demand ≡ Some supply
            → admits_supply (domains_of self.old) domain supply ≡ true }
        ensures table { IsTable self.new }
        ensures domains { domains_of self.new ≡ with_domain (domains_of self.old) demand (Some domain) }
        ensures supplies { self.new.supplies ≡ self.old.supplies }
        ensures owners { self.new.owners ≡ self.old.owners }
    {
        self.demands[demand as usize] = Some(domain);
    }
}
