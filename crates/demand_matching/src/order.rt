//! The demands in the order of a search.

ghost use Rattle.std.specs.Prelude.{◌≡◌, ◌<◌, length, IfOk};
ghost use Rattle.demand_matching.specs.Order.{IsOrder, ChangesPlaces, IsCountedUp};

use khe_base::NoMemory;
use std::alloc::Global;

/// The demands in an order, each once, and at which place each stands. For a demand that a search
/// met it also has the place of the demand from which it was met.
#[derive(Drop)]
pub(crate) struct Order {
    pub(crate) demands: Vec<u32>,
    pub(crate) spots: Vec<u32>,
    pub(crate) met_from: Vec<u32>,
}

impl Order {
    /// The demands below the count, in order.
    pub(crate) fn new(alloc: Global, count: u32) -> Result<Order, NoMemory>
        ensures order { IfOk result (λ o. IsOrder count o.demands.items o.spots.items) }
        ensures met_from { IfOk result (λ o. length o.met_from.items ≡ count) }
    {
        Ok(Order {
            demands: numbers(alloc, count)?,
            spots: numbers(alloc, count)?,
            met_from: vec![in alloc; 0; count as usize]?,
        })
    }

    /// Puts a demand at a place, and the one that stood there where the demand stood.
    pub(crate) fn put(&mut self, demand: u32, place: u32)
        requires order { IsOrder (length self.old.demands.items) self.old.demands.items self.old.spots.items }
        requires demand { demand < length self.old.demands.items }
        requires place { place < length self.old.demands.items }
        ensures order { IsOrder (length self.old.demands.items) self.new.demands.items self.new.spots.items }
        ensures change { ChangesPlaces self.old.demands.items self.old.spots.items self.new.demands.items self.new.spots.items demand place }
        ensures met_from { self.new.met_from ≡ self.old.met_from }
    {
        let from = self.spots[demand as usize];
        let other = self.demands[place as usize];
        self.demands[place as usize] = demand;
        self.demands[from as usize] = other;
        self.spots[other as usize] = from;
        self.spots[demand as usize] = place;
    }
}

/// The numbers below the count, in order.
fn numbers(alloc: Global, count: u32) -> Result<Vec<u32>, NoMemory>
    ensures { IfOk result (λ v. IsCountedUp count v.items) }
{
    let mut numbers = Vec::new(alloc);
    for n in 0..count {
        numbers.push(n)?;
    }
    Ok(numbers)
}
