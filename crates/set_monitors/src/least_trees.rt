//! Numbers by place, with the least of them.

ghost use Rattle.std.specs.Prelude.{◌≡◌, ◌<◌, ◌*◌, ◌^◌, length, drop, fold, min, replicate, slice_set, IfOk};
ghost use Rattle.set_monitors.specs.LeastTrees.{IsMended, IsTree};

use khe_base::NoMemory;
use std::alloc::Global;
use std::marker::Model;

/// What stands for no number. No number that is kept is greater.
pub(crate) const NOTHING: u32 = u32::MAX;

/// Numbers by place, with the least of them. Contracts see their list.
#[derive(Drop)]
pub(crate) struct Least {
    /// Node 0 is not used. Node i is the less of nodes 2 i and 2 i + 1, and the last half are the
    /// numbers.
    nodes: Vec<u32>,
    size: usize,
}

impl Model for Least {
    ghost use Rattle.std.specs.Prelude.{List, ℕ, drop};
    ghost use Rattle.set_monitors.specs.LeastTrees.{IsTree};

    ghost Value = { List ℕ };

    ghost view = { λ t. drop t.size t.nodes.items };

    ghost invariant = { λ t. IsTree t.size t.nodes.items };
}

impl Least {
    /// The given number of places without a number. It takes time and memory in proportion to them.
    pub(crate) fn open(alloc: Global, size: u32) -> Result<Least, NoMemory>
        ensures { IfOk result (λ t. t ≡ replicate size NOTHING) }
    {
        let size = size as usize;
        let nodes = vec![in alloc; NOTHING; 2 * size]?;
        Ok(Least { nodes, size })
    }

    /// Puts another number at a place, in time in proportion to the logarithm of the places.
    pub(crate) fn set(&mut self, place: usize, number: u32)
        requires { place < length self.old }
        ensures { self.new ≡ slice_set self.old place number }
    {
        let leaf = self.size + place;
        self.nodes[leaf] = number;
        mend(&mut self.nodes, self.size, leaf);
    }

    /// The least of the numbers, or `NOTHING` where there is none. It takes constant time.
    pub(crate) fn least(&self) -> u32
        ensures { result ≡ fold min NOTHING self.now }
    {
        if self.size == 0 {
            return NOTHING;
        }
        self.nodes[1]
    }
}

/// Mends the nodes above one.
fn mend(nodes: &mut Vec<u32>, size: usize, leaf: usize)
    requires size { length nodes.old.items ≡ 2 * size }
    requires leaf { leaf < 2 * size }
    requires small { size < 2 ^ 32 }
    requires broken { IsMended size nodes.old.items leaf }
    ensures mended { IsTree size nodes.new.items }
    ensures leaves { drop size nodes.new.items ≡ drop size nodes.old.items }
{
    let mut i = leaf;
    while i > 1 {
        i /= 2;
        nodes[i] = nodes[2 * i].min(nodes[2 * i + 1]);
    }
}
