//! The entries of each event, as chains of numbers.

ghost use Rattle.std.specs.Prelude.{◌≡◌, ◌<◌, ℕ, length, IfOk, get_or, replicate};
ghost use Rattle.xhstt_completion.specs.Chains.{IsChain};
ghost use Rattle.xhstt_completion.specs.Entries.{entries_of};
ghost use Rattle.xhstt_completion.specs.Found.{NameEvents};

use khe_base::NoMemory;
use khe_instance::Instance;
use std::alloc::Global;
use xhstt_references::Named;
use xhstt_shape::EntryView;

/// For each event the number of its first entry, and for each entry the number of the next one of the
/// same event. The number of all entries stands for none.
#[derive(Drop)]
pub(crate) struct Chains {
    pub firsts: Vec<usize>,
    pub nexts: Vec<usize>,
}

/// The chains of entries, by what they name. It takes time and memory in proportion to the events and
/// the entries.
pub(crate) fn chained(
    alloc: Global,
    inst: &Instance,
    entries: &[EntryView<'_>],
    named: &[Named],
) -> Result<Chains, NoMemory>
    requires many { length named.now ≡ length entries.now }
    requires events { NameEvents inst.now entries.now named.now }
    ensures firsts { IfOk result (λ c. length c.firsts.items ≡ length inst.now.events) }
    ensures nexts { IfOk result (λ c. length c.nexts.items ≡ length entries.now) }
    ensures chains { IfOk result (λ c. (e : ℕ) → e < length inst.now.events → IsChain entries.now c.nexts.items 0 (get_or c.firsts.items e 0) (entries_of inst.now e entries.now)) }
{
    let none = entries.len();
    let mut chains = Chains {
        firsts: vec![in alloc; none; inst.events() as usize]?,
        nexts: vec![in alloc; none; none]?,
    };
    let firsts = chains.firsts.as_mut_slice();
    link(inst, entries, named, firsts, chains.nexts.as_mut_slice());
    Ok(chains)
}

/// Links the entries from the last one back, each before those of its event that follow it.
fn link(
    _inst: &Instance,
    _entries: &[EntryView<'_>],
    named: &[Named],
    firsts: &mut [usize],
    nexts: &mut [usize],
)
    requires many { length named.now ≡ length _entries.now }
    requires events { NameEvents _inst.now _entries.now named.now }
    requires firsts { firsts.old ≡ replicate (length _inst.now.events) (length _entries.now) }
    requires nexts { length nexts.old ≡ length _entries.now }
    ensures firsts { length firsts.new ≡ length _inst.now.events }
    ensures nexts { length nexts.new ≡ length _entries.now }
    ensures chains { (e : ℕ) → e < length _inst.now.events → IsChain _entries.now nexts.new 0 (get_or firsts.new e 0) (entries_of _inst.now e _entries.now) }
{
    let mut at = named.len();
    while at > 0 {
        at -= 1;
        let event = named[at].event.0 as usize;
        nexts[at] = firsts[event];
        firsts[event] = at;
    }
}
