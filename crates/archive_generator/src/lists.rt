//! Lists in memory of their exact size.

ghost use Rattle.std.specs.Prelude.{◌≡◌, ◌∷◌, [], IfOk, IsTrue};
ghost use Rattle.khe_base.specs.Text.{is_ascii};
ghost use Rattle.archive_generator.specs.Names as spec;

use crate::names::{to, to_numbered};
use khe_base::{NoMemory, Seq};
use std::alloc::Global;
use xhstt_shape::Ref;

/// An empty list with room for the given number of elements.
pub(crate) fn roomy<T>(alloc: Global, count: usize) -> Result<Seq<T>, NoMemory>
    ensures { IfOk result (λ list. list ≡ []) }
{
    Ok(Seq {
        items: Vec::with_capacity(alloc, count)?,
    })
}

/// A list of one element.
pub(crate) fn one<T: Drop>(alloc: Global, only: T) -> Result<Seq<T>, NoMemory>
    ensures { IfOk result (λ list. list ≡ only ∷ []) }
{
    let mut list = roomy(alloc, 1)?;
    list.push(only)?;
    Ok(list)
}

/// A list of one reference.
pub(crate) fn to_one(alloc: Global, id: &str) -> Result<Seq<Ref>, NoMemory>
    requires { IsTrue (is_ascii id.now) }
    ensures { IfOk result (λ list. list ≡ spec.to id.now ∷ []) }
{
    one(alloc, to(alloc, id)?)
}

/// References by a word and each number below a count.
#[tactic(auto, using(crate::proofs::ListLemmas::below_none, crate::proofs::ListLemmas::below_more))]
pub(crate) fn to_each(alloc: Global, word: &str, count: u32) -> Result<Seq<Ref>, NoMemory>
    requires { IsTrue (is_ascii word.now) }
    ensures { IfOk result (λ list. list ≡ spec.to_each word.now count) }
{
    let mut list = roomy(alloc, count as usize)?;
    for number in 0..count {
        list.push(to_numbered(alloc, word, number)?)?;
    }
    Ok(list)
}
