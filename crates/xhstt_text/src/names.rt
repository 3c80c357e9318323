//! The names of the attributes of one tag, of which no two are the same.

ghost use Rattle.std.specs.Prelude.{◌≡◌, ◌∷◌, [], List, ℕ, not, IfOk, OnOk};
ghost use Rattle.xhstt_text.specs.Document.{has_name};
ghost use Rattle.xhstt_text.specs.Reading.{Holds};

use khe_base::NoMemory;
use std::alloc::Global;
use std::collections::BTreeSet;

/// The names of the attributes of one tag so far. Most tags have at most one, which takes no memory.
#[derive(Drop)]
pub struct Names<'a> {
    pub first: Option<&'a [u8]>,
    pub others: BTreeSet<&'a [u8]>,
}

/// No names. It takes no memory.
pub fn no_names<'a>(alloc: Global) -> Names<'a>
    ensures { Holds result [] }
{
    Names {
        first: None,
        others: BTreeSet::new(alloc),
    }
}

/// Adds a name, and says whether it is new.
pub fn add_name<'a>(names: &mut Names<'a>, name: &'a [u8]) -> Result<bool, NoMemory>
    ensures new { (known : List (List ℕ)) → Holds names.old known → IfOk result (λ added. added ≡ not (has_name name.now known)) }
    ensures added { (known : List (List ℕ)) → Holds names.old known → OnOk result (Holds names.new (name.now ∷ known)) }
{
    match names.first {
        None => {
            names.first = Some(name);
            Ok(!names.others.contains(name))
        }
        Some(first) => {
            if name == first {
                return Ok(false);
            }
            Ok(names.others.insert(name)?)
        }
    }
}
