//! The page on its way to a sink, piece by piece.

ghost use Rattle.std.specs.Prelude.{◌≡◌, ◌++◌, ℕ, List, [], Option, OnOk, IsErrOf};
ghost use Rattle.khe_io.specs.Amid.{IsAmid};
ghost use Rattle.khe_io.specs.Faults.{Rose};

use khe_base::Text;
use khe_io::{Cut, Sink, put_all};

/// Gives the next piece of a page to the sink at once.
pub(crate) fn send<K: Sink>(out: &mut K, text: &Text) -> Result<(), Cut>
    ensures amid { (before : Option (List ℕ)) (rest whole : List ℕ) → IsAmid before (K.taken out.old) [] (text.now ++ rest) whole → OnOk result (IsAmid before (K.taken out.new) [] rest whole) }
    ensures fault { IsErrOf result Cut.WriteFault → Rose (K.faults out.old) (K.faults out.new) }
    ensures faultless { OnOk result (K.faults out.new ≡ K.faults out.old) }
    ensures faultless_starved { IsErrOf result Cut.NoMemory → K.faults out.new ≡ K.faults out.old }
{
    put_all(out, text.as_bytes())?;
    Ok(())
}
