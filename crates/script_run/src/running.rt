//! A whole script.

ghost use Rattle.std.specs.Prelude.{◌≡◌, ◌≤◌, ◌++◌, ◌<◌, ◌^◌, ◌-◌, ◌+◌, ◌∷◌, ℕ, List, Option, true, IfOk, IsErrOf, OnErr, OnOk, encode_utf8_all, length};
ghost use Rattle.std.specs.List.{list_all};
ghost use Rattle.khe_io.specs.Faults.{Rose, Took, TookFront};
ghost use Rattle.edit_script.specs.Lines.{lines};

use crate::players::Player;
use edit_script::first_line;
use khe_base::Text;
use khe_io::{Cut, Sink, flush, flush_long};
use khe_told::{Blank, Steps};
use std::alloc::Global;
use std::marker::Brand;
use std::sync::ledger::Ledger;

/// Runs a script on a player, and writes its answers to the sink. The answer is whether it was read to its
/// end: a line without a reading ends it, after the answers to the lines before it and the line that says why.
pub fn run<P: Player, K: Sink>(
    alloc: Global,
    player: &mut P,
    script: &[u8],
    out: &mut K,
) -> Result<bool, Cut>
    requires few { length script.now < 2 ^ 32 - 1 }
    ensures read { IfOk result (λ read. read ≡ list_all P.reads (lines script.now)) }
    ensures whole { OnOk result (Took (K.taken out.old) (K.taken out.new) (encode_utf8_all (P.answers player.old 1 (lines script.now)))) }
    ensures front { OnErr result (TookFront (K.taken out.old) (K.taken out.new) (encode_utf8_all (P.answers player.old 1 (lines script.now)))) }
    ensures fault { IsErrOf result Cut.WriteFault → Rose (K.faults out.old) (K.faults out.new) }
    ensures faultless { OnOk result (K.faults out.new ≡ K.faults out.old) }
    ensures faultless_starved { IsErrOf result Cut.NoMemory → K.faults out.new ≡ K.faults out.old }
    ensures counted { K.faults out.old ≤ K.faults out.new }
{
    run_in_ledger::<P, K, Brand>(alloc, player, script, out, Blank::new(1))
}

/// The same, with the steps in a ledger of its own.
fn run_in_ledger<P: Player, K: Sink, L: Ledger>(
    alloc: Global,
    player: &mut P,
    script: &[u8],
    out: &mut K,
    blank: Blank,
) -> Result<bool, Cut>
    requires name { blank.name ≡ L.name }
    requires shares { blank.parts ≡ L.parts }
    requires some { 0 < blank.parts }
    requires few { length script.now < 2 ^ 32 - 1 }
    ensures read { IfOk result (λ read. read ≡ list_all P.reads (lines script.now)) }
    ensures whole { OnOk result (Took (K.taken out.old) (K.taken out.new) (encode_utf8_all (P.answers player.old 1 (lines script.now)))) }
    ensures front { OnErr result (TookFront (K.taken out.old) (K.taken out.new) (encode_utf8_all (P.answers player.old 1 (lines script.now)))) }
    ensures fault { IsErrOf result Cut.WriteFault → Rose (K.faults out.old) (K.faults out.new) }
    ensures faultless { OnOk result (K.faults out.new ≡ K.faults out.old) }
    ensures faultless_starved { IsErrOf result Cut.NoMemory → K.faults out.new ≡ K.faults out.old }
    ensures counted { K.faults out.old ≤ K.faults out.new }
{
    let mut steps = Steps::<L>::new(blank);
    run_counting(alloc, player, script, out, &mut steps)
}

/// The same, with the steps counted for the caller: what the player takes and owes grows by no more than the lines
/// ahead make it, where its steps have a bound.
pub fn run_counting<P: Player, K: Sink, L: Ledger>(
    alloc: Global,
    player: &mut P,
    script: &[u8],
    out: &mut K,
    steps: &mut Steps<L>,
) -> Result<bool, Cut>
    requires few { length script.now < 2 ^ 32 - 1 }
    ensures read { IfOk result (λ read. read ≡ list_all P.reads (lines script.now)) }
    ensures whole { OnOk result (Took (K.taken out.old) (K.taken out.new) (encode_utf8_all (P.answers player.old 1 (lines script.now)))) }
    ensures front { OnErr result (TookFront (K.taken out.old) (K.taken out.new) (encode_utf8_all (P.answers player.old 1 (lines script.now)))) }
    ensures fault { IsErrOf result Cut.WriteFault → Rose (K.faults out.old) (K.faults out.new) }
    ensures faultless { OnOk result (K.faults out.new ≡ K.faults out.old) }
    ensures faultless_starved { IsErrOf result Cut.NoMemory → K.faults out.new ≡ K.faults out.old }
    ensures counted { K.faults out.old ≤ K.faults out.new }
    ensures steps { P.is_counted ≡ true → steps.new + P.owed player.new ≤ steps.old + P.owed player.old + P.ahead player.old (lines script.now) }
{
    let mut text = Text::new(alloc);
    let mut number: u32 = 0;
    let mut rest = script;
    while let Some((line, after)) = first_line(rest) {
        number += 1;
        rest = after;
        if !player.play_line(alloc, line, number, &mut text, out, steps)? {
            flush(alloc, out, &mut text)?;
            return Ok(false);
        }
        flush_long(alloc, out, &mut text)?;
    }
    flush(alloc, out, &mut text)?;
    Ok(true)
}
