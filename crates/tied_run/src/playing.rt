//! A timetable with ties as what a script is run on.

ghost use Rattle.std.specs.Prelude.{refl};
ghost use Rattle.tied_run.specs.Plays.{tied_play_of};
ghost use Rattle.tied_run.specs.Scripts as spec;

use crate::answering::carry_out;
use followers::{Tied, read_tied_line};
use khe_base::Text;
use khe_io::Cut;
use khe_told::Steps;
use script_run::{Onward, Player, Shortages, fault_line};
use std::alloc::Global;
use std::sync::ledger::Ledger;

/// A timetable with ties on which a script is run: `script_run::run` reads its lines by the wider table.
pub struct TiedPlayer<'i, F: Shortages> {
    pub tied: Tied<'i, F>,
}

// By hand: an exit of a caller then has one call to prove, and not a drop for each field.
impl<'i, F: Shortages + Drop> Drop for TiedPlayer<'i, F> {
    fn drop(self) {
        let TiedPlayer { tied: _tied } = self;
    }
}

impl<'i, F: Shortages> Player for TiedPlayer<'i, F> {
    ghost answers = { λ t. spec.tied_answers t.tied.parts (tied_play_of t.tied) };

    ghost reads = { spec.tied_reads };

    ghost ends = { λ t number. refl };

    fn play_line<L: Ledger, G: Onward>(
        &mut self,
        alloc: Global,
        line: &[u8],
        number: u32,
        text: &mut Text,
        onward: &mut G,
        steps: &mut Steps<L>,
    ) -> Result<bool, Cut> {
        match read_tied_line(line) {
            Ok(command) => {
                carry_out(alloc, &mut self.tied, command, text, onward, steps)?;
                Ok(true)
            }
            Err(fault) => {
                text.push_text(&fault_line(alloc, u64::from(number), fault)?)?;
                Ok(false)
            }
        }
    }
}
