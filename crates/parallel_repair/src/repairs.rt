//! The jobs of a solve.

use crate::answers::Answer;
use crate::jobs::{open_marked, run_job};
use crate::works::Work;
use khe_base::NoMemory;
use khe_engine::Engine;
use khe_instance::{Instance, Plain};
use khe_told::{Blank, Family};
use std::alloc::Global;
use std::marker::{Brand, PhantomData};

/// Repairs of one timetable to one depth and budget. The number of a job is its diversifier.
#[derive(Drop)]
pub(crate) struct Repairs<'a, F: Family> {
    pub(crate) inst: &'a Instance,
    pub(crate) start: &'a Plain,
    pub(crate) depth: u32,
    pub(crate) budget: u64,
    pub(crate) families: PhantomData<F>,
}

impl<'a, F: Family + Drop + Send + Sync> Work for Repairs<'a, F> {
    ghost use Rattle.khe_engine.specs.Values.{ServesAll};
    ghost use Rattle.khe_instance.specs.States.{IsValid};
    ghost use Rattle.parallel_repair.specs.Jobs.{IsDesk, IsRepair, job_answer};

    type Desk = Engine<'a, F>;

    ghost answer = { λ w n. job_answer w.inst.now w.start.now w.depth w.budget n };

    ghost IsSound = { λ w. F.IsWellJoined × ServesAll F.serves_kind × IsRepair w.inst.now w.start.now w.depth w.budget };

    ghost IsFit = { λ w plain. IsValid w.inst.now plain };

    ghost IsReady = { λ w e. IsRepair w.inst.now w.start.now w.depth w.budget × IsDesk w.inst.now w.start.now e };

    fn open(&self, alloc: Global) -> Result<Engine<'a, F>, NoMemory> {
        open_marked::<F>(alloc, self.inst, self.start)
    }

    fn run(&self, alloc: Global, desk: &mut Engine<'a, F>, job: u64) -> Result<Answer, NoMemory> {
        run_job::<F, Brand>(alloc, desk, self.depth, self.budget, job, Blank::new(1))
    }
}
