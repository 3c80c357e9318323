//! The trait of work in numbered jobs.

use crate::answers::Answer;
use khe_base::NoMemory;
use std::alloc::Global;

/// Work in jobs with numbers. Each worker does its jobs one after another at a desk of its own. What
/// a job comes to depends on its number alone, and not on who does it, when, or after which others.
pub trait Work: Sync {
    ghost use Rattle.std.specs.Prelude.{ℕ, ◌≡◌, IfOk, OnOk};
    ghost use Rattle.khe_instance.specs.declared.states.Plain.{Plain};
    ghost use Rattle.parallel_repair.specs.declared.answers.Answer.{Answer};

    /// What a worker keeps from job to job.
    type Desk: Drop + Send;

    /// What the job with a number comes to.
    ghost answer: { Self → ℕ → Answer };

    /// The work can be done.
    ghost IsSound: { Self → Type 0 };

    /// What is known of each timetable that a job comes to.
    ghost IsFit: { Self → Plain → Type 0 };

    /// The desk belongs to this work and is ready for a job.
    ghost IsReady: { Self → Self.Desk → Type 0 };

    /// A desk for one worker. It fails only where memory is refused.
    fn open(&self, alloc: Global) -> Result<Self::Desk, NoMemory>
        requires { IsSound self.now }
        ensures { IfOk result (IsReady self.now) };

    /// Does the job with this number, and leaves the desk ready for another one. It fails only where memory is
    /// refused, after which the desk is of no use.
    fn run(&self, alloc: Global, desk: &mut Self::Desk, job: u64) -> Result<Answer, NoMemory>
        requires { IsReady self.now desk.old }
        ensures answer { IfOk result (λ a. a ≡ answer self.now job) }
        ensures fit { IfOk result (λ a. IsFit self.now a.plain) }
        ensures ready { OnOk result (IsReady self.now desk.new) };
}
