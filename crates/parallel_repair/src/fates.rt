//! What became of each job.

ghost use Rattle.std.specs.Prelude.{◌≡◌, ℕ, ◌<◌, ◌≤◌, All, IfOk, replicate};
ghost use Rattle.khe_base.specs.declared.limits.TheConstants.{JOBS};
ghost use Rattle.parallel_repair.specs.Worked.{IsRow};
ghost use Rattle.parallel_repair.specs.Fates.{AreFates};
ghost use Rattle.parallel_repair.specs.declared.answers.Answer.{Answer};
ghost use Rattle.parallel_repair.specs.declared.answers.Fate.TheVariants.{Skipped};

use crate::answers::{Fate, Row};
use khe_base::{NoMemory, Seq};
use std::alloc::Global;

/// The fates of jobs that were all left out.
fn all_skipped(alloc: Global, jobs: u64, by: u64) -> Result<Vec<Fate>, NoMemory>
    requires { jobs ≤ JOBS }
    ensures { IfOk result (λ fates. fates.items ≡ replicate jobs (Skipped by)) }
{
    let mut fates = Vec::with_capacity(alloc, jobs as usize)?;
    for _ in 0..jobs {
        fates.push(Fate::Skipped { by })?;
    }
    Ok(fates)
}

/// The fates of the jobs: those of these rows ran, and each other one was left out for one.
pub(crate) fn fates_of(
    alloc: Global,
    jobs: u64,
    rows: &[Row],
    by: u64,
) -> Result<Seq<Fate>, NoMemory>
    requires jobs { jobs ≤ JOBS }
    requires rows { All (λ r. r.job < jobs) rows.now }
    ensures { (answer : ℕ → Answer) → All (IsRow answer jobs) rows.now → IfOk result (λ fates. AreFates answer jobs rows.now by fates) }
{
    let mut fates = all_skipped(alloc, jobs, by)?;
    for row in rows {
        fates[row.job as usize] = Fate::Ran(row.totals);
    }
    Ok(Seq { items: fates })
}
