//! A job with what it asks for.
ghost use Rattle.std.specs.Prelude.{◌≡◌, IfOk, All, length};
ghost use Rattle.job_ends.specs.Jobs.{job_view};
ghost use Rattle.asked_exports.specs.Asked.{names_rise, asked, asked_of, cut_all, are_small, asked_job};

use crate::asking::asked_names;
use crate::cutting::{cut_all, is_small};
use check_values::Sig;
use flow_values::{List, NoMemory, Path, Shared};
use job_ends::MergeJob;
use std::alloc::Global;

// Whether all signatures are handed on whole.
fn are_small(rows: &[(Path, Shared<Sig>)]) -> bool
    ensures { result ≡ are_small rows.now }
{
    for i in 0..rows.len() {
        if !is_small(rows[i].1.get()) {
            return false;
        }
    }
    true
}

// The signatures outside of a job, with what it asks for.
fn asked_outside(alloc: Global, job: &MergeJob) -> Result<List<(Path, Shared<Sig>)>, NoMemory>
    requires { All (λ row. names_rise row.1.exports) job.now.outside }
    ensures { IfOk result (λ outside. outside ≡ cut_all (asked_of (asked (job_view job.now))) job.now.outside) }
{
    let names = asked_names(alloc, job)?;
    cut_all(alloc, names, job.outside.as_slice())
}

/// A job with what its members ask for: of a signature outside with many exports it has those rows alone, so merging takes time in
/// proportion to what is asked and not to what is exported. Each row is found by halving, so the names are to rise, as those of merged
/// signatures do. Where all signatures have few exports the job stays as it is.
///
/// # Errors
///
/// `NoMemory` where memory is refused.
#[tactic(auto, using(crate::proofs::Outside::small_whole))]
pub fn asked_job(alloc: Global, job: MergeJob) -> Result<MergeJob, NoMemory>
    requires { All (λ row. names_rise row.1.exports) job.outside }
    ensures job { IfOk result (λ own. job_view own ≡ asked_job (job_view job)) }
    ensures many { IfOk result (λ own. length own.members ≡ length job.members) }
{
    if are_small(job.outside.as_slice()) {
        return Ok(job);
    }
    let outside = asked_outside(alloc, &job)?;
    let MergeJob {
        members,
        outside: _,
    } = job;
    Ok(MergeJob { members, outside })
}
