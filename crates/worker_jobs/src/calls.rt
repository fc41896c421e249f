ghost use Rattle.std.specs.Prelude.{◌≡◌, ◌<◌, IfOk, length, map, sum_by};
ghost use Rattle.std.specs.List.{AllZip};
ghost use Rattle.tree_crossing.specs.source_front.specs.Front.{IsParse};
ghost use Rattle.merged_signatures.specs.Job.{job_signatures};
ghost use Rattle.job_ends.specs.Jobs.{job_view};
ghost use Rattle.job_crew.specs.analyst.specs.Work.{merging, fronts_of, checks_of};
ghost use Rattle.job_crew.specs.work_shares.specs.Shares.{AreWorked};
ghost use Rattle.worker_jobs.specs.Checking.{HasErrors};

use crate::kinds::{Checks, Fronts, Merges};
use check_values::{Errs, Sig};
use flow_values::{List, NoMemory, Text};
use job_crew::analyst::Analyst;
use job_crew::run_all;
use job_ends::MergeJob;
use std::alloc::Global;
use std::sync::Wait;
use std::thread::Threads;
use tree_crossing::check_job::CheckJob;
use tree_crossing::source_front::Parse;

/// What each of some sources says by itself, in order, by at least one analyst. Each analyst works in a thread of its own, where one can
/// be had, and the result is the same for any number of them.
///
/// # Errors
///
/// `NoMemory` where memory is refused.
pub fn run_fronts<R: Threads + Wait + Sync, A: Analyst + Send>(
    rt: &R,
    alloc: Global,
    analysts: &mut [A],
    jobs: &[Text],
) -> Result<List<Parse>, NoMemory>
    requires { 0 < length analysts.old }
    ensures parses { IfOk result (AllZip (λ text parse. IsParse text parse) jobs.now) }
    ensures work { AreWorked result (fronts_of (length jobs.now)) (map A.work analysts.old) (map A.work analysts.new) }
{
    run_all::<R, A, Text, Parse, Fronts>(rt, alloc, analysts, jobs)
}

/// The merged signatures of each of some jobs, in order, as `run_fronts` has its answers. The work is the number of all members.
///
/// # Errors
///
/// `NoMemory` where memory is refused.
pub fn run_merges<R: Threads + Wait + Sync, A: Analyst + Send>(
    rt: &R,
    alloc: Global,
    analysts: &mut [A],
    jobs: &[MergeJob],
) -> Result<List<List<Sig>>, NoMemory>
    requires { 0 < length analysts.old }
    ensures signatures { IfOk result (λ all. all ≡ map (λ job. job_signatures (job_view job)) jobs.now) }
    ensures work { AreWorked result (merging (sum_by (λ job. length job.members) jobs.now)) (map A.work analysts.old) (map A.work analysts.new) }
{
    run_all::<R, A, MergeJob, List<Sig>, Merges>(rt, alloc, analysts, jobs)
}

/// The errors of the module of each of some jobs, in order, as `run_fronts` has its answers.
///
/// # Errors
///
/// `NoMemory` where memory is refused.
pub fn run_checks<R: Threads + Wait + Sync, A: Analyst + Send>(
    rt: &R,
    alloc: Global,
    analysts: &mut [A],
    jobs: &[CheckJob],
) -> Result<List<Errs>, NoMemory>
    requires { 0 < length analysts.old }
    ensures errors { IfOk result (AllZip HasErrors jobs.now) }
    ensures work { AreWorked result (checks_of (length jobs.now)) (map A.work analysts.old) (map A.work analysts.new) }
{
    run_all::<R, A, CheckJob, Errs, Checks>(rt, alloc, analysts, jobs)
}
