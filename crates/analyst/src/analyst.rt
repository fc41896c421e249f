ghost use Rattle.std.specs.Prelude.{◌≡◌, IfOk, length};
ghost use Rattle.check_job.specs.source_front.specs.Front.{IsParse};
ghost use Rattle.merged_signatures.specs.Job.{job_signatures};
ghost use Rattle.job_ends.specs.Jobs.{job_view};
ghost use Rattle.check_job.specs.Jobs.{AreErrorsOf};
ghost use Rattle.analyst.specs.Work.{Work, Works, fronting, merging, checking, IsCounted};

use check_job::CheckJob;
use check_job::source_front::Parse;
use check_values::{Errs, Sig};
use flow_values::{List, NoMemory, Text};
use job_ends::MergeJob;

/// Who reads sources, merges signatures and checks modules. Each answer is the definition's, so it doesn't matter which analyst gave
/// it.
pub trait Analyst {
    /// How many sources it read, how many modules it merged and how many it checked, each up to 2^64 - 1.
    ghost work: { Self → Work };

    /// What a source says by itself.
    ///
    /// # Errors
    ///
    /// `NoMemory` where memory is refused.
    fn front(&mut self, text: &Text) -> Result<Parse, NoMemory>
        ensures parse { IfOk result (λ parse. IsParse text.now parse) }
        ensures work { Works result fronting (work self.old) (work self.new) };

    /// The merged signatures of a job's members, in their order.
    ///
    /// # Errors
    ///
    /// `NoMemory` where memory is refused.
    fn merge(&mut self, job: &MergeJob) -> Result<List<Sig>, NoMemory>
        ensures signatures { IfOk result (λ sigs. sigs ≡ job_signatures (job_view job.now)) }
        ensures work { Works result (merging (length job.now.members)) (work self.old) (work self.new) };

    /// The errors of a job's module, by the parse and the merged signatures that the job has.
    ///
    /// # Errors
    ///
    /// `NoMemory` where memory is refused.
    fn check(&mut self, job: &CheckJob) -> Result<Errs, NoMemory>
        ensures errors { IfOk result (λ errs. AreErrorsOf job.now errs.faults) }
        ensures work { Works result checking (work self.old) (work self.new) };

    /// The counts stay within their type.
    ghost bounded: { (analyst : Self) → IsCounted (work analyst) };
}
