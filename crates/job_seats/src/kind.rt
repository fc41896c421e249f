ghost use Rattle.std.specs.Prelude.{IfOk};
ghost use Rattle.work_shares.specs.analyst.specs.Work.{Work, Works, IsCounted};

use flow_values::NoMemory;

/// A kind of jobs for those who do them. An answer is right whoever gave it.
pub trait Kind<A, J, X> {
    /// What a job has to meet.
    ghost ready: { J → Type 0 };

    /// What an answer to a job is.
    ghost answers: { J → X → Type 0 };

    /// How much work a job is.
    ghost work_of: { J → Work };

    /// How much work one of them has done.
    ghost work: { A → Work };

    /// About how long an answer to a job takes, in the time that a byte of a source takes to be checked. How many threads are started goes
    /// by it, and no answer.
    fn size(job: &J) -> usize;

    /// An answer to a job.
    ///
    /// # Errors
    ///
    /// `NoMemory` where memory is refused.
    fn answer(analyst: &mut A, job: &J) -> Result<X, NoMemory>
        requires { ready job.now }
        ensures answer { IfOk result (answers job.now) }
        ensures work { Works result (work_of job.now) (work analyst.old) (work analyst.new) };

    /// The counts stay within their type.
    ghost bounded: { (analyst : A) → IsCounted (work analyst) };
}
