ghost use Rattle.std.specs.Prelude.{IfOk};
ghost use Rattle.check_values.specs.Rows.{row_at};
ghost use Rattle.check_job.specs.Jobs.{source_of};
ghost use Rattle.shown_types.specs.Shown.{IsTypeIn};

use check_job::CheckJob;
use flow_values::NoMemory;
use type_values::FlowType;

/// Who tells types at places. The answer is the definition's, so it doesn't matter which analyst gave it, and to give it counts as no
/// work.
pub trait PlaceAnalyst {
    /// The type at a byte place of a job's module, by the parse and the merged signatures that the job has: that of the innermost
    /// expression that is read and covers the byte, and `None` where there is none. A source without a tree has none.
    ///
    /// # Errors
    ///
    /// `NoMemory` where memory is refused.
    fn type_at(&self, job: &CheckJob, at: u32) -> Result<Option<FlowType>, NoMemory>
        ensures ty { IfOk result (λ ty. IsTypeIn job.now.path job.now.deps (source_of job.now) (row_at job.now.sigs.rows) at ty) };
}

/// Makes analysts.
pub trait AnalystMaker<A> {
    /// An analyst more. It takes no memory.
    fn make(&self) -> A;
}
