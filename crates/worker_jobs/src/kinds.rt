use check_values::{Errs, Sig};
use flow_values::{List, NoMemory, Text};
use job_crew::analyst::Analyst;
use job_crew::job_seats::Kind;
use job_ends::{MergeJob, MergeMember};
use tree_crossing::check_job::CheckJob;
use tree_crossing::source_front::Parse;

/// The jobs of reading sources.
pub(crate) struct Fronts;

impl<A: Analyst> Kind<A, Text, Parse> for Fronts {
    ghost use Rattle.std.specs.Prelude.{⊤};
    ghost use Rattle.tree_crossing.specs.source_front.specs.Front.{IsParse};
    ghost use Rattle.job_crew.specs.analyst.specs.Work.{fronting};

    ghost ready = { λ text. ⊤ };

    ghost answers = { λ text parse. IsParse text parse };

    ghost work_of = { λ text. fronting };

    ghost work = { A.work };

    ghost bounded = { A.bounded };

    fn size(job: &Text) -> usize {
        job.len()
    }

    fn answer(analyst: &mut A, job: &Text) -> Result<Parse, NoMemory> {
        analyst.front(job)
    }
}

// About how long it takes to merge a module: its exports, aliases and imports are looked at, and what they name is replaced.
fn size_of_member(member: &MergeMember) -> usize {
    let signature = member.sig.get();
    let rows = signature
        .exports
        .len()
        .saturating_add(signature.aliases.len())
        .saturating_add(signature.imports.len());
    rows.saturating_mul(32)
}

/// The jobs of merging signatures.
pub(crate) struct Merges;

impl<A: Analyst> Kind<A, MergeJob, List<Sig>> for Merges {
    ghost use Rattle.std.specs.Prelude.{◌≡◌, ⊤, length};
    ghost use Rattle.merged_signatures.specs.Job.{job_signatures};
    ghost use Rattle.job_ends.specs.Jobs.{job_view};
    ghost use Rattle.job_crew.specs.analyst.specs.Work.{merging};

    ghost ready = { λ job. ⊤ };

    ghost answers = { λ job sigs. sigs ≡ job_signatures (job_view job) };

    ghost work_of = { λ job. merging (length job.members) };

    ghost work = { A.work };

    ghost bounded = { A.bounded };

    fn size(job: &MergeJob) -> usize {
        let mut size = 0usize;
        for member in job.members.as_slice() {
            size = size.saturating_add(size_of_member(member));
        }
        size
    }

    fn answer(analyst: &mut A, job: &MergeJob) -> Result<List<Sig>, NoMemory> {
        analyst.merge(job)
    }
}

/// The jobs of checking modules.
pub(crate) struct Checks;

impl<A: Analyst> Kind<A, CheckJob, Errs> for Checks {
    ghost use Rattle.std.specs.Prelude.{⊤};
    ghost use Rattle.job_crew.specs.analyst.specs.Work.{checking};
    ghost use Rattle.worker_jobs.specs.Checking.{HasErrors};

    ghost ready = { λ job. ⊤ };

    ghost answers = { HasErrors };

    ghost work_of = { λ job. checking };

    ghost work = { A.work };

    ghost bounded = { A.bounded };

    fn size(job: &CheckJob) -> usize {
        job.text.len()
    }

    fn answer(analyst: &mut A, job: &CheckJob) -> Result<Errs, NoMemory> {
        analyst.check(job)
    }
}
