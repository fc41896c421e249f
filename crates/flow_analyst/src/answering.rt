ghost use Rattle.std.specs.Prelude.{◌≡◌, ◌<◌, ◌^◌};
ghost use Rattle.analyst.specs.Work.{work_of, no_work};

use analyst::Analyst;
use check_job::CheckJob;
use check_module::check_module;
use check_values::{Errs, Sig};
use flow_values::{List, NoMemory, Text};
use job_ends::MergeJob;
use sig_merge::merge_component;
use source_front::Parse;
use source_reading::front;
use std::alloc::Global;

/// The analyst of the language: its answers are those of the crates that read, merge and check.
#[derive(Drop)]
pub struct FlowAnalyst {
    pub(crate) alloc: Global,
    fronts: u64,
    merges: u64,
    checks: u64,
    ghost few_fronts: { fronts < 2 ^ 64 },
    ghost few_merges: { merges < 2 ^ 64 },
    ghost few_checks: { checks < 2 ^ 64 },
}

impl FlowAnalyst {
    /// An analyst that has done no work. It takes no memory.
    pub fn new(alloc: Global) -> FlowAnalyst
        ensures { ⟦<FlowAnalyst as Analyst>⟧.work result ≡ no_work }
    {
        FlowAnalyst {
            alloc,
            fronts: 0,
            merges: 0,
            checks: 0,
        }
    }
}

impl Analyst for FlowAnalyst {
    ghost work = { λ a. work_of a.fronts a.merges a.checks };

    ghost bounded = { λ a. record { fronts = a.few_fronts; merges = a.few_merges; checks = a.few_checks } };

    #[tactic(auto, using(crate::proofs::Counting::fronted, crate::proofs::Counting::nothing_done))]
    fn front(&mut self, text: &Text) -> Result<Parse, NoMemory> {
        let parse = front(self.alloc, text.as_bytes())?;
        self.fronts = self.fronts.saturating_add(1);
        Ok(parse)
    }

    #[tactic(auto, using(crate::proofs::Counting::merged, crate::proofs::Counting::nothing_done))]
    fn merge(&mut self, job: &MergeJob) -> Result<List<Sig>, NoMemory> {
        let signatures = merge_component(self.alloc, job)?;
        self.merges = self.merges.saturating_add(job.members.len() as u64);
        Ok(signatures)
    }

    #[tactic(auto, using(crate::proofs::Counting::checked, crate::proofs::Counting::nothing_done))]
    fn check(&mut self, job: &CheckJob) -> Result<Errs, NoMemory> {
        let errs = check_module(self.alloc, job)?;
        self.checks = self.checks.saturating_add(1);
        Ok(errs)
    }
}
