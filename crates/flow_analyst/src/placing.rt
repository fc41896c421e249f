use crate::FlowAnalyst;
use check_job::CheckJob;
use check_module::type_at;
use flow_values::NoMemory;
use place_analyst::PlaceAnalyst;
use type_values::FlowType;

impl PlaceAnalyst for FlowAnalyst {
    #[tactic(auto, using(crate::proofs::Places::in_source))]
    fn type_at(&self, job: &CheckJob, at: u32) -> Result<Option<FlowType>, NoMemory> {
        let ty = type_at(self.alloc, job, at)?;
        Ok(ty)
    }
}
