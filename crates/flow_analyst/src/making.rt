use crate::FlowAnalyst;
use place_analyst::AnalystMaker;
use std::alloc::Global;

/// Makes analysts of the language.
#[derive(Clone, Copy, Debug)]
pub struct FlowAnalysts {
    alloc: Global,
}

impl FlowAnalysts {
    /// A maker of analysts that take their memory from `alloc`.
    pub fn new(alloc: Global) -> FlowAnalysts {
        FlowAnalysts { alloc }
    }
}

impl AnalystMaker<FlowAnalyst> for FlowAnalysts {
    fn make(&self) -> FlowAnalyst {
        FlowAnalyst::new(self.alloc)
    }
}
