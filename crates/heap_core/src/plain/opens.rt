//! The plain heap is opened.
ghost use Rattle.std.specs.Prelude.{◌≡◌, ◌-◌, ◌<◌, ◌∷◌, replicate, None, IfOk, false};
ghost use Rattle.std.specs.Arc.{arc_value};
ghost use Rattle.heap_core.specs.Meaning.{AllFit, opening};
ghost use Rattle.heap_core.specs.Plain.{values};

use super::PlainHeap;
use crate::traits::{HeapWriter, Program};
use flow_values::NoMemory;
use std::alloc::Global;
use std::sync::Arc;

impl<P: Program> PlainHeap<P> {
    /// A heap of so many entities at version 0: entity 0 holds `root`, and each other one holds `absent`.
    ///
    /// # Errors
    ///
    /// `NoMemory` where memory is refused.
    pub fn open(
        alloc: Global,
        entities: u32,
        root: Arc<P>,
        absent: Arc<P>,
    ) -> Result<PlainHeap<P>, NoMemory>
        requires some { 0 < entities }
        requires fit { AllFit P.fits (arc_value root ∷ replicate (entities - 1) (arc_value absent)) }
        ensures { IfOk result (λ h. ⟦<PlainHeap<P> as HeapWriter<P>>⟧.meaning h ≡ opening (arc_value root ∷ replicate (entities - 1) (arc_value absent))) }
    {
        let count = entities as usize;
        let committed = first_state(alloc, root, &absent, count)?;
        let pending = vacant(alloc, count)?;
        let versions = first_versions(alloc, count)?;
        let staged = Vec::with_capacity(alloc, count)?;
        Ok(PlainHeap {
            version: 0,
            is_open: false,
            committed,
            pending,
            versions,
            staged,
        })
    }
}

/// `root` and then `absent`, `count` payloads in all.
fn first_state<P: Drop>(
    alloc: Global,
    root: Arc<P>,
    absent: &Arc<P>,
    count: usize,
) -> Result<Vec<Arc<P>>, NoMemory>
    requires { 0 < count }
    ensures { IfOk result (λ v. values v.items ≡ arc_value root ∷ replicate (count - 1) (arc_value absent.now)) }
{
    let mut payloads = Vec::with_capacity(alloc, count)?;
    payloads.push(root)?;
    for _i in 1..count {
        payloads.push(Arc::try_clone(absent)?)?;
    }
    Ok(payloads)
}

/// The version 0 for each of `count` entities.
fn first_versions(alloc: Global, count: usize) -> Result<Vec<u32>, NoMemory>
    ensures { IfOk result (λ v. v.items ≡ replicate count 0) }
{
    Ok(Vec::from_elem(alloc, 0, count)?)
}

/// Room for `count` payloads, with none of them there.
fn vacant<P: Drop>(alloc: Global, count: usize) -> Result<Vec<Option<Arc<P>>>, NoMemory>
    ensures { IfOk result (λ v. v.items ≡ replicate count None) }
{
    let mut payloads = Vec::with_capacity(alloc, count)?;
    for _i in 0..count {
        payloads.push(None)?;
    }
    Ok(payloads)
}
