use asks::{Answer, Ask, AskFault};
use entity_heap::Snapshot;
use lane_asks::Asked;
use request_core::analyst::Analyst;
use request_core::payloads::Payload;
use request_core::place_analyst::PlaceAnalyst;
use std::alloc::Global;

/// What was answered, or why nothing was, and the version that it was answered from.
pub type Told = lane_asks::Told<Result<Answer, AskFault>>;

/// What is asked of the heap of modules.
pub(crate) struct Asking;

impl<A: Analyst + PlaceAnalyst> Asked<Payload, A, Ask, Result<Answer, AskFault>> for Asking {
    ghost use Rattle.beside.specs.Beside.{AnswersFrom, WorksAs};

    ghost answers = { λ state ask answer. AnswersFrom state ask answer };

    ghost works = { λ ask answer before now. WorksAs A.work ask answer before now };

    fn answer(
        alloc: Global,
        snapshot: &mut Snapshot<'_, Payload>,
        asker: &mut A,
        ask: &Ask,
    ) -> Result<Answer, AskFault> {
        request_core::answer(alloc, snapshot, asker, ask)
    }
}
