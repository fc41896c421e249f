ghost use Rattle.std.specs.Prelude.{◌≡◌, ◌<◌, [], ◌∷◌, ◌++◌, IfOk, OnOk, length, map};
ghost use Rattle.std.specs.List.{AllByRecursion};
ghost use Rattle.crossbeam_deque.specs.Handles.{worker_flavor, worker_view, SameWorker};
ghost use Rattle.number_draws.specs.Hands.{all_parts, hand};
ghost use Rattle.number_draws.specs.Dealt.{AreDealt};

use crate::deque::{Deque, new_deque, put};
use std::alloc::{AllocError, Global};

// So many deques with no number, each with room for some.
fn empty_deques(alloc: Global, workers: usize, room: usize) -> Result<Vec<Deque>, AllocError>
    ensures many { IfOk result (λ deques. length deques.items ≡ workers) }
    ensures fifo { IfOk result (λ deques. AllByRecursion (λ d. worker_flavor d ≡ 0) deques.items) }
    ensures dealt { IfOk result (λ deques. AreDealt 0 (map worker_view deques.items)) }
{
    let mut deques = Vec::new(alloc);
    for _i in 0..workers {
        let deque = new_deque(alloc, room)?;
        deques.push(deque)?;
    }
    Ok(deques)
}

/// A deque for each worker, with the numbers of the jobs: number i in the deque i mod the number of workers, in rising order.
///
/// # Errors
///
/// `AllocError` where memory is refused.
pub fn deal_out(alloc: Global, workers: usize, jobs: usize) -> Result<Vec<Deque>, AllocError>
    requires { 0 < workers }
    ensures many { IfOk result (λ deques. length deques.items ≡ workers) }
    ensures fifo { IfOk result (λ deques. AllByRecursion (λ d. worker_flavor d ≡ 0) deques.items) }
    ensures dealt { IfOk result (λ deques. AreDealt jobs (map worker_view deques.items)) }
{
    let mut deques = empty_deques(alloc, workers, jobs.div_ceil(workers))?;
    for number in 0..jobs {
        put(&mut deques[number % workers], number)?;
    }
    Ok(deques)
}
