ghost use Rattle.std.specs.Prelude.{◌≡◌, ◌+◌, ◌-◌, ◌<◌, ◌≤◌, [], ◌∷◌, ◌++◌, IfOk, OnOk, MatchOption, List, ℕ, sum_by};
ghost use Rattle.crossbeam_deque.specs.Handles.{view, IsPassOf, SamePass, worker_deque, worker_flavor, stealer_deque, worker_view, SameWorker};
ghost use Rattle.number_draws.specs.Hands.{all_parts, hand};
ghost use Rattle.number_draws.specs.Drawing.{Takes, AllTaken, Accounts};

use crate::hand::{Account, Draws, Hand, Last, Once, Part, Put, Take};
use crossbeam_deque::{Steal, Stealer, Worker};
use std::alloc::{AllocError, Global};

/// A deque of numbers, of the worker that pops them.
pub type Deque = Worker<usize, Global, Hand, Once>;

/// What takes numbers from a deque in another thread.
pub type Thief = Stealer<usize, Global, Hand, Once>;

/// A deque with no number. It has room for so many at first.
///
/// # Errors
///
/// `AllocError` where memory is refused.
pub(crate) fn new_deque(alloc: Global, room: usize) -> Result<Deque, AllocError>
    ensures view { IfOk result (λ deque. worker_view deque ≡ hand all_parts [] []) }
    ensures flavor { IfOk result (λ deque. worker_flavor deque ≡ 0) }
{
    Deque::fifo_as(alloc, room)
}

/// Puts one more number behind those that the deque has.
///
/// # Errors
///
/// `AllocError` where memory is refused.
pub(crate) fn put(deque: &mut Deque, number: usize) -> Result<(), AllocError>
    requires { (worker_view deque.old).parts ≡ all_parts }
    ensures same { SameWorker deque.old deque.new }
    ensures put { OnOk result (worker_view deque.new ≡ hand all_parts ((worker_view deque.old).put ++ number ∷ []) (worker_view deque.old).taken) }
{
    match deque.push_as::<Put>(number) {
        Ok(()) => Ok(()),
        Err(_) => Err(AllocError),
    }
}

/// A pass for one more worker, with one part of the right to know all.
pub fn split(deque: &mut Deque) -> Draws
    requires { 1 < (worker_view deque.old).parts }
    ensures same { SameWorker deque.old deque.new × IsPassOf (worker_deque deque.old) result }
    ensures left { worker_view deque.new ≡ hand ((worker_view deque.old).parts - 1) (worker_view deque.old).put (worker_view deque.old).taken }
    ensures right { view result ≡ hand 1 (worker_view deque.old).put [] }
{
    deque.another::<Part>()
}

/// Takes the number at the front, by the worker whose deque it is, or answers `None` where there is none.
pub fn pop(deque: &mut Deque) -> Option<usize>
    requires { (worker_flavor deque.old ≡ 0) × (0 < (worker_view deque.old).parts) }
    ensures same { SameWorker deque.old deque.new }
    ensures taken { MatchOption result (worker_view deque.new ≡ worker_view deque.old) (λ number. Takes (worker_view deque.old) (number ∷ []) (worker_view deque.new)) }
{
    deque.pop_as::<Take>()
}

/// Takes the number at the front, by another worker. It answers `None` where there is none, and also
/// where a third one was faster.
pub fn steal(thief: &Thief, pass: &mut Draws) -> Option<usize>
    requires pass { IsPassOf (stealer_deque thief.now) pass.old }
    requires part { 0 < (view pass.old).parts }
    ensures same { SamePass pass.old pass.new }
    ensures taken { MatchOption result (view pass.new ≡ view pass.old) (λ number. Takes (view pass.old) (number ∷ []) (view pass.new)) }
{
    match thief.steal_as::<Take>(pass) {
        Steal::Success(number) => Some(number),
        Steal::Empty => None,
        Steal::Retry => None,
    }
}

/// Takes the pass of another worker in, with its parts and what that worker took.
pub fn gather(deque: &mut Deque, pass: Draws)
    requires pass { IsPassOf (worker_deque deque.old) pass }
    requires part { 0 < (worker_view deque.old).parts }
    ensures same { SameWorker deque.old deque.new }
    ensures taken { worker_view deque.new ≡ hand ((worker_view deque.old).parts + (view pass).parts) (worker_view deque.old).put ((worker_view deque.old).taken ++ (view pass).taken) }
{
    deque.absorb::<Part>(pass)
}

/// Takes a number that is left, once all passes are gathered. Where none is left, it answers `None`, and
/// each number that was put is known to be taken once.
pub fn leftover(deque: &mut Deque) -> Option<usize>
    requires { (worker_flavor deque.old ≡ 0) × ((worker_view deque.old).parts ≡ all_parts) }
    ensures same { SameWorker deque.old deque.new }
    ensures taken { MatchOption result ((worker_view deque.new ≡ worker_view deque.old) × ((h : ℕ → ℕ) → sum_by h (worker_view deque.old).put ≡ sum_by h (worker_view deque.old).taken)) (λ number. Takes (worker_view deque.old) (number ∷ []) (worker_view deque.new)) }
{
    deque.pop_as::<Last>()
}

/// It does nothing to the deque. Once all passes are gathered, the numbers that were taken are known to
/// be of those that were put, each at most once.
pub fn account(deque: &mut Deque)
    requires { (worker_view deque.old).parts ≡ all_parts }
    ensures same { SameWorker deque.old deque.new × (worker_view deque.new ≡ worker_view deque.old) }
    ensures taken { (h : ℕ → ℕ) → sum_by h (worker_view deque.old).taken ≤ sum_by h (worker_view deque.old).put }
{
    let _held = deque.len_as::<Account>();
}
