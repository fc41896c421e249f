ghost use Rattle.std.specs.Prelude.{◌≡◌, ◌<◌, ◌^◌, ℕ, All, IfOk, OnOk, length, map, sum_by};
ghost use Rattle.std.specs.List.{AllByRecursion, AllZip, flat_map};
ghost use Rattle.job_seats.specs.analyst.specs.Work.{IsCounted};
ghost use Rattle.job_seats.specs.work_shares.specs.Shares.{work_sum, AreWorked};
ghost use Rattle.number_draws.specs.Below.{below};
ghost use Rattle.job_crew.specs.Tying.{own_view, kept_of, AreTied, IsFresh};
ghost use Rattle.job_crew.specs.Adding.{AreAnswered};

use crate::gathering::gather_all;
use crate::resting::work_rest;
use crate::setting::seats_of;
use crate::together::work_all;
use flow_values::{List, NoMemory};
use job_seats::{Kind, Seat};
use number_draws::in_order;
use std::alloc::Global;
use std::sync::Wait;
use std::thread::Threads;

// The counts of analysts stay within their type. It does nothing.
fn all_counted<A, J, X, K: Kind<A, J, X>>()
    ensures { (analyst : A) → IsCounted (K.work analyst) }
{}

// Works all jobs off at the places: by all analysts, and what the deques still hold by the first one.
fn work_off<R: Threads + Wait + Sync, A: Send, J: Sync, X: Send + Drop, K: Kind<A, J, X> + Send>(
    rt: &R,
    alloc: Global,
    jobs: &[J],
    seats: &mut [Seat<X>],
    analysts: &mut [A],
) -> Result<(), NoMemory>
    requires some { 0 < length analysts.old }
    requires many { (length seats.old ≡ length analysts.old) × (length seats.old < 2 ^ 64) }
    requires ready { All K.ready jobs.now }
    requires fresh { AllByRecursion (IsFresh (length jobs.now)) seats.old }
    requires tied { AreTied (length seats.old) 0 (length seats.old) (length seats.old) seats.old }
    requires put { (h : ℕ → ℕ) → sum_by (λ s. sum_by h (own_view s).put) seats.old ≡ sum_by h (below (length jobs.now)) }
    ensures answers { OnOk result (AreAnswered K.answers jobs.now seats.new) }
    ensures work { AreWorked result (work_sum K.work_of jobs.now) (map K.work analysts.old) (map K.work analysts.new) }
{
    all_counted::<A, J, X, K>();
    let ended = work_all::<R, A, J, X, K>(rt, jobs, seats, analysts);
    gather_all(alloc, seats);
    match ended {
        Ok(()) => work_rest::<A, J, X, K>(jobs, &mut analysts[0], seats),
        Err(refused) => Err(refused),
    }
}

// The answers that are kept at all places.
fn all_kept<X: Drop>(alloc: Global, seats: Vec<Seat<X>>) -> Result<Vec<(usize, X)>, NoMemory>
    ensures { IfOk result (λ all. all.items ≡ flat_map kept_of seats.items) }
{
    let mut all = Vec::new(alloc);
    for seat in seats {
        let mut kept = seat.kept;
        all.append(&mut kept)?;
    }
    Ok(all)
}

// The answers to some jobs, in order, by as many workers as there are analysts.
fn run_by<R: Threads + Wait + Sync, A: Send, J: Sync, X: Send + Drop, K: Kind<A, J, X> + Send>(
    rt: &R,
    alloc: Global,
    analysts: &mut [A],
    jobs: &[J],
) -> Result<List<X>, NoMemory>
    requires some { 0 < length analysts.old }
    requires ready { All K.ready jobs.now }
    ensures answers { IfOk result (AllZip K.answers jobs.now) }
    ensures work { AreWorked result (work_sum K.work_of jobs.now) (map K.work analysts.old) (map K.work analysts.new) }
{
    all_counted::<A, J, X, K>();
    let mut seats = seats_of::<X>(alloc, analysts.len(), jobs.len())?;
    work_off::<R, A, J, X, K>(rt, alloc, jobs, seats.as_mut_slice(), analysts)?;
    let kept = all_kept(alloc, seats)?;
    let answers = in_order(alloc, jobs.len(), kept)?;
    Ok(List::from_vec(answers))
}

// The size of the jobs for which one more analyst is worth its thread.
const SHARE: usize = 8192;

// Below this a job's size says little of how long it takes.
const SMALL: usize = 128;

// How many analysts some jobs are worth: one for each share of all sizes, and at least two where there are four jobs or more that are
// small.
fn worth_of<A, J, X, K: Kind<A, J, X>>(jobs: &[J]) -> usize {
    let mut sizes = 0usize;
    for job in jobs {
        sizes = sizes.saturating_add(K::size(job));
    }
    let worth = sizes / SHARE;
    if jobs.len() >= 4 && sizes / SMALL < jobs.len() {
        return usize::max(worth, 2);
    }
    worth
}

/// The answers to some jobs, in order. Each analyst works in a thread of its own, where one can be had; number i is put into the deque
/// i mod the number of analysts, and who has none left takes numbers from the others. Where there are fewer jobs than analysts, or where
/// their sizes are not worth so many threads, the last analysts get none; of four jobs or more that are too small to tell, two do some.
///
/// # Errors
///
/// `NoMemory` where memory is refused.
pub fn run_all<R: Threads + Wait + Sync, A: Send, J: Sync, X: Send + Drop, K: Kind<A, J, X> + Send>(
    rt: &R,
    alloc: Global,
    analysts: &mut [A],
    jobs: &[J],
) -> Result<List<X>, NoMemory>
    requires some { 0 < length analysts.old }
    requires ready { All K.ready jobs.now }
    ensures answers { IfOk result (AllZip K.answers jobs.now) }
    ensures work { AreWorked result (work_sum K.work_of jobs.now) (map K.work analysts.old) (map K.work analysts.new) }
{
    all_counted::<A, J, X, K>();
    let worth = usize::min(worth_of::<A, J, X, K>(jobs), jobs.len());
    let busy = usize::min(analysts.len(), usize::max(1, worth));
    let (busy, _idle) = analysts.split_at_mut(busy);
    run_by::<R, A, J, X, K>(rt, alloc, busy, jobs)
}
