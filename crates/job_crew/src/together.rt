ghost use Rattle.std.specs.Prelude.{◌≡◌, ◌<◌, All, OnOk, IsOk, length, map};
ghost use Rattle.std.specs.List.{AllByRecursion};
ghost use Rattle.std.specs.Thread.{IsSync, IsSend};
ghost use Rattle.job_seats.specs.analyst.specs.Work.{IsCounted};
ghost use Rattle.job_seats.specs.Seats.{IsSeat};
ghost use Rattle.job_crew.specs.Together.{AllEnded, Both};

use flow_values::NoMemory;
use job_seats::{Kind, Seat, work};
use large_join::join_large;
use std::sync::Wait;
use std::thread::Threads;

// The counts of analysts stay within their type. It does nothing.
fn all_counted<A, J, X, K: Kind<A, J, X>>()
    ensures { (analyst : A) → IsCounted (K.work analyst) }
{}

// Whether both gave an answer.
fn joined(front: Result<(), NoMemory>, back: Result<(), NoMemory>) -> Result<(), NoMemory>
    ensures { Both front back result }
{
    front?;
    back
}

#[cycle(crew)]
fn work_both<R: Threads + Wait + Sync, A: Send, J: Sync, X: Send + Drop, K: Kind<A, J, X> + Send>(
    rt: &R,
    jobs: &[J],
    first: &mut [Seat<X>],
    second: &mut [Seat<X>],
    left: &mut [A],
    right: &mut [A],
) -> (Result<(), NoMemory>, Result<(), NoMemory>)
    requires some { (0 < length left.old) × (0 < length right.old) }
    requires many { (length first.old ≡ length left.old) × (length second.old ≡ length right.old) }
    requires ready { All K.ready jobs.now }
    requires seats { AllByRecursion (IsSeat (length jobs.now)) first.old × AllByRecursion (IsSeat (length jobs.now)) second.old }
    ensures front_seats { AllByRecursion (IsSeat (length jobs.now)) first.new }
    ensures back_seats { AllByRecursion (IsSeat (length jobs.now)) second.new }
    ensures front { AllEnded result.0 K.answers K.work_of jobs.now first.old first.new (map K.work left.old) (map K.work left.new) }
    ensures back { AllEnded result.1 K.answers K.work_of jobs.now second.old second.new (map K.work right.old) (map K.work right.new) }
{
    join_large(
        rt,
        &mut || -> Result<(), NoMemory>
            requires { IsSync R.row × IsSend A.row × IsSync J.row × IsSend X.row × IsSend K.row × (0 < length left.now) × (length first.now ≡ length left.now) × All K.ready jobs.now × AllByRecursion (IsSeat (length jobs.now)) first.now }
            ensures seats { AllByRecursion (IsSeat (length jobs.entry.now)) first.exit.now }
            ensures ended { AllEnded result K.answers K.work_of jobs.entry.now first.entry.now first.exit.now (map K.work left.entry.now) (map K.work left.exit.now) }
        { work_all::<R, A, J, X, K>(rt, jobs, first, left) },
        &mut || -> Result<(), NoMemory>
            requires { IsSync R.row × IsSend A.row × IsSync J.row × IsSend X.row × IsSend K.row × (0 < length right.now) × (length second.now ≡ length right.now) × All K.ready jobs.now × AllByRecursion (IsSeat (length jobs.now)) second.now }
            ensures seats { AllByRecursion (IsSeat (length jobs.entry.now)) second.exit.now }
            ensures ended { AllEnded result K.answers K.work_of jobs.entry.now second.entry.now second.exit.now (map K.work right.entry.now) (map K.work right.exit.now) }
        { work_all::<R, A, J, X, K>(rt, jobs, second, right) },
    )
}

/// Lets all workers work, each at its place, until it finds no number. This thread starts those of the others one after the other: the
/// system puts two that are started at once on one processor, where they share it, though others are free.
///
/// # Errors
///
/// `NoMemory` where memory is refused.
#[cycle(crew)]
pub fn work_all<
    R: Threads + Wait + Sync,
    A: Send,
    J: Sync,
    X: Send + Drop,
    K: Kind<A, J, X> + Send,
>(rt: &R, jobs: &[J], seats: &mut [Seat<X>], analysts: &mut [A]) -> Result<(), NoMemory>
    requires some { 0 < length analysts.old }
    requires many { length seats.old ≡ length analysts.old }
    requires ready { All K.ready jobs.now }
    requires seats { AllByRecursion (IsSeat (length jobs.now)) seats.old }
    ensures seats { AllByRecursion (IsSeat (length jobs.now)) seats.new }
    ensures ended { AllEnded result K.answers K.work_of jobs.now seats.old seats.new (map K.work analysts.old) (map K.work analysts.new) }
{
    all_counted::<A, J, X, K>();
    if analysts.len() == 1 {
        return work::<A, J, X, K>(jobs, &mut analysts[0], &mut seats[0]);
    }
    let (first, second) = seats.split_at_mut(1);
    let (left, right) = analysts.split_at_mut(1);
    let (front, back) = work_both::<R, A, J, X, K>(rt, jobs, first, second, left, right);
    joined(front, back)
}
