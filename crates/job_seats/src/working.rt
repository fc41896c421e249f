ghost use Rattle.std.specs.Prelude.{◌≡◌, ◌<◌, All, IfOk, OnOk, MatchBool, length};
ghost use Rattle.crossbeam_deque.specs.Handles.{worker_view};
ghost use Rattle.work_shares.specs.analyst.specs.Work.{IsCounted};
ghost use Rattle.job_seats.specs.Seats.{IsSeat};
ghost use Rattle.job_seats.specs.Left.{IsWhole, AllTaken, left_in};
ghost use Rattle.job_seats.specs.Working.{Ended};

use crate::kind::Kind;
use crate::place::{Seat, draw, draw_left};
use flow_values::NoMemory;

// The counts of an analyst stay within their type. It does nothing.
fn counted<A, J, X, K: Kind<A, J, X>>(analyst: &A)
    ensures { IsCounted (K.work analyst.now) }
{}

// Draws a number from one of the deques, and answers its job. It says whether there was one.
fn work_once<A, J, X: Drop, K: Kind<A, J, X>>(
    jobs: &[J],
    analyst: &mut A,
    seat: &mut Seat<X>,
    k: usize,
) -> Result<bool, NoMemory>
    requires ready { All K.ready jobs.now }
    requires seat { IsSeat (length jobs.now) seat.old }
    requires within { k < length seat.old.links.items }
    ensures seat { IsSeat (length jobs.now) seat.new }
    ensures links { length seat.new.links.items ≡ length seat.old.links.items }
    ensures ended { Ended result K.answers K.work_of jobs.now seat.old seat.new (K.work analyst.old) (K.work analyst.new) }
{
    counted::<A, J, X, K>(&*analyst);
    let Some(number) = draw(seat, k, jobs.len()) else {
        return Ok(false);
    };
    let answer = K::answer(analyst, &jobs[number])?;
    seat.kept.push((number, answer))?;
    Ok(true)
}

// The worker whose turn it is, of so many, as one goes round from one of them.
fn around(me: usize, turn: usize, count: usize) -> usize
    requires { 0 < count }
    ensures { result < count }
{
    me.wrapping_add(turn) % count
}

// One round over all deques, from the worker's own one on.
fn work_round<A, J, X: Drop, K: Kind<A, J, X>>(
    jobs: &[J],
    analyst: &mut A,
    seat: &mut Seat<X>,
) -> Result<bool, NoMemory>
    requires ready { All K.ready jobs.now }
    requires seat { IsSeat (length jobs.now) seat.old }
    ensures seat { IsSeat (length jobs.now) seat.new }
    ensures ended { Ended result K.answers K.work_of jobs.now seat.old seat.new (K.work analyst.old) (K.work analyst.new) }
{
    counted::<A, J, X, K>(&*analyst);
    let count = seat.links.len();
    let mut took = false;
    for turn in 0..count {
        let k = around(seat.me, turn, count);
        let more = work_once::<A, J, X, K>(jobs, analyst, seat, k)?;
        took = took || more;
    }
    Ok(took)
}

/// Works off jobs until a round over all deques finds none, and for no more than one round more than there are jobs.
///
/// # Errors
///
/// `NoMemory` where memory is refused.
pub fn work<A, J, X: Drop, K: Kind<A, J, X>>(
    jobs: &[J],
    analyst: &mut A,
    seat: &mut Seat<X>,
) -> Result<(), NoMemory>
    requires ready { All K.ready jobs.now }
    requires seat { IsSeat (length jobs.now) seat.old }
    ensures seat { IsSeat (length jobs.now) seat.new }
    ensures ended { Ended result K.answers K.work_of jobs.now seat.old seat.new (K.work analyst.old) (K.work analyst.new) }
{
    counted::<A, J, X, K>(&*analyst);
    for _round in 0..jobs.len().saturating_add(1) {
        let took = work_round::<A, J, X, K>(jobs, analyst, seat)?;
        if !took {
            break;
        }
    }
    Ok(())
}

// Answers the job of one more number that is left. It says whether there was one.
fn work_left_once<A, J, X: Drop, K: Kind<A, J, X>>(
    jobs: &[J],
    analyst: &mut A,
    seat: &mut Seat<X>,
) -> Result<bool, NoMemory>
    requires ready { All K.ready jobs.now }
    requires seat { IsSeat (length jobs.now) seat.old }
    requires whole { IsWhole (worker_view seat.old.own) }
    ensures seat { IsSeat (length jobs.now) seat.new }
    ensures whole { IsWhole (worker_view seat.new.own) }
    ensures ended { Ended result K.answers K.work_of jobs.now seat.old seat.new (K.work analyst.old) (K.work analyst.new) }
    ensures left { IfOk result (λ took. MatchBool took (left_in (worker_view seat.new.own) < left_in (worker_view seat.old.own)) (AllTaken (worker_view seat.new.own))) }
{
    counted::<A, J, X, K>(&*analyst);
    let Some(number) = draw_left(seat, jobs.len()) else {
        return Ok(false);
    };
    let answer = K::answer(analyst, &jobs[number])?;
    seat.kept.push((number, answer))?;
    Ok(true)
}

/// Works off what the deque of a place still holds, once all passes are gathered.
///
/// # Errors
///
/// `NoMemory` where memory is refused.
pub fn work_left<A, J, X: Drop, K: Kind<A, J, X>>(
    jobs: &[J],
    analyst: &mut A,
    seat: &mut Seat<X>,
) -> Result<(), NoMemory>
    requires ready { All K.ready jobs.now }
    requires seat { IsSeat (length jobs.now) seat.old }
    requires whole { IsWhole (worker_view seat.old.own) }
    ensures seat { IsSeat (length jobs.now) seat.new }
    ensures whole { IsWhole (worker_view seat.new.own) }
    ensures ended { Ended result K.answers K.work_of jobs.now seat.old seat.new (K.work analyst.old) (K.work analyst.new) }
    ensures left { OnOk result (AllTaken (worker_view seat.new.own)) }
{
    counted::<A, J, X, K>(&*analyst);
    'left: loop {
        let took = work_left_once::<A, J, X, K>(jobs, analyst, seat)?;
        if !took {
            return Ok(());
        }
    }
}
