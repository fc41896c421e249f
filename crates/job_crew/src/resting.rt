ghost use Rattle.std.specs.Prelude.{All, length};
ghost use Rattle.std.specs.List.{AllByRecursion};
ghost use Rattle.job_seats.specs.analyst.specs.Work.{IsCounted};
ghost use Rattle.job_seats.specs.Seats.{IsSeat};
ghost use Rattle.job_seats.specs.Left.{IsWhole};
ghost use Rattle.job_crew.specs.Tying.{own_view};
ghost use Rattle.job_crew.specs.Adding.{HasWorkedRest};

use flow_values::NoMemory;
use job_seats::{Kind, Seat, work_left};

// The counts of an analyst stay within their type. It does nothing.
fn counted<A, J, X, K: Kind<A, J, X>>(analyst: &A)
    ensures { IsCounted (K.work analyst.now) }
{}

/// Works off what the deques still hold, by one analyst, once all passes are gathered.
///
/// # Errors
///
/// `NoMemory` where memory is refused.
pub(crate) fn work_rest<A, J, X: Drop, K: Kind<A, J, X>>(
    jobs: &[J],
    analyst: &mut A,
    seats: &mut [Seat<X>],
) -> Result<(), NoMemory>
    requires ready { All K.ready jobs.now }
    requires seats { AllByRecursion (IsSeat (length jobs.now)) seats.old }
    requires whole { AllByRecursion (λ s. IsWhole (own_view s)) seats.old }
    ensures { HasWorkedRest result K.answers K.work_of jobs.now seats.old seats.new (K.work analyst.old) (K.work analyst.new) }
{
    counted::<A, J, X, K>(&*analyst);
    for w in 0..seats.len() {
        work_left::<A, J, X, K>(jobs, analyst, &mut seats[w])?;
    }
    Ok(())
}
