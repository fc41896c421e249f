//! The places of workers, before they begin.
ghost use Rattle.std.specs.Prelude.{◌≡◌, ◌+◌, ◌<◌, ◌^◌, [], ℕ, IfOk, OnOk, length, map, sum_by};
ghost use Rattle.std.specs.List.{AllByRecursion};
ghost use Rattle.crossbeam_deque.specs.Handles.{stealer_deque};
ghost use Rattle.number_draws.specs.Hands.{hand};
ghost use Rattle.number_draws.specs.Below.{below};
ghost use Rattle.job_seats.specs.Seats.{link_view, IsLink};
ghost use Rattle.job_crew.specs.Tying.{own_view, own_id, LackParts, SameTaken, HasLinked, HasRows, AreTied, IsFresh};

use flow_values::NoMemory;
use job_seats::{Link, Seat};
use number_draws::{Deque, deal_out, split};
use std::alloc::Global;

// A link to the deque of a place, with one part.
fn link_to<X>(seat: &mut Seat<X>) -> Result<Link, NoMemory>
    requires { 1 < (own_view seat.old).parts }
    ensures same { SameTaken seat.old seat.new }
    ensures parts { OnOk result ((own_view seat.new).parts + 1 ≡ (own_view seat.old).parts) }
    ensures link { IfOk result (λ l. IsLink l × (stealer_deque l.thief ≡ own_id seat.old) × (link_view l ≡ hand 1 (own_view seat.old).put [])) }
{
    let thief = seat.own.stealer()?;
    let pass = split(&mut seat.own);
    Ok(Link { thief, pass })
}

// Links to all deques, in the order of the workers.
fn row_of<X: Drop>(alloc: Global, seats: &mut [Seat<X>], rows: usize) -> Result<Vec<Link>, NoMemory>
    requires within { (rows < length seats.old) × (length seats.old < 2 ^ 64) }
    requires parts { LackParts rows 0 seats.old }
    ensures { IfOk result (λ links. HasLinked rows (length seats.old) seats.old seats.new links.items) }
{
    let mut links = Vec::new(alloc);
    for k in 0..seats.len() {
        let link = link_to(&mut seats[k])?;
        links.push(link)?;
    }
    Ok(links)
}

// The places of these deques, with no links.
fn places_of<X: Drop>(alloc: Global, deques: Vec<Deque>) -> Result<Vec<Seat<X>>, NoMemory>
    ensures owns { IfOk result (λ seats. map (λ s. s.own) seats.items ≡ deques.items) }
    ensures none { IfOk result (λ seats. AllByRecursion (λ s. (s.links.items ≡ []) × (s.kept.items ≡ [])) seats.items) }
{
    let mut seats = Vec::new(alloc);
    for own in deques {
        let me = seats.len();
        let links = Vec::new(alloc);
        let kept = Vec::new(alloc);
        seats.push(Seat {
            me,
            own,
            links,
            kept,
        })?;
    }
    Ok(seats)
}

// The places, with the numbers of the jobs dealt out, and no links.
fn empty_seats<X: Drop>(
    alloc: Global,
    workers: usize,
    jobs: usize,
) -> Result<Vec<Seat<X>>, NoMemory>
    requires { 0 < workers }
    ensures many { IfOk result (λ seats. length seats.items ≡ workers) }
    ensures fresh { IfOk result (λ seats. AllByRecursion (IsFresh jobs) seats.items) }
    ensures tied { IfOk result (λ seats. AreTied workers 0 0 0 seats.items) }
    ensures put { IfOk result (λ seats. (h : ℕ → ℕ) → sum_by (λ s. sum_by h (own_view s).put) seats.items ≡ sum_by h (below jobs)) }
{
    let deques = deal_out(alloc, workers, jobs)?;
    let seats = places_of(alloc, deques)?;
    Ok(seats)
}

// Gives each place its links.
fn link_all<X: Drop>(alloc: Global, seats: &mut [Seat<X>], workers: usize) -> Result<(), NoMemory>
    requires many { length seats.old ≡ workers }
    requires tied { AreTied workers 0 0 0 seats.old }
    ensures { OnOk result (HasRows workers workers seats.old seats.new) }
{
    for me in 0..workers {
        let links = row_of(alloc, seats, me)?;
        seats[me].links = links;
    }
    Ok(())
}

/// A place for each worker, with the numbers of the jobs dealt out to the deques.
///
/// # Errors
///
/// `NoMemory` where memory is refused.
pub(crate) fn seats_of<X: Drop>(
    alloc: Global,
    workers: usize,
    jobs: usize,
) -> Result<Vec<Seat<X>>, NoMemory>
    requires { 0 < workers }
    ensures many { IfOk result (λ seats. length seats.items ≡ workers) }
    ensures fresh { IfOk result (λ seats. AllByRecursion (IsFresh jobs) seats.items) }
    ensures tied { IfOk result (λ seats. AreTied workers 0 workers workers seats.items) }
    ensures put { IfOk result (λ seats. (h : ℕ → ℕ) → sum_by (λ s. sum_by h (own_view s).put) seats.items ≡ sum_by h (below jobs)) }
{
    let mut seats = empty_seats(alloc, workers, jobs)?;
    link_all(alloc, seats.as_mut_slice(), workers)?;
    Ok(seats)
}
