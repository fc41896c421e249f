//! What workers took, gathered once all have ended.
ghost use Rattle.std.specs.Prelude.{◌≡◌, ◌+◌, ◌++◌, ◌<◌, ◌^◌, ℕ, length, map, sum_by};
ghost use Rattle.std.specs.List.{AllByRecursion, AllZip};
ghost use Rattle.crossbeam_deque.specs.Handles.{stealer_deque};
ghost use Rattle.number_draws.specs.Hands.{all_parts};
ghost use Rattle.job_seats.specs.Seats.{link_view, IsLink, weight};
ghost use Rattle.job_seats.specs.Left.{IsWhole};
ghost use Rattle.job_crew.specs.Tying.{own_view, own_id, AreLinks, links_weight, LackParts, SameOwn, SamePlace, SameView, IsGathered, AreTied};

use job_seats::{Link, Seat};
use number_draws::{account, gather};
use std::alloc::Global;
use std::mem;

// Takes the pass of a link to its deque in.
fn gather_to<X>(seat: &mut Seat<X>, link: Link)
    requires link { IsLink link × (stealer_deque link.thief ≡ own_id seat.old) }
    requires part { 0 < (own_view seat.old).parts }
    ensures same { SamePlace seat.old seat.new }
    ensures parts { (own_view seat.new).parts ≡ (own_view seat.old).parts + (link_view link).parts }
    ensures taken { (own_view seat.new).taken ≡ (own_view seat.old).taken ++ (link_view link).taken }
{
    let Link { thief: _, pass } = link;
    gather(&mut seat.own, pass);
}

// There is such a place. It does nothing.
fn has_place<X>(seats: &[Seat<X>], at: usize)
    requires { at < length seats.now }
    ensures { at < length seats.now }
{}

// Takes the passes of the links of a place in, each at its own deque, where so many places have links still.
fn gather_row<X>(seats: &mut [Seat<X>], mut links: Vec<Link>, rows: usize)
    requires within { (rows < length seats.old) × (length seats.old < 2 ^ 64) }
    requires links { AreLinks links.items (map own_id seats.old) }
    requires parts { LackParts rows (length links.items) seats.old }
    ensures same { AllZip SamePlace seats.old seats.new }
    ensures parts { LackParts rows 0 seats.new }
    ensures taken { (h : ℕ → ℕ) → sum_by (λ s. weight h s) seats.new ≡ sum_by (λ s. weight h s) seats.old + links_weight h links.items }
{
    'row: while let Some(link) = links.pop() {
        let at = links.len();
        has_place(&*seats, at);
        gather_to(&mut seats[at], link);
    }
}

// Takes all passes in.
fn gather_links<X>(alloc: Global, seats: &mut [Seat<X>])
    requires { AreTied 0 (length seats.old) 0 (length seats.old) seats.old }
    ensures same { AllZip SameOwn seats.old seats.new }
    ensures tied { AreTied 0 (length seats.old) (length seats.old) 0 seats.new }
    ensures taken { (h : ℕ → ℕ) → sum_by (λ s. weight h s) seats.new ≡ sum_by (λ s. weight h s) seats.old }
{
    let workers = seats.len();
    for w in 0..workers {
        let links = mem::replace(&mut seats[w].links, Vec::new(alloc));
        gather_row(seats, links, workers - w - 1);
    }
}

// Looks at a deque whose parts are all here.
fn account_at<X>(seat: &mut Seat<X>)
    requires { (own_view seat.old).parts ≡ all_parts }
    ensures same { SameView seat.old seat.new }
    ensures whole { IsWhole (own_view seat.new) }
{
    account(&mut seat.own)
}

// Looks at all deques.
fn account_all<X>(seats: &mut [Seat<X>])
    requires { AllByRecursion (λ s. (own_view s).parts ≡ all_parts) seats.old }
    ensures same { AllZip SameView seats.old seats.new }
    ensures whole { AllByRecursion (λ s. IsWhole (own_view s)) seats.new }
{
    for w in 0..seats.len() {
        account_at(&mut seats[w]);
    }
}

/// Takes all passes in, so that each deque has all its parts again.
pub(crate) fn gather_all<X>(alloc: Global, seats: &mut [Seat<X>])
    requires { AreTied 0 (length seats.old) 0 (length seats.old) seats.old }
    ensures gathered { AllZip IsGathered seats.old seats.new }
    ensures taken { (h : ℕ → ℕ) → sum_by (λ s. weight h s) seats.new ≡ sum_by (λ s. weight h s) seats.old }
{
    gather_links(alloc, seats);
    account_all(seats);
}
