ghost use Rattle.std.specs.Prelude.{◌≡◌, ◌<◌, ◌≤◌, [], ◌∷◌, MatchOption, IfSome, length};
ghost use Rattle.crossbeam_deque.specs.Handles.{view, worker_view};
ghost use Rattle.number_draws.specs.Drawing.{Takes};
ghost use Rattle.job_seats.specs.Left.{IsWhole, AllTaken, left_in};
ghost use Rattle.job_seats.specs.Seats.{IsLink, SameLink, IsSeat, Drew};

use number_draws::{Deque, Draws, Thief, leftover, pop, steal};

/// How a worker steals from a deque.
#[derive(Drop)]
pub struct Link {
    pub thief: Thief,
    pub pass: Draws,
}

/// A worker's place: its number, its own deque, a link to each deque in the order of the workers, its own one among them, and the numbered
/// answers that it has. It takes numbers from its own deque with no link.
#[derive(Drop)]
pub struct Seat<X> {
    pub me: usize,
    pub own: Deque,
    pub links: Vec<Link>,
    pub kept: Vec<(usize, X)>,
}

// Steals a number.
fn steal_by(link: &mut Link) -> Option<usize>
    requires { IsLink link.old }
    ensures same { SameLink link.old link.new }
    ensures taken { MatchOption result (view link.new.pass ≡ view link.old.pass) (λ number. Takes (view link.old.pass) (number ∷ []) (view link.new.pass)) }
{
    steal(&link.thief, &mut link.pass)
}

// Takes a number from the worker's own deque.
fn draw_own<X>(seat: &mut Seat<X>, end: usize) -> Option<usize>
    requires { IsSeat end seat.old }
    ensures seat { IsSeat end seat.new }
    ensures kept { seat.new.kept ≡ seat.old.kept }
    ensures drew { MatchOption result (Drew seat.old seat.new []) (λ number. Drew seat.old seat.new (number ∷ [])) }
    ensures low { IfSome result (λ number. number < end) }
{
    pop(&mut seat.own)
}

// Takes a number from the deque of a link.
fn draw_by<X>(seat: &mut Seat<X>, k: usize, end: usize) -> Option<usize>
    requires seat { IsSeat end seat.old }
    requires within { k < length seat.old.links.items }
    ensures seat { IsSeat end seat.new }
    ensures kept { seat.new.kept ≡ seat.old.kept }
    ensures drew { MatchOption result (Drew seat.old seat.new []) (λ number. Drew seat.old seat.new (number ∷ [])) }
    ensures low { IfSome result (λ number. number < end) }
{
    steal_by(&mut seat.links[k])
}

/// Takes a number from the deque of a worker: its own one, or another one by its link.
pub(crate) fn draw<X>(seat: &mut Seat<X>, k: usize, end: usize) -> Option<usize>
    requires seat { IsSeat end seat.old }
    requires within { k < length seat.old.links.items }
    ensures seat { IsSeat end seat.new }
    ensures kept { seat.new.kept ≡ seat.old.kept }
    ensures drew { MatchOption result (Drew seat.old seat.new []) (λ number. Drew seat.old seat.new (number ∷ [])) }
    ensures low { IfSome result (λ number. number < end) }
{
    if k == seat.me {
        draw_own(seat, end)
    } else {
        draw_by(seat, k, end)
    }
}

/// Takes a number that the worker's own deque still holds, once all passes are gathered.
pub(crate) fn draw_left<X>(seat: &mut Seat<X>, end: usize) -> Option<usize>
    requires seat { IsSeat end seat.old }
    requires whole { IsWhole (worker_view seat.old.own) }
    ensures seat { IsSeat end seat.new }
    ensures whole { IsWhole (worker_view seat.new.own) }
    ensures kept { seat.new.kept ≡ seat.old.kept }
    ensures drew { MatchOption result (Drew seat.old seat.new []) (λ number. Drew seat.old seat.new (number ∷ [])) }
    ensures low { IfSome result (λ number. number < end) }
    ensures left { MatchOption result (AllTaken (worker_view seat.new.own)) (λ number. left_in (worker_view seat.new.own) < left_in (worker_view seat.old.own)) }
{
    leftover(&mut seat.own)
}
