use crossbeam_deque::Pass;
use crossbeam_deque::protocol::{Join, Lesson, Outcome, Protocol, Split};
use std::collections::LinkedList;

/// What a pass of a deque knows: its parts of the right to know all, the numbers that were put into the deque, and those that it took.
/// No value of it is made.
pub struct Hand {
    pub parts: u64,
    pub put: LinkedList<usize>,
    pub taken: LinkedList<usize>,
}

/// The rule: each number is taken once.
pub struct Once;

impl Protocol<usize, Hand> for Once {
    ghost use Rattle.std.specs.Prelude.{[]};
    ghost use Rattle.number_draws.specs.Hands.{all_parts, hand, Drawn};

    ghost holds = { Drawn };

    ghost first = { hand all_parts [] [] };

    ghost guest = { hand 0 [] [] };
}

/// A pass of a deque, which a worker has that steals from it.
pub type Draws = Pass<usize, Hand>;

pub(crate) struct Part;

impl Split<Hand> for Part {
    ghost use Rattle.std.specs.Prelude.{[], ◌-◌};
    ghost use Rattle.number_draws.specs.Hands.{hand};

    ghost left = { λ v. hand (v.parts - 1) v.put v.taken };

    ghost right = { λ v. hand 1 v.put [] };
}

impl Join<Hand> for Part {
    ghost use Rattle.std.specs.Prelude.{[], ◌+◌, ◌++◌};
    ghost use Rattle.number_draws.specs.Hands.{hand};

    ghost both = { λ v w. hand (v.parts + w.parts) v.put (v.taken ++ w.taken) };

    ghost spent = { hand 0 [] [] };
}

pub(crate) struct Put;

impl Outcome<usize, Hand> for Put {
    ghost use Rattle.number_draws.specs.Drawing.{Puts};

    ghost then = { Puts };
}

pub(crate) struct Take;

impl Outcome<usize, Hand> for Take {
    ghost use Rattle.number_draws.specs.Drawing.{Takes};

    ghost then = { Takes };
}

pub(crate) struct Last;

impl Outcome<usize, Hand> for Last {
    ghost use Rattle.number_draws.specs.Drawing.{Takes, AllTaken};

    ghost then = { Takes };

    ghost empty = { AllTaken };
}

pub(crate) struct Account;

impl Lesson<usize, Hand> for Account {
    ghost use Rattle.number_draws.specs.Drawing.{Accounts};

    ghost fact = { Accounts };
}
