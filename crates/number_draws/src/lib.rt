//! The numbers of jobs, dealt out to deques: each is drawn once, by the worker whose deque it is, by another one that steals it, or by
//! the caller at the end; and numbered answers are put in the order of their numbers.
#![tactic(auto)]

mod deal;
mod deque;
mod hand;
mod order;

pub use deal::deal_out;
pub use deque::{Deque, Thief, account, gather, leftover, pop, split, steal};
pub use hand::{Draws, Hand, Once};
pub use order::in_order;
