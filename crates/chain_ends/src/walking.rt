//! The ends of all chains, each found once.
ghost use Rattle.std.specs.Prelude.{◌≡◌, ◌<◌, ℕ, [], length, map, set, slice_get, Some, IfOk, OnOk};
ghost use Rattle.chain_ends.specs.Following.{AreEnds};
ghost use Rattle.chain_ends.specs.declared.walking.Mark.TheVariants.{New};
ghost use Rattle.chain_ends.specs.Walking.{first_mark, next_by, next_of, end_marked, through, IsWalk, NoneRenewed, HasWalked};

use crate::links::{End, Link};
use flow_values::NoMemory;
use std::alloc::Global;

/// What is known of a name: nothing, that a walk passed it, or where its chain ends.
#[derive(Clone, Copy)]
pub(crate) enum Mark {
    New,
    Open,
    Done(End),
}

fn first_mark(link: Link) -> Mark
    ensures { result ≡ first_mark link }
{
    match link {
        Link::Ends(end) => Mark::Done(end),
        Link::Goes { .. } => Mark::New,
    }
}

fn first_marks(alloc: Global, links: &[Link]) -> Result<Vec<Mark>, NoMemory>
    ensures { IfOk result (λ marks. marks.items ≡ map first_mark links.now) }
{
    let mut marks = Vec::new(alloc);
    for i in 0..links.len() {
        marks.push(first_mark(links[i]))?;
    }
    Ok(marks)
}

fn mark_at(marks: &[Mark], at: usize) -> Option<Mark>
    ensures { result ≡ slice_get marks.now at }
{
    marks.get(at).copied()
}

fn link_at(links: &[Link], at: usize) -> Option<Link>
    ensures { result ≡ slice_get links.now at }
{
    links.get(at).copied()
}

fn next_by(mark: Option<Mark>, link: Option<Link>) -> Option<usize>
    ensures { result ≡ next_by mark link }
{
    match (mark, link) {
        (Some(Mark::New), Some(Link::Goes { next, .. })) => Some(next),
        _ => None,
    }
}

// The name at which a walk goes on from one that is new.
fn next_of(links: &[Link], marks: &[Mark], at: usize) -> Option<usize>
    ensures { result ≡ next_of links.now marks.now at }
{
    next_by(mark_at(marks, at), link_at(links, at))
}

fn end_marked(mark: Option<Mark>) -> End
    ensures { result ≡ end_marked mark }
{
    match mark {
        Some(Mark::Done(end)) => end,
        Some(_) => End::Cyclic,
        None => End::Unknown,
    }
}

// The end of the chain from a name, where the next one's end is this one.
fn through(link: Option<Link>, end: End) -> End
    ensures { result ≡ through link end }
{
    match link {
        Some(Link::Goes { is_type, .. }) => end.of_kind(is_type),
        _ => end,
    }
}

fn put(marks: &mut [Mark], at: usize, mark: Mark)
    requires { at < length marks.old }
    ensures { marks.new ≡ set marks.old at mark }
{
    marks[at] = mark;
}

// Follows the chain from a name up to one that is not new; opens the names before that, and lists them. The end of the last
// one's chain: one that is open comes back to itself.
fn walk(
    links: &[Link],
    marks: &mut [Mark],
    trail: &mut Vec<usize>,
    start: usize,
) -> Result<End, NoMemory>
    requires whole { IsWalk links.now marks.old [] }
    requires empty { trail.old.items ≡ [] }
    ensures { IfOk result (λ end. HasWalked links.now marks.old marks.new trail.new.items start end) }
{
    let mut at = start;
    while let Some(next) = next_of(links, marks, at) {
        put(marks, at, Mark::Open);
        trail.push(at)?;
        at = next;
    }
    Ok(end_marked(mark_at(marks, at)))
}

// Gives the names of a trail their ends, the last one first.
fn close(links: &[Link], marks: &mut [Mark], trail: Vec<usize>, start: usize, end: End)
    requires { HasWalked links.now marks.old marks.old trail.items start end }
    ensures walk { IsWalk links.now marks.new [] }
    ensures begun { slice_get marks.new start ≡ Some New → ⊥ }
    ensures kept { NoneRenewed marks.old marks.new }
{
    let mut trail = trail;
    let mut end = end;
    while let Some(n) = trail.pop() {
        end = through(link_at(links, n), end);
        put(marks, n, Mark::Done(end));
    }
}

// Finds the end of the chain from a name, and of those on it.
fn settle(alloc: Global, links: &[Link], marks: &mut [Mark], start: usize) -> Result<(), NoMemory>
    requires { IsWalk links.now marks.old [] }
    ensures walk { OnOk result (IsWalk links.now marks.new []) }
    ensures begun { OnOk result (slice_get marks.new start ≡ Some New → ⊥) }
    ensures kept { OnOk result (NoneRenewed marks.old marks.new) }
{
    let mut trail = Vec::new(alloc);
    let end = walk(links, marks, &mut trail, start)?;
    close(links, marks, trail, start, end);
    Ok(())
}

// Finds the ends of all chains.
fn settle_all(alloc: Global, links: &[Link]) -> Result<Vec<Mark>, NoMemory>
    ensures walk { IfOk result (λ marks. IsWalk links.now marks.items []) }
    ensures begun { IfOk result (λ marks. (n : ℕ) → slice_get marks.items n ≡ Some New → ⊥) }
{
    let mut marks = first_marks(alloc, links)?;
    for start in 0..links.len() {
        settle(alloc, links, marks.as_mut_slice(), start)?;
    }
    Ok(marks)
}

fn ends_in(alloc: Global, marks: &[Mark]) -> Result<Vec<End>, NoMemory>
    ensures { IfOk result (λ ends. ends.items ≡ map (λ mark. end_marked (Some mark)) marks.now) }
{
    let mut ends = Vec::new(alloc);
    for i in 0..marks.len() {
        ends.push(end_marked(Some(marks[i])))?;
    }
    Ok(ends)
}

/// Where the chain of each name ends. A name is the number of its link; of a number that has none nothing is known. Each name's
/// end is found once, and serves all chains that come to it.
///
/// # Errors
///
/// `NoMemory` where memory is refused.
pub fn ends_of(alloc: Global, links: &[Link]) -> Result<Vec<End>, NoMemory>
    ensures { IfOk result (λ ends. AreEnds links.now ends.items) }
{
    let marks = settle_all(alloc, links)?;
    let ends = ends_in(alloc, marks.as_slice())?;
    Ok(ends)
}
