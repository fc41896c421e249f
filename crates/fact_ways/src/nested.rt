//! Ways in one another.
ghost use Rattle.std.specs.Prelude.{◌≡◌, ◌≤◌, length, None, Some, OnOk, IfOk, reverse};
ghost use Rattle.flow_facts.specs.Known.{joined};
ghost use Rattle.refine_flow.specs.Standing.{known, known_over};
ghost use Rattle.refine_flow.specs.Gathered.{known_with, IsGathered};
ghost use Rattle.fact_ways.specs.Ways.{Fits, Leads, StandsBefore, AreNested, outermost, way_of, ways_of, all_joined};

use crate::fork::Fork;
use flow_values::NoMemory;
use refine_flow::{Facts, Gathered, Joins};

// Of ways in one another the place of the outermost one whose arm is live, or their number where none
// is. All joins with those inside of it may wait for the join with it, which makes them.
fn outermost_live(ways: &[Fork]) -> usize
    ensures { result ≤ length ways.now }
{
    for i in 0..ways.len() {
        if !ways[i].arm.is_dead() {
            return i;
        }
    }
    ways.len()
}

/// The facts, on the last of two ways in one another, meet the way that left before. What is left are
/// two ways from the mark before, with the arm of the last one. The joins of types may wait for those
/// with a way around.
///
/// # Errors
///
/// `NoMemory` where memory is refused.
pub fn meet_way(facts: &mut Facts, last: Fork, left: Fork, joins: Joins) -> Result<Fork, NoMemory>
    requires last { Fits (Some last) facts.old }
    requires left { StandsBefore left (Some last) facts.old }
    ensures facts { OnOk result (known facts.new ≡ joined (known_over left.mark left.arm facts.old) (known facts.old)) }
    ensures arm { IfOk result (λ k. known_over k.mark k.arm facts.new ≡ known_over last.mark last.arm facts.old) }
    ensures leads { IfOk result (λ k. Leads (Some left) facts.old (Some k) facts.new) }
{
    let Fork { mark, arm } = last;
    let Fork {
        mark: before,
        arm: way,
    } = left;
    let arm = facts.lengthen(mark, &before, arm)?;
    facts.join_arm(&before, &way, joins)?;
    Ok(Fork { mark: before, arm })
}

/// The facts, on the last of many ways in one another, meet each of those that left before, the last
/// one first. What is left are two ways from the first mark, with the arm of the last one.
///
/// # Errors
///
/// `NoMemory` where memory is refused.
pub fn meet_all(facts: &mut Facts, last: Fork, left: Vec<Fork>) -> Result<Fork, NoMemory>
    requires last { Fits (Some last) facts.old }
    requires left { AreNested (reverse left.items) (Some last) facts.old }
    ensures facts { OnOk result (known facts.new ≡ all_joined (ways_of facts.old (reverse left.items)) (known facts.old)) }
    ensures arm { IfOk result (λ k. known_over k.mark k.arm facts.new ≡ known_over last.mark last.arm facts.old) }
    ensures leads { IfOk result (λ k. Leads (outermost (reverse left.items) (Some last)) facts.old (Some k) facts.new) }
{
    let outermost = outermost_live(left.as_slice());
    let (mut last, mut left) = (last, left);
    while let Some(way) = left.pop() {
        let joins = Joins::waiting_if(left.len() > outermost);
        last = meet_way(facts, last, way, joins)?;
    }
    Ok(last)
}

// The way of an arm meets what is gathered behind the facts.
fn gather_way(
    facts: &mut Facts,
    gathered: Gathered,
    way: Fork,
    joins: Joins,
) -> Result<Gathered, NoMemory>
    requires fits { Fits (Some way) facts.old }
    requires gathered { IsGathered gathered facts.old }
    ensures facts { IfOk result (λ g. known_with g facts.new ≡ joined (way_of facts.old way) (known_with gathered facts.old)) }
    ensures gathered { IfOk result (λ g. IsGathered g facts.new) }
    ensures leads { OnOk result (Leads (Some way) facts.old None facts.new) }
{
    let Fork { mark, arm } = way;
    facts.gather_way(gathered, mark, arm, joins)
}

/// The facts meet many ways in one another, the last one first. All of them meet at once: what they
/// changed is put on the trail when all have met.
///
/// # Errors
///
/// `NoMemory` where memory is refused.
#[tactic(auto, using(crate::proofs::Gathers::gathered_facts))]
pub fn meet_arms(facts: &mut Facts, arms: Vec<Fork>) -> Result<(), NoMemory>
    requires { AreNested (reverse arms.items) None facts.old }
    ensures facts { OnOk result (known facts.new ≡ all_joined (ways_of facts.old (reverse arms.items)) (known facts.old)) }
    ensures leads { OnOk result (Leads (outermost (reverse arms.items) None) facts.old None facts.new) }
{
    let outermost = outermost_live(arms.as_slice());
    let mut gathered = facts.gather()?;
    let mut arms = arms;
    while let Some(way) = arms.pop() {
        let joins = Joins::waiting_if(arms.len() > outermost);
        gathered = gather_way(facts, gathered, way, joins)?;
    }
    facts.make_gathered(gathered)
}
