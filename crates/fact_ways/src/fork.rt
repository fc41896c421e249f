//! Two ways from a mark.
ghost use Rattle.std.specs.Prelude.{◌≡◌, None, Some, OnOk, IfOk};
ghost use Rattle.flow_facts.specs.Known.{joined};
ghost use Rattle.refine_flow.specs.Standing.{known, known_over};
ghost use Rattle.fact_ways.specs.Ways.{Fits, Leads, yes_of};

use flow_values::NoMemory;
use refine_flow::{Arm, Facts, Joins, Mark};

/// Two ways from a mark: what the facts are on one of them, as an arm; on the other one they are the
/// facts as they stand.
#[derive(Drop)]
pub struct Fork {
    pub mark: Mark,
    pub arm: Arm,
}

/// A mark, and an arm that changes nothing.
///
/// # Errors
///
/// `NoMemory` where memory is refused.
pub fn stand(facts: &mut Facts) -> Result<Fork, NoMemory>
    ensures facts { OnOk result (known facts.new ≡ known facts.old) }
    ensures arm { IfOk result (λ k. known_over k.mark k.arm facts.new ≡ known facts.old) }
    ensures leads { IfOk result (λ k. Leads None facts.old (Some k) facts.new) }
{
    let mark = facts.mark()?;
    let arm = facts.turn(&mark)?;
    Ok(Fork { mark, arm })
}

/// The two ways behind an expression, be they the same or not.
///
/// # Errors
///
/// `NoMemory` where memory is refused.
pub fn split(facts: &mut Facts, fork: Option<Fork>) -> Result<Fork, NoMemory>
    requires { Fits fork facts.old }
    ensures facts { OnOk result (known facts.new ≡ known facts.old) }
    ensures arm { IfOk result (λ k. known_over k.mark k.arm facts.new ≡ yes_of fork facts.old) }
    ensures leads { IfOk result (λ k. Leads fork facts.old (Some k) facts.new) }
{
    match fork {
        Some(fork) => Ok(fork),
        None => stand(facts),
    }
}

/// Goes on with the way of the arm. That of the facts is the arm then.
///
/// # Errors
///
/// `NoMemory` where memory is refused.
pub fn swap(facts: &mut Facts, fork: Fork) -> Result<Fork, NoMemory>
    requires { Fits (Some fork) facts.old }
    ensures facts { OnOk result (known facts.new ≡ known_over fork.mark fork.arm facts.old) }
    ensures arm { IfOk result (λ k. known_over k.mark k.arm facts.new ≡ known facts.old) }
    ensures leads { IfOk result (λ k. Leads (Some fork) facts.old (Some k) facts.new) }
{
    let Fork { mark, arm } = fork;
    let other = facts.turn(&mark)?;
    facts.resume(&mark, &arm)?;
    Ok(Fork { mark, arm: other })
}

/// Goes on with the way of the arm alone.
///
/// # Errors
///
/// `NoMemory` where memory is refused.
pub fn take(facts: &mut Facts, fork: Fork) -> Result<(), NoMemory>
    requires { Fits (Some fork) facts.old }
    ensures facts { OnOk result (known facts.new ≡ known_over fork.mark fork.arm facts.old) }
    ensures leads { OnOk result (Leads (Some fork) facts.old None facts.new) }
{
    let Fork { mark, arm: _ } = swap(facts, fork)?;
    facts.spend(mark);
    Ok(())
}

/// Goes on where the facts meet themselves, as two ways do that are the same.
///
/// # Errors
///
/// `NoMemory` where memory is refused.
pub fn meet_same(facts: &mut Facts) -> Result<(), NoMemory>
    ensures facts { OnOk result (known facts.new ≡ joined (known facts.old) (known facts.old)) }
    ensures leads { OnOk result (Leads None facts.old None facts.new) }
{
    if facts.is_smooth() {
        return Ok(());
    }
    let fork = stand(facts)?;
    meet(facts, fork, Joins::Made)?;
    Ok(())
}

/// Goes on where both ways go on, that of the arm first. The joins of types may wait for those with a
/// way around.
///
/// # Errors
///
/// `NoMemory` where memory is refused.
pub fn meet(facts: &mut Facts, fork: Fork, joins: Joins) -> Result<(), NoMemory>
    requires { Fits (Some fork) facts.old }
    ensures facts { OnOk result (known facts.new ≡ joined (known_over fork.mark fork.arm facts.old) (known facts.old)) }
    ensures leads { OnOk result (Leads (Some fork) facts.old None facts.new) }
{
    facts.join_arm(&fork.mark, &fork.arm, joins)?;
    facts.spend(fork.mark);
    Ok(())
}
