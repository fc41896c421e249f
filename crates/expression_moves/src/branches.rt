//! Branches that meet again.
#![tactic(auto, unfolding(check_moves::specs::View::around, check_moves::specs::View::now, check_moves::specs::View::told))]

ghost use Rattle.std.specs.Prelude.{◌≡◌, ◌∷◌, [], None, Some, OnOk, IfOk, map, reverse};
ghost use Rattle.type_terms.specs.Join.{join_of};
ghost use Rattle.typing.specs.Forms.{choices_out};
ghost use Rattle.check_world.specs.View.{world_view};
ghost use Rattle.fact_ways.specs.Ways.{Fits, AreNested, outermost};
ghost use Rattle.check_moves.specs.View.{around, now, told};
ghost use Rattle.check_moves.specs.Follows.{Follows};
ghost use Rattle.expression_moves.specs.Moves.{chosen_view, choices_left};

use check_moves::{Read, State};
use check_world::World;
use fact_ways::Fork;
use flow_values::{List, NoMemory};
use refine_flow::Joins;
use type_terms::join;
use type_values::FlowType;

/// A branch of a conditional behind its test: its first token, its type, and the ways at the test, of
/// which the arm is what it made of the facts there.
#[derive(Drop)]
pub struct Chosen {
    pub first: usize,
    pub ty: FlowType,
    pub fork: Fork,
}

// The join of two types.
fn join_two(state: &State, a: FlowType, b: FlowType) -> Result<FlowType, NoMemory>
    ensures { IfOk result (λ t. t ≡ join_of (a ∷ b ∷ [])) }
{
    let mut both = List::new(state.alloc);
    both.push(a)?;
    both.push(b)?;
    Ok(join(state.alloc, both.as_slice())?)
}

// A branch of a conditional that ends at a token meets all that follows it.
#[tactic(auto, using(crate::proofs::Operating::branch_met, crate::proofs::Rounds::fits_round, crate::proofs::Rounds::follows_round, check_moves::proofs::Following::follows_through), unfolding(check_moves::specs::View::around, check_moves::specs::View::now, check_moves::specs::View::told))]
fn meet_branch(
    world: &World<'_>,
    state: &mut State,
    branch: Chosen,
    end: usize,
    rest: Read,
) -> Result<Read, NoMemory>
    requires fits { Fits rest.fork state.old.facts }
    requires nested { AreNested (branch.fork ∷ []) rest.fork state.old.facts }
    ensures told { IfOk result (λ r. told r state.new ≡ choices_out (world_view world.now) end (chosen_view state.old.facts branch ∷ []) (told rest state.old)) }
    ensures around { OnOk result (around state.new ≡ around state.old) }
    ensures follows { IfOk result (λ r. Follows (Some branch.fork) state.old r.fork state.new) }
{
    let Chosen { first, ty, fork } = branch;
    let rest = state.after(rest)?;
    state.meet(fork, Joins::Made)?;
    let ty = join_two(state, ty, rest)?;
    state.noted(world, first, end, Read { ty, fork: None })
}

/// The branches of a conditional that ends at a token, the last one first, meet all that follows
/// them.
///
/// # Errors
///
/// `NoMemory` where memory is refused.
#[tactic(auto, using(crate::proofs::Meeting::branches_none, crate::proofs::Meeting::branches_last, crate::proofs::Meeting::branch_stands, crate::proofs::Meeting::branches_all), unfolding(check_moves::specs::View::around, check_moves::specs::View::now, check_moves::specs::View::told))]
pub fn meet_branches(
    world: &World<'_>,
    state: &mut State,
    chosen: Vec<Chosen>,
    end: usize,
    last: Read,
) -> Result<Read, NoMemory>
    requires fits { Fits last.fork state.old.facts }
    requires nested { AreNested (map (λ c. c.fork) (reverse chosen.items)) last.fork state.old.facts }
    ensures told { IfOk result (λ r. told r state.new ≡ choices_left (world_view world.now) end (map (chosen_view state.old.facts) (reverse chosen.items)) (told last state.old)) }
    ensures around { OnOk result (around state.new ≡ around state.old) }
    ensures follows { IfOk result (λ r. Follows (outermost (map (λ c. c.fork) (reverse chosen.items)) last.fork) state.old r.fork state.new) }
{
    let mut chosen = chosen;
    let mut read = last;
    while let Some(branch) = chosen.pop() {
        read = meet_branch(world, state, branch, end, read)?;
    }
    Ok(read)
}
