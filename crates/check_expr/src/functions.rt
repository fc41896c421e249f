//! The names of functions.
#![tactic(auto, unfolding(check_moves::specs::View::around))]

ghost use Rattle.std.specs.Prelude.{◌≡◌, IfOk};
ghost use Rattle.std.specs.Option.{option_map};
ghost use Rattle.check_world.specs.View.{world_view};
ghost use Rattle.code_tree.specs.View.{function_view};
ghost use Rattle.scopes.specs.Rows.{binding_view};
ghost use Rattle.check_moves.specs.View.{scope};
ghost use Rattle.check_expr.specs.Bodies.{own_of};

use binders::function_binding;
use check_moves::State;
use check_world::World;
use code_tree::Function;
use flow_values::NoMemory;
use part_steps::next;
use scopes::Binding;

/// The name of a function expression, as the scope round it has it.
///
/// # Errors
///
/// `NoMemory` where memory is refused.
#[tactic(auto, using(crate::proofs::Entering::own_other, crate::proofs::Entering::own_none), unfolding(check_moves::specs::View::around))]
pub(crate) fn own_binding(
    world: &World<'_>,
    state: &State,
    function: &Function,
    is_expression: bool,
) -> Result<Option<Binding>, NoMemory>
    ensures { IfOk result (λ own. option_map binding_view own ≡ own_of (world_view world.now) is_expression (function_view function.now) (scope state.now).depth) }
{
    if !is_expression {
        return Ok(None);
    }
    match &function.name {
        Some(name) => {
            let token = next(function.first)?;
            let depth = state.scope.depth;
            let binding = function_binding(world, depth, token, name, &function.signature)?;
            Ok(Some(binding))
        }
        None => Ok(None),
    }
}
