//! One name.
ghost use Rattle.std.specs.Prelude.{◌≡◌, OnOk};
ghost use Rattle.check_world.specs.View.{world_view};
ghost use Rattle.scopes.specs.Rows.{binding_view};
ghost use Rattle.scopes.specs.View.{IsHeight};
ghost use Rattle.typing.specs.Functions.{bind};
ghost use Rattle.binders.specs.View.{bound_since, Binds};

use check_values::Code;
use check_world::{Notes, World};
use flow_values::NoMemory;
use scopes::{Binding, Height, Scope};

/// Binds a name at a token. One that is bound since a height already is a fault.
///
/// # Errors
///
/// `NoMemory` where memory is refused.
#[tactic(auto, using(crate::proofs::Bindings::binds_nothing, crate::proofs::Bindings::binds_one, crate::proofs::Bindings::bound_again, crate::proofs::Bindings::bound_newly))]
pub fn bind(
    world: &World<'_>,
    scope: &mut Scope,
    notes: &mut Notes,
    since: Height,
    token: usize,
    binding: Binding,
) -> Result<(), NoMemory>
    requires { IsHeight since scope.old }
    ensures bound { OnOk result (bound_since since scope.new notes.new ≡ bind (world_view world.now) token (binding_view binding) (bound_since since scope.old notes.old)) }
    ensures binds { OnOk result (Binds since scope.old scope.new) }
{
    if scope.binds_since(since, &binding.name) {
        return notes.name_at(world, token, Code::NameAlreadyBound, &binding.name);
    }
    scope.bind(binding)
}
