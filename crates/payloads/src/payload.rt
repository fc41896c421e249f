use check_values::{Deps, Errs, Root, Sig};
use flow_values::Shared;
use heap_core::Program;
use program_check::source_front::Parse;

/// What an entity holds. Entity 0 holds the root; the module of row r has its results at the entities
/// `4 * r + 1` to `4 * r + 4`, in the order of the variants.
#[derive(Drop)]
pub enum Payload {
    /// Nothing.
    Absent,
    /// The modules of the version.
    Root(Shared<Root>),
    /// What a module's source says by itself.
    Parse(Shared<Parse>),
    /// Which modules its specifiers find.
    Deps(Shared<Deps>),
    /// What it says to others in the whole program.
    Sig(Shared<Sig>),
    /// Its errors.
    Errs(Shared<Errs>),
}

impl Program for Payload {
    ghost use Rattle.payloads.specs.State.{fits, fits_once};

    ghost fits = { fits };

    ghost fits_once = { fits_once };
}
