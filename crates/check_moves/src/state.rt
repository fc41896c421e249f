//! What is passed on while code is read.
#![tactic(auto, unfolding(crate::specs::View::around, crate::specs::View::now, crate::specs::View::told))]

ghost use Rattle.std.specs.Prelude.{◌≡◌, [], false, None, Some, OnOk, IfOk};
ghost use Rattle.std.specs.Option.{option_copied};
ghost use Rattle.check_world.specs.View.{world_view};
ghost use Rattle.flow_facts.specs.Known.{no_facts, live, without_properties};
ghost use Rattle.refine_flow.specs.Standing.{open_marks};
ghost use Rattle.typing.specs.States.{after, plainly, against, noted_out, change_facts, change_notes, dead, returns};
ghost use Rattle.fact_ways.specs.Ways.{Fits};
ghost use Rattle.check_moves.specs.Moves.{is_met};

use check_world::{Notes, World};
use fact_ways::Fork;
use flow_values::{List, NoMemory};
use plainly_below::is_below;
use refine_flow::Facts;
use scopes::Scope;
use std::alloc::Global;
use type_values::FlowType;

/// What reading an expression gives: its type, and the two ways behind it where they differ. The arm
/// is the way where it is truthy; where it is falsy the facts are as they stand.
#[derive(Drop)]
pub struct Read {
    pub ty: FlowType,
    pub fork: Option<Fork>,
}

/// What is passed on while code is read: the names that are seen, the facts, the notes, what the
/// function around returned so far, and the join of the facts at each `break` of the loop around.
#[derive(Drop)]
pub struct State {
    pub alloc: Global,
    pub scope: Scope,
    pub facts: Facts,
    pub notes: Notes,
    pub returned: List<FlowType>,
    pub breaks: Option<Facts>,
}

// Whether a type is below what it is read against, if that is told.
#[tactic(auto, unfolding(check_world::specs::View::world_view))]
fn is_met(world: &World<'_>, want: Option<&FlowType>, ty: &FlowType) -> Result<bool, NoMemory>
    ensures { IfOk result (λ yes. yes ≡ is_met (world_view world.now) (option_copied want.entry) ty.now) }
{
    match want {
        Some(want) => is_below(world.alloc, world.table, ty, want),
        None => Ok(true),
    }
}

impl State {
    ghost use Rattle.check_moves.specs.View.{around, env, now, told};
    ghost use Rattle.check_moves.specs.Follows.{Follows};

    /// Before anything is read.
    pub fn new(alloc: Global) -> State
        ensures env { env result ≡ record { scope = record { names = []; depth = 0; result = None }; facts = Some no_facts; notes = record { faults = []; watched = None; stopped = false }; returned = []; breaks = None } }
        ensures marks { open_marks result.facts ≡ 0 }
    {
        State {
            alloc,
            scope: Scope::new(alloc),
            facts: Facts::new(alloc),
            notes: Notes::new(alloc),
            returned: List::new(alloc),
            breaks: None,
        }
    }

    /// A type, where the facts are the same for truthy and falsy.
    #[tactic(auto, using(crate::proofs::Following::follows_nothing), unfolding(crate::specs::View::around, crate::specs::View::now, crate::specs::View::told))]
    pub fn plainly(&self, ty: FlowType) -> Read
        ensures told { told result self.now ≡ plainly ty (now self.now) }
        ensures fits { Fits result.fork self.now.facts }
        ensures follows { Follows None self.now result.fork self.now }
    {
        Read { ty, fork: None }
    }

    /// Goes on where both ways behind an expression go on, and gives its type.
    ///
    /// # Errors
    ///
    /// `NoMemory` where memory is refused.
    #[tactic(auto, using(crate::proofs::Ways::after_both), unfolding(crate::specs::View::around, crate::specs::View::now, crate::specs::View::told))]
    pub fn after(&mut self, read: Read) -> Result<FlowType, NoMemory>
        requires { Fits read.fork self.old.facts }
        ensures now { OnOk result (now self.new ≡ after (told read self.old)) }
        ensures ty { IfOk result (λ ty. ty ≡ read.ty) }
        ensures around { OnOk result (around self.new ≡ around self.old) }
        ensures follows { OnOk result (Follows read.fork self.old None self.new) }
    {
        let Read { ty, fork } = read;
        self.meet_both(fork)?;
        Ok(ty)
    }

    /// Notes the type of the expression at these tokens that was read.
    ///
    /// # Errors
    ///
    /// `NoMemory` where memory is refused.
    #[tactic(auto, using(crate::proofs::Following::follows_notes), unfolding(crate::specs::View::around, crate::specs::View::now, crate::specs::View::told))]
    pub fn noted(
        &mut self,
        world: &World<'_>,
        first: usize,
        end: usize,
        read: Read,
    ) -> Result<Read, NoMemory>
        requires { Fits read.fork self.old.facts }
        ensures told { IfOk result (λ r. told r self.new ≡ noted_out (world_view world.now) first end (told read self.old)) }
        ensures around { OnOk result (around self.new ≡ around self.old) }
        ensures follows { IfOk result (λ r. Follows read.fork self.old r.fork self.new) }
    {
        self.notes.note(world, first, end, &read.ty)?;
        Ok(read)
    }

    /// What was read plainly at these tokens, against a type.
    ///
    /// # Errors
    ///
    /// `NoMemory` where memory is refused.
    #[tactic(auto, using(crate::proofs::Following::follows_notes, crate::proofs::Wanted::met_stays), unfolding(crate::specs::View::around, crate::specs::View::now, crate::specs::View::told))]
    pub fn against(
        &mut self,
        world: &World<'_>,
        first: usize,
        end: usize,
        want: Option<&FlowType>,
        read: Read,
    ) -> Result<Read, NoMemory>
        requires { Fits read.fork self.old.facts }
        ensures told { IfOk result (λ r. told r self.new ≡ against (world_view world.now) first end (option_copied want.entry) (told read self.old)) }
        ensures around { OnOk result (around self.new ≡ around self.old) }
        ensures follows { IfOk result (λ r. Follows read.fork self.old r.fork self.new) }
    {
        if is_met(world, want, &read.ty)? {
            return Ok(read);
        }
        self.notes.ask_want(world, first, end, want, &read.ty)?;
        Ok(read)
    }

    /// Whether the code cannot be reached.
    pub fn is_stopped(&self) -> bool
        ensures { result ≡ (now self.now).notes.stopped }
    {
        self.notes.is_stopped()
    }

    /// Says whether the code cannot be reached.
    #[tactic(auto, using(crate::proofs::Following::follows_notes), unfolding(crate::specs::View::around, crate::specs::View::now, crate::specs::View::told))]
    pub fn set_stopped(&mut self, stopped: bool)
        ensures now { now self.new ≡ change_notes (λ notes. record notes { stopped = stopped }) (now self.old) }
        ensures around { around self.new ≡ around self.old }
        ensures follows { Follows None self.old None self.new }
    {
        self.notes.set_stopped(stopped);
    }

    /// Behind this nothing is reached.
    #[tactic(auto, using(crate::proofs::Following::follows_kept), unfolding(crate::specs::View::around, crate::specs::View::now, crate::specs::View::told))]
    pub fn die(&mut self)
        ensures env { env self.new ≡ dead (env self.old) }
        ensures follows { Follows None self.old None self.new }
    {
        self.facts.die();
    }

    /// A type that is returned.
    ///
    /// # Errors
    ///
    /// `NoMemory` where memory is refused.
    #[tactic(auto, using(crate::proofs::Returning::returns_stopped, crate::proofs::Returning::returns_live, crate::proofs::Following::follows_nothing), unfolding(crate::specs::View::around, crate::specs::View::now, crate::specs::View::told))]
    pub fn returns(&mut self, ty: FlowType) -> Result<(), NoMemory>
        ensures env { OnOk result (env self.new ≡ returns ty (env self.old)) }
        ensures follows { OnOk result (Follows None self.old None self.new) }
    {
        if self.notes.is_stopped() {
            return Ok(());
        }
        self.returned.push(ty)
    }

    /// What is known of properties is forgotten, since a call may change them.
    #[tactic(auto, using(crate::proofs::Following::follows_kept), unfolding(crate::specs::View::around, crate::specs::View::now, crate::specs::View::told))]
    pub fn forget_properties(&mut self)
        ensures now { now self.new ≡ change_facts (live without_properties) (now self.old) }
        ensures around { around self.new ≡ around self.old }
        ensures follows { Follows None self.old None self.new }
    {
        self.facts.call();
    }
}
