//! Faults, and what is seen of the place that is watched.
ghost use Rattle.std.specs.Prelude.{◌≡◌, ℕ, suc, [], Some, None, false, take, OnOk, OnErr, IfOk};
ghost use Rattle.std.specs.Option.{option_copied, option_map};
ghost use Rattle.typing.specs.States.{with_fault, name_fault, add_fault, add_faults, asked, asked_want, noted, fault_at, is_shorter};
ghost use Rattle.check_world.specs.Keys.{plain, fault_key, AreKeys};

use crate::world::World;
use check_values::{Code, Fault};
use flow_values::{List, NoMemory, Span, Text};
use std::alloc::Global;
use std::collections::BTreeSet;
use type_values::FlowType;

/// An expression that was read, and its type.
#[derive(Debug, Drop)]
pub struct Seen {
    pub span: Span,
    pub ty: FlowType,
}

// What tells faults apart, in their order: where a fault begins, where it ends, the name of its code,
// and its details.
type Key = (u32, (u32, (&'static [u8], Text)));

fn key_of(fault: &Fault) -> Result<Key, NoMemory>
    ensures { IfOk result (λ key. plain key ≡ fault_key fault.now) }
{
    let details = fault.details.share()?;
    let name = fault.code.name().as_bytes();
    Ok((fault.span.start, (fault.span.end, (name, details))))
}

// Adds a fault to those that stand, where it is not among them, and its key to theirs.
#[tactic(auto, using(crate::proofs::FaultKeys::same_keys, crate::proofs::Pushed::popped))]
fn put(faults: &mut List<Fault>, keys: &mut BTreeSet<Key>, fault: Fault) -> Result<(), NoMemory>
    requires { AreKeys keys.old faults.old }
    ensures ok { OnOk result (faults.new ≡ with_fault faults.old fault) }
    ensures err { OnErr result (faults.new ≡ faults.old) }
    ensures keys { AreKeys keys.new faults.new }
{
    let key = key_of(&fault)?;
    if keys.contains(&key) {
        return Ok(());
    }
    faults.push(fault)?;
    if keys.insert(key).is_err() {
        faults.pop();
        return Err(NoMemory);
    }
    Ok(())
}

/// The faults so far, in the order of finding, each once; the innermost expression so far that covers
/// the watched place; and whether the code cannot be reached, so that its names alone count.
#[derive(Drop)]
pub struct Notes {
    faults: List<Fault>,
    keys: BTreeSet<Key>,
    watched: Option<Seen>,
    stopped: bool,
    ghost keyed: { AreKeys keys faults },
}

impl Notes {
    ghost use Rattle.check_world.specs.View.{world_view, seen_view, notes_view, is_innermost};

    /// Nothing.
    #[tactic(auto, using(crate::proofs::FaultKeys::no_keys), unfolding(crate::specs::View::notes_view))]
    pub fn new(alloc: Global) -> Notes
        ensures { notes_view result ≡ record { faults = []; watched = None; stopped = false } }
    {
        Notes {
            faults: List::new(alloc),
            keys: BTreeSet::new(alloc),
            watched: None,
            stopped: false,
        }
    }

    /// The faults, in the order of finding.
    #[tactic(auto, unfolding(crate::specs::View::notes_view))]
    pub fn faults(&self) -> &[Fault]
        ensures { result.now ≡ (notes_view self.now).faults }
    {
        self.faults.as_slice()
    }

    /// The innermost expression so far that covers the watched place.
    #[tactic(auto, unfolding(crate::specs::View::notes_view))]
    pub fn watched(&self) -> Option<&Seen>
        ensures { option_map (λ seen. seen_view seen.now) result ≡ (notes_view self.now).watched }
    {
        self.watched.as_ref()
    }

    /// Adds a fault of a name, in code that is reached or not.
    ///
    /// # Errors
    ///
    /// `NoMemory` where memory is refused.
    #[tactic(auto, unfolding(crate::specs::View::notes_view))]
    pub fn name_fault(&mut self, fault: Fault) -> Result<(), NoMemory>
        ensures ok { OnOk result (notes_view self.new ≡ name_fault fault (notes_view self.old)) }
        ensures err { OnErr result (notes_view self.new ≡ notes_view self.old) }
    {
        put(&mut self.faults, &mut self.keys, fault)
    }

    /// Adds a fault of code that is reached.
    ///
    /// # Errors
    ///
    /// `NoMemory` where memory is refused.
    #[tactic(auto, unfolding(crate::specs::View::notes_view))]
    pub fn add_fault(&mut self, fault: Fault) -> Result<(), NoMemory>
        ensures ok { OnOk result (notes_view self.new ≡ add_fault fault (notes_view self.old)) }
        ensures err { OnErr result (notes_view self.new ≡ notes_view self.old) }
    {
        if self.stopped {
            return Ok(());
        }
        self.name_fault(fault)
    }

    /// Adds faults of code that is reached.
    ///
    /// # Errors
    ///
    /// `NoMemory` where memory is refused. The first ones of the faults, up to some number, are then added.
    pub fn add_faults(&mut self, faults: List<Fault>) -> Result<(), NoMemory>
        ensures ok { OnOk result (notes_view self.new ≡ add_faults faults (notes_view self.old)) }
        ensures err { OnErr result ((count : ℕ) × (notes_view self.new ≡ add_faults (take count faults) (notes_view self.old))) }
    {
        for fault in faults.into_vec() {
            self.add_fault(fault)?;
        }
        Ok(())
    }

    /// Adds a fault of a name at a token.
    ///
    /// # Errors
    ///
    /// `NoMemory` where memory is refused.
    pub fn name_at(
        &mut self,
        world: &World<'_>,
        token: usize,
        code: Code,
        name: &Text,
    ) -> Result<(), NoMemory>
        ensures ok { OnOk result (notes_view self.new ≡ name_fault (fault_at (world_view world.now) token (suc token) code name.now) (notes_view self.old)) }
        ensures err { OnErr result (notes_view self.new ≡ notes_view self.old) }
    {
        let fault = world.token_fault(token, code, name.share()?);
        self.name_fault(fault)
    }

    /// Asks a type at these tokens to be below another one.
    ///
    /// # Errors
    ///
    /// `NoMemory` where memory is refused.
    #[tactic(auto, using(crate::proofs::NoteSteps::asked_stopped))]
    pub fn ask(
        &mut self,
        world: &World<'_>,
        first: usize,
        end: usize,
        want: &FlowType,
        ty: &FlowType,
    ) -> Result<(), NoMemory>
        ensures ok { OnOk result (notes_view self.new ≡ asked (world_view world.now) first end want.now ty.now (notes_view self.old)) }
        ensures err { OnErr result (notes_view self.new ≡ notes_view self.old) }
    {
        if self.is_stopped() || world.is_below(ty, want)? {
            return Ok(());
        }
        let details = world.two_types(ty, want)?;
        self.add_fault(world.fault(first, end, Code::IncompatibleType, details))
    }

    /// Asks a type at these tokens to be below what it is read against, if that is told.
    ///
    /// # Errors
    ///
    /// `NoMemory` where memory is refused.
    pub fn ask_want(
        &mut self,
        world: &World<'_>,
        first: usize,
        end: usize,
        want: Option<&FlowType>,
        ty: &FlowType,
    ) -> Result<(), NoMemory>
        ensures ok { OnOk result (notes_view self.new ≡ asked_want (world_view world.now) first end (option_copied want.entry) ty.now (notes_view self.old)) }
        ensures err { OnErr result (notes_view self.new ≡ notes_view self.old) }
    {
        match want {
            Some(want) => self.ask(world, first, end, want, ty),
            None => Ok(()),
        }
    }

    /// Whether the code that is read cannot be reached.
    #[tactic(auto, unfolding(crate::specs::View::notes_view))]
    pub fn is_stopped(&self) -> bool
        ensures { result ≡ (notes_view self.now).stopped }
    {
        self.stopped
    }

    /// Says whether the code that is read cannot be reached.
    #[tactic(auto, unfolding(crate::specs::View::notes_view))]
    pub fn set_stopped(&mut self, stopped: bool)
        ensures { notes_view self.new ≡ record (notes_view self.old) { stopped = stopped } }
    {
        self.stopped = stopped;
    }

    // The span is shorter than that of what was seen, if anything was.
    #[tactic(auto, unfolding(crate::specs::View::notes_view))]
    fn is_shorter(&self, span: Span) -> bool
        ensures { result ≡ is_shorter span (notes_view self.now).watched }
    {
        match &self.watched {
            Some(seen) => {
                span.end.saturating_sub(span.start) < seen.span.end.saturating_sub(seen.span.start)
            }
            None => true,
        }
    }

    // The span covers the watched place, and is shorter than that of what was seen.
    #[tactic(auto, unfolding(crate::specs::View::world_view))]
    fn is_innermost(&self, world: &World<'_>, span: Span) -> bool
        ensures { result ≡ is_innermost (world_view world.now).watch span (notes_view self.now).watched }
    {
        match world.watch {
            Some(place) => span.start <= place && place < span.end && self.is_shorter(span),
            None => false,
        }
    }

    // An expression was read and is the innermost one.
    #[tactic(auto, unfolding(crate::specs::View::notes_view))]
    fn see(&mut self, span: Span, ty: FlowType)
        ensures { notes_view self.new ≡ record (notes_view self.old) { watched = Some (record { span = span; ty = ty }) } }
    {
        self.watched = Some(Seen { span, ty });
    }

    /// Notes the type of an expression at these tokens, where it is the innermost one so far that
    /// covers the watched place.
    ///
    /// # Errors
    ///
    /// `NoMemory` where memory is refused.
    #[tactic(auto, using(crate::proofs::NoteSteps::noted_not, crate::proofs::NoteSteps::noted_new))]
    pub fn note(
        &mut self,
        world: &World<'_>,
        first: usize,
        end: usize,
        ty: &FlowType,
    ) -> Result<(), NoMemory>
        ensures ok { OnOk result (notes_view self.new ≡ noted (world_view world.now) first end ty.now (notes_view self.old)) }
        ensures err { OnErr result (notes_view self.new ≡ notes_view self.old) }
    {
        let span = world.span(first, end);
        if self.is_stopped() {
            return Ok(());
        }
        if self.is_innermost(world, span) {
            self.see(span, ty.share()?);
        }
        Ok(())
    }
}
