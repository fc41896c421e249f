//! Facts.
ghost use Rattle.std.specs.Prelude.{◌≡◌, [], ◌∷◌, false, IfOk, reverse};
ghost use Rattle.type_terms.specs.Join.{join_of};
ghost use Rattle.fact_trail.specs.Holding.{type_held};

use flow_values::{List, NoMemory};
use std::alloc::{AllocError, Global};
use type_terms::join;
use type_values::FlowType;

/// The type that is known of a place. A type that is not `rough` is its own join with itself, so that
/// joining facts leaves it as it is. A join may wait until it is asked for, so that many joins of one
/// place are made at once.
#[derive(Drop)]
pub struct Fact {
    alloc: Global,
    ty: FlowType,
    // The types with which it is to be joined, those in front of it, the first one last.
    waiting: List<FlowType>,
    rough: bool,
    ghost settled: { rough ≡ false → join_of (type_held ty waiting ∷ type_held ty waiting ∷ []) ≡ type_held ty waiting },
}

// Whether a type may be another than its join with itself.
#[tactic(auto, using(crate::proofs::Plain::plain_settled, crate::proofs::Plain::empty_settled))]
fn may_change(t: &FlowType) -> bool
    ensures { result ≡ false → join_of (t.now ∷ t.now ∷ []) ≡ t.now }
{
    match t {
        FlowType::Union(_) => true,
        FlowType::Empty => false,
        _ => false,
    }
}

// Types from the last one on.
#[tactic(auto, using(crate::proofs::Waiting::reversed_none, crate::proofs::Waiting::reversed_more))]
fn reversed(alloc: Global, types: &[FlowType]) -> Result<List<FlowType>, NoMemory>
    ensures { IfOk result (λ all. all ≡ reverse types.now) }
{
    let mut all = List::new(alloc);
    let mut left = types.len();
    while left > 0 {
        left -= 1;
        all.push(types[left].share()?)?;
    }
    Ok(all)
}

// The same types.
fn all_shared(alloc: Global, types: &[FlowType]) -> Result<List<FlowType>, NoMemory>
    ensures { IfOk result (λ all. all ≡ types.now) }
{
    let mut all = List::new(alloc);
    for i in 0..types.len() {
        all.push(types[i].share()?)?;
    }
    Ok(all)
}

impl Clone for Fact {
    ghost is_clone = { λ fact copy. copy ≡ fact };

    fn clone(&self) -> Result<Fact, AllocError> {
        match self.again() {
            Ok(copy) => Ok(copy),
            Err(_) => Err(AllocError),
        }
    }
}

impl Fact {
    ghost use Rattle.fact_trail.specs.Types.{ty_of};

    // The same fact, with the joins that wait.
    fn again(&self) -> Result<Fact, NoMemory>
        ensures { IfOk result (λ copy. copy ≡ self.now) }
    {
        let ty = self.ty.share()?;
        let waiting = all_shared(self.alloc, self.waiting.as_slice())?;
        Ok(Fact {
            alloc: self.alloc,
            ty,
            waiting,
            rough: self.rough,
        })
    }

    /// The fact of a type that is its own join with itself, as each join is.
    #[tactic(auto, using(crate::proofs::Waiting::held_alone, crate::proofs::Waiting::settled_alone))]
    pub fn settled(alloc: Global, ty: FlowType) -> Fact
        requires { join_of (ty ∷ ty ∷ []) ≡ ty }
        ensures ty { ty_of result ≡ ty }
        ensures rough { result.rough ≡ false }
    {
        Fact {
            alloc,
            ty,
            waiting: List::new(alloc),
            rough: false,
        }
    }

    /// The fact of any type.
    #[tactic(auto, using(crate::proofs::Waiting::held_alone, crate::proofs::Waiting::settled_alone))]
    pub fn of(alloc: Global, ty: FlowType) -> Fact
        ensures { ty_of result ≡ ty }
    {
        let rough = may_change(&ty);
        Fact {
            alloc,
            ty,
            waiting: List::new(alloc),
            rough,
        }
    }

    /// The fact of the join of a type and that of a fact, which waits until it is asked for. It takes
    /// one step.
    ///
    /// # Errors
    ///
    /// `NoMemory` where memory is refused.
    #[tactic(auto, using(crate::proofs::Waiting::waits_in_front, crate::proofs::Waiting::waits_settled))]
    pub fn waiting(first: FlowType, rest: Fact) -> Result<Fact, NoMemory>
        ensures ty { IfOk result (λ fact. ty_of fact ≡ join_of (first ∷ ty_of rest ∷ [])) }
        ensures rough { IfOk result (λ fact. fact.rough ≡ false) }
    {
        let Fact {
            alloc,
            ty,
            waiting,
            rough: _,
        } = rest;
        let mut more = waiting;
        more.push(first)?;
        Ok(Fact {
            alloc,
            ty,
            waiting: more,
            rough: false,
        })
    }

    /// The type, which is shared, or the join that waits, which is made.
    ///
    /// # Errors
    ///
    /// `NoMemory` where memory is refused, or a part of the type has 2^63 - 1 owners.
    #[tactic(auto, using(crate::proofs::Waiting::held_alone, crate::proofs::Waiting::held_all))]
    pub fn ty(&self, alloc: Global) -> Result<FlowType, NoMemory>
        ensures { IfOk result (λ ty. ty ≡ ty_of self.now) }
    {
        let last = self.ty.share()?;
        if self.waiting.is_empty() {
            return Ok(last);
        }
        let mut all = reversed(alloc, self.waiting.as_slice())?;
        all.push(last)?;
        join(alloc, all.as_slice())
    }

    /// Whether joining it with itself may change it.
    pub fn is_rough(&self) -> bool
        ensures { result ≡ self.now.rough }
    {
        self.rough
    }

    /// A fact of the same type, in which no join waits.
    ///
    /// # Errors
    ///
    /// `NoMemory` where memory is refused, or a part of the type has 2^63 - 1 owners.
    #[tactic(auto, using(crate::proofs::Waiting::held_alone, crate::proofs::Waiting::settled_shared))]
    pub fn share(&self, alloc: Global) -> Result<Fact, NoMemory>
        ensures ty { IfOk result (λ fact. ty_of fact ≡ ty_of self.now) }
        ensures rough { IfOk result (λ fact. fact.rough ≡ self.now.rough) }
    {
        let ty = self.ty(alloc)?;
        Ok(Fact {
            alloc,
            ty,
            waiting: List::new(alloc),
            rough: self.rough,
        })
    }
}
