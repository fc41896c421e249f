//! A writer that tells its states: one entity, whose payload says nothing, so that each state is the same.
ghost use Rattle.std.specs.Prelude.{◌≡◌, ◌+◌, ◌^◌, ◌<◌, ◌≤◌, [], ◌∷◌, refl, true, false, replicate, length, slice_get, List, Option, Some, IfOk, OnErr};
ghost use Rattle.std.specs.Arc.{arc_value};
ghost use Rattle.heap_core.specs.Meaning.{Meaning, staging};
ghost use Rattle.heap_core.specs.PlainLaws.{only_bounded};
ghost use Rattle.std.proofs.Common.{arith, lit<, ap, subst, ◌∙◌};
ghost use Rattle.std.proofs.lemmas.List.{length-replicate, get_or-replicate};
ghost use Rattle.std.proofs.lemmas.Option.{slice_get-get_or};

use flow_values::NoMemory;
use heap_core::HeapWriter;
use heap_core::transactions::commit_state;
use std::sync::{Arc, Wait};
use std::test::Fail;

/// It may wait where it begins.
#[derive(Drop)]
struct Teller<'a, R: Wait> {
    rt: &'a R,
    blank: Arc<()>,
    version: u32,
    is_open: bool,
    is_staged: bool,
    last: u32,
    ghost room: { is_open ≡ true → version + 1 < 2 ^ 31 },
    ghost closed: { is_open ≡ false → is_staged ≡ false },
    ghost bounded: { last ≤ version },
}

impl<'a, R: Wait> HeapWriter<()> for Teller<'a, R> {
    type Part = ();

    ghost part = { λ _. tt };

    ghost meaning = { λ t. record { version = t.version; is_open = t.is_open; committed = tt ∷ []; latest = tt ∷ []; versions = t.last ∷ []; staged = t.is_staged ∷ [] } };

    ghost told = { λ t. Some (replicate (t.version + 1) (tt ∷ [])) };

    ghost sound = { λ t. record { some_entity = lit< tt; as_many = (refl, refl, refl); fit = λ _ _ _ _ _. tt; bounded = only_bounded t.last t.version t.bounded; unstaged = λ _ _. refl; closed = λ h. ap (λ b. b ∷ []) (t.closed h); room = t.room } };

    ghost numbered = { λ _. lit< tt };

    ghost told_last = { λ t states h. let blank : List (Unit {0}) = tt ∷ [] in let same : replicate (t.version + 1) blank ≡ states = Prim.cc in subst (λ (s : List (List (Unit {0}))). (length s ≡ t.version + 1) × (slice_get s t.version ≡ Some blank)) same (length-replicate (t.version + 1) blank, slice_get-get_or (replicate (t.version + 1) blank) t.version blank (Prim.omega (arith, length-replicate (t.version + 1) blank)) ∙ ap Some (get_or-replicate (t.version + 1) t.version blank blank (Prim.omega arith))) };

    fn version(&self) -> u32 {
        self.version
    }

    fn is_open(&self) -> bool {
        self.is_open
    }

    fn begin(&mut self) {
        for _ in self.rt.forever() {
            break;
        }
        self.is_open = true;
    }

    fn stage(&mut self, e: u32, payload: Arc<()>) -> Result<(), NoMemory>
        requires { (self.old.is_open ≡ true) × (e < 1) }
        ensures ok { let old : Meaning (Unit {0}) = record { version = self.old.version; is_open = self.old.is_open; committed = tt ∷ []; latest = tt ∷ []; versions = self.old.last ∷ []; staged = self.old.is_staged ∷ [] } in let new : Meaning (Unit {0}) = record { version = self.new.version; is_open = self.new.is_open; committed = tt ∷ []; latest = tt ∷ []; versions = self.new.last ∷ []; staged = self.new.is_staged ∷ [] } in IfOk result (λ _. new ≡ staging e (arc_value payload) old) }
        ensures err { let old : Meaning (Unit {0}) = record { version = self.old.version; is_open = self.old.is_open; committed = tt ∷ []; latest = tt ∷ []; versions = self.old.last ∷ []; staged = self.old.is_staged ∷ [] } in let new : Meaning (Unit {0}) = record { version = self.new.version; is_open = self.new.is_open; committed = tt ∷ []; latest = tt ∷ []; versions = self.new.last ∷ []; staged = self.new.is_staged ∷ [] } in OnErr result (new ≡ old) }
        ensures told { let old : Option (List (List (Unit {0}))) = Some (replicate (self.old.version + 1) (tt ∷ [])) in Some (replicate (self.new.version + 1) (tt ∷ [])) ≡ old }
    {
        self.is_staged = true;
        Ok(())
    }

    fn latest(&self, _e: u32) -> Result<Arc<()>, NoMemory> {
        Ok(Arc::try_clone(&self.blank)?)
    }

    fn entity_version(&self, _e: u32) -> u32 {
        if self.is_staged {
            self.version + 1
        } else {
            self.last
        }
    }

    fn commit(&mut self) -> u32 {
        self.version += 1;
        if self.is_staged {
            self.last = self.version;
        }
        self.is_staged = false;
        self.is_open = false;
        self.version
    }

    fn rollback(&mut self) {
        self.is_staged = false;
        self.is_open = false;
    }
}

#[test]
fn a_writer_may_tell_its_states(rt: HostRuntime) -> Result<(), Fail> {
    let blank = Arc::new(rt.alloc(), ())?;
    let state = [Arc::try_clone(&blank)?];
    let mut teller = Teller {
        rt: &rt,
        blank,
        version: 0,
        is_open: false,
        is_staged: false,
        last: 0,
    };
    assert_eq!(rt; commit_state(&mut teller, &state)?, 1);
    assert_eq!(rt; teller.entity_version(0), 1);
    Ok(())
}
