//! What the writer does. Each call but `begin` takes no leave to wait.
ghost use Rattle.std.specs.Prelude.{◌≡◌, ◌≢◌, ◌+◌, ◌-◌, ◌^◌, ◌<◌, ◌≤◌, ◌++◌, [], ◌∷◌, true, false, Option, Some, None, OnOk, IfErr, OnErr, IsOk, IfOk, length, slice_set, slice_get, slice_index};
ghost use Rattle.std.specs.Arc.{arc_value};
ghost use Rattle.heap_core.specs.Meaning.{AllFit, opened, staging, after_commit, after_rollback};
ghost use Rattle.entity_heap.specs.Rule.{AreStates};
ghost use Rattle.entity_heap.specs.Plans.{visit_of, plan_of, after_load};
ghost use Rattle.entity_heap.specs.Tells.{IsMet};
ghost use Rattle.entity_heap.specs.Writers.{IsWriterOf, plan_in, meaning_in, GoesOn, IsDrained, IsPinned};
ghost use Rattle.entity_heap.specs.Lanes.{visit_in, IsLaneOf, AreLanesOf, AreMet};

use super::parts::{list, put_out, renew, roll_all, share_out};
use super::{Core, Heap, Lane, Pinned, Writer, Writing};
use crate::steps;
use flow_values::NoMemory;
use heap_core::{HeapWriter, Program};
use std::sync::{Arc, Wait};
use std::{snapshot, thread};

impl<P: Program> Writer<P> {
    /// The number of the committed state, from 0.
    pub fn version(&self) -> u32
        ensures { result ≡ (meaning_in self.now).version }
    {
        self.plain.version()
    }

    /// Whether a transaction is open.
    pub fn is_open(&self) -> bool
        ensures { result ≡ (meaning_in self.now).is_open }
    {
        self.plain.is_open()
    }

    /// The latest payload of the entity `e`: the staged one where there is one, and else the committed one.
    ///
    /// # Errors
    ///
    /// `NoMemory` where memory is refused.
    pub fn latest(&self, e: u32) -> Result<Arc<P>, NoMemory>
        requires { e < length (meaning_in self.now).committed }
        ensures { IfOk result (λ payload. slice_get (meaning_in self.now).latest e ≡ Some (arc_value payload)) }
    {
        self.plain.latest(e)
    }

    /// The version at which the entity `e` was last staged and committed, and the next one while it is staged.
    pub fn entity_version(&self, e: u32) -> u32
        requires { e < length (meaning_in self.now).committed }
        ensures committed { slice_get (meaning_in self.now).staged e ≡ Some false → result ≡ slice_index (meaning_in self.now).versions e }
        ensures staged { slice_get (meaning_in self.now).staged e ≡ Some true → result ≡ (meaning_in self.now).version + 1 }
    {
        self.plain.entity_version(e)
    }

    // Whether the version before is drained. At `Err` it is the departures that were found.
    fn drain(&mut self, heap: &Heap<P>) -> Result<(), u32>
        requires from { IsWriterOf heap.now self.old }
        requires closed { (meaning_in self.old).is_open ≡ false }
        ensures same { GoesOn self.old self.new }
        ensures meaning { meaning_in self.new ≡ meaning_in self.old }
        ensures ok { OnOk result ((self.new.drained ≡ true) × IsDrained self.old self.new) }
        ensures met { IsMet (plan_in self.old) → IsOk result }
        ensures owed { self.new.owed ≡ (plan_in self.new).owed }
        ensures err { IfErr result (λ left. (left < (plan_in self.old).owed) × (self.new.owed ≡ (plan_in self.old).owed) × (self.old.drained ≡ false) × (plan_in self.new ≡ after_load left (plan_in self.old))) }
    {
        if self.drained {
            return Ok(());
        }
        let left = steps::drain(
            &heap.board.shared,
            &mut self.place,
            self.plain.version() as u64,
        );
        if left != self.owed as u64 {
            return Err(left as u32);
        }
        self.drained = true;
        self.owed = 0;
        Ok(())
    }

    fn reset(&mut self, heap: &Heap<P>)
        requires { IsWriterOf heap.now self.old × (self.old.drained ≡ true) }
        ensures same { GoesOn self.old self.new }
        ensures meaning { meaning_in self.new ≡ meaning_in self.old }
        ensures found { (plan_in self.new).found ≡ (plan_in self.old).found }
        ensures reset { self.new.reset ≡ true }
    {
        if self.reset {
            return;
        }
        steps::reset(
            &heap.board.shared,
            &mut self.place,
            self.plain.version() as u64,
        );
        self.reset = true;
    }

    /// Opens a transaction, unless lanes are still pinned at the version before the current one.
    ///
    /// # Errors
    ///
    /// `Pinned` exactly where the load of this call found fewer departures from that version than there were arrivals.
    /// Nothing has changed then. It never comes where each lane was met since the last commit.
    pub fn try_begin(&mut self, heap: &Heap<P>) -> Result<(), Pinned>
        requires from { IsWriterOf heap.now self.old }
        requires closed { ((meaning_in self.old).is_open ≡ false) × ((meaning_in self.old).version + 1 < 2 ^ 31) }
        ensures same { GoesOn self.old self.new }
        ensures ok { OnOk result (meaning_in self.new ≡ opened (meaning_in self.old)) }
        ensures drained { OnOk result (IsDrained self.old self.new) }
        ensures left { OnOk result ((plan_in self.new).drained ≡ true) }
        ensures met { IsMet (plan_in self.old) → IsOk result }
        ensures pinned { IfErr result (λ p. IsPinned self.old self.new p) }
        ensures err { OnErr result (meaning_in self.new ≡ meaning_in self.old) }
    {
        if let Err(left) = self.drain(heap) {
            return Err(Pinned {
                version: self.plain.version() - 1,
                arrived: self.owed,
                left,
            });
        }
        self.reset(heap);
        self.plain.begin();
        Ok(())
    }

    /// Opens a transaction. It waits for the lanes that are pinned at the version before the current one.
    pub fn begin<R: Wait>(&mut self, rt: &R, heap: &Heap<P>)
        requires from { IsWriterOf heap.now self.old }
        requires closed { ((meaning_in self.old).is_open ≡ false) × ((meaning_in self.old).version + 1 < 2 ^ 31) }
        ensures same { GoesOn self.old self.new }
        ensures meaning { meaning_in self.new ≡ opened (meaning_in self.old) }
        ensures left { (plan_in self.new).drained ≡ true }
    {
        for _ in rt.forever() {
            if self.try_begin(heap).is_ok() {
                return;
            }
            thread::yield_now();
        }
        unreachable!()
    }

    /// Makes `payload` the latest one of the entity `e`: each lane then holds it beside the one that its readers read.
    ///
    /// # Errors
    ///
    /// `NoMemory` where memory is refused. Nothing has changed then.
    pub fn stage(&mut self, heap: &Heap<P>, e: u32, payload: Arc<P>) -> Result<(), NoMemory>
        requires from { IsWriterOf heap.now self.old }
        requires open { ((meaning_in self.old).is_open ≡ true) × (e < length (meaning_in self.old).committed) }
        ensures same { GoesOn self.old self.new }
        ensures ok { IfOk result (λ _. meaning_in self.new ≡ staging e (arc_value payload) (meaning_in self.old)) }
        ensures err { OnErr result (meaning_in self.new ≡ meaning_in self.old) }
    {
        let value = snapshot::Snapshot::of(&*payload);
        share_out(&mut self.shares, &payload, self.lanes)?;
        self.numbers.reserve(1)?;
        self.plain.stage(e, payload)?;
        put_out(
            &heap.board.shared,
            &mut self.place,
            &mut self.shares,
            &value,
            self.lanes,
            heap.entities,
            self.plain.version(),
            e,
            self.words[e as usize],
        );
        list(&mut self.numbers, &mut self.staged, e);
        Ok(())
    }

    /// Commits what is staged by one step, and answers the new version, one more than the one before.
    pub fn commit(&mut self, heap: &Heap<P>) -> u32
        requires from { IsWriterOf heap.now self.old }
        requires open { ((meaning_in self.old).is_open ≡ true) × AllFit P.fits (meaning_in self.old).latest }
        ensures from { IsWriterOf heap.now self.new }
        ensures meaning { meaning_in self.new ≡ after_commit (meaning_in self.old) }
        ensures result { result ≡ (meaning_in self.new).version }
        ensures history { (plan_in self.new).history ≡ (plan_in self.old).history ++ (meaning_in self.old).latest ∷ [] }
        ensures same { let q = plan_in self.new in let p = plan_in self.old in (q.made ≡ p.made) × (q.met ≡ p.met) × (q.heard ≡ p.heard) }
    {
        let version = self.plain.version();
        self.owed = steps::commit(&heap.board.shared, &mut self.place, version as u64) as u32;
        renew(
            &mut self.words,
            &mut self.staged,
            &mut self.numbers,
            version,
        );
        self.drained = false;
        self.reset = false;
        self.plain.commit()
    }

    /// Gives up what is staged: each entity's latest payload is the committed one again.
    pub fn rollback(&mut self, heap: &Heap<P>)
        requires from { IsWriterOf heap.now self.old }
        requires open { (meaning_in self.old).is_open ≡ true }
        ensures same { GoesOn self.old self.new }
        ensures meaning { meaning_in self.new ≡ after_rollback (meaning_in self.old) }
    {
        roll_all(
            &heap.board.shared,
            &mut self.place,
            &self.words,
            &mut self.staged,
            &mut self.numbers,
            heap.entities,
        );
        self.plain.rollback();
    }

    fn meet_core(&mut self, lane: &mut Core<P>, heap: &Heap<P>)
        requires from { IsWriterOf heap.now self.old × (lane.old.place.table_id ≡ heap.now.board.shared.table_id) }
        requires unpinned { lane.old.pinned ≡ None }
        ensures lane { (lane.new.place.table_id ≡ lane.old.place.table_id) × (lane.new.pinned ≡ None) × (visit_of lane.new.place.me.0 ≡ record (visit_of lane.old.place.me.0) { floor = (meaning_in self.old).version }) }
        ensures floor { (visit_of lane.old.place.me.0).floor ≤ (meaning_in self.old).version }
        ensures states { AreStates (plan_in self.old) (visit_of lane.old.place.me.0).entries }
        ensures same { IsWriterOf heap.now self.new × (meaning_in self.new ≡ meaning_in self.old) }
        ensures plan { let l = visit_of lane.old.place.me.0 in plan_in self.new ≡ record (plan_in self.old) { met = slice_set (plan_in self.old).met l.number (meaning_in self.old).version; heard = l.entries } }
    {
        steps::meet(&heap.board.shared, &mut self.place, &mut lane.place);
        lane.floor = self.plain.version();
    }

    /// The writer and a lane meet. The lane has then learnt the writer's version, and the writer what the lane has
    /// recorded: each version and state there is the writer's own. It notes that the lane has no pin before the current
    /// version.
    pub fn meet(&mut self, lane: &mut Lane<P>, heap: &Heap<P>)
        requires from { IsWriterOf heap.now self.old × IsLaneOf heap.now lane.old }
        ensures from { IsWriterOf heap.now self.new × IsLaneOf heap.now lane.new }
        ensures lane { visit_in lane.new ≡ record (visit_in lane.old) { floor = (meaning_in self.old).version } }
        ensures floor { (visit_in lane.old).floor ≤ (meaning_in self.old).version }
        ensures states { AreStates (plan_in self.old) (visit_in lane.old).entries }
        ensures meaning { meaning_in self.new ≡ meaning_in self.old }
        ensures plan { let l = visit_in lane.old in plan_in self.new ≡ record (plan_in self.old) { met = slice_set (plan_in self.old).met l.number (meaning_in self.old).version; heard = l.entries } }
    {
        let mut core = lane.leave();
        self.meet_core(&mut core, heap);
        lane.core = Some(core);
    }

    /// The writer meets each of these lanes, which are the heap's from the first on. Where they are all of the heap's,
    /// no lane is pinned before the current version then, and `try_begin` succeeds.
    pub fn meet_all(&mut self, lanes: &mut [Lane<P>], heap: &Heap<P>)
        requires from { IsWriterOf heap.now self.old × AreLanesOf heap.now lanes.old × (length lanes.old ≤ 16) }
        ensures from { IsWriterOf heap.now self.new × AreLanesOf heap.now lanes.new × (length lanes.new ≡ length lanes.old) }
        ensures lanes { AreMet (plan_in self.old) lanes.old lanes.new }
        ensures met { (plan_in self.old).made ≡ length lanes.old → IsMet (plan_in self.new) }
        ensures meaning { meaning_in self.new ≡ meaning_in self.old }
        ensures plan { ((plan_in self.new).made ≡ (plan_in self.old).made) × ((plan_in self.new).history ≡ (plan_in self.old).history) }
    {
        for k in 0..lanes.len() {
            self.meet(&mut lanes[k], heap);
        }
    }

    /// The writer with its heap, as a `HeapWriter`, whose `begin` may wait.
    pub fn on<'a, R>(&'a mut self, rt: &'a R, heap: &'a Heap<P>) -> Writing<'a, P, R>
        requires { IsWriterOf heap.now self.old }
        ensures same_writer { result.writer.ghost_name ≡ self.entry.ghost_name }
        ensures from { (result.writer.now ≡ self.old) × (result.heap.now ≡ heap.now) }
    {
        Writing {
            rt,
            heap,
            writer: self,
        }
    }
}
