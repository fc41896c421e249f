//! What the writer and the readers of a heap promise.
ghost use Rattle.std.specs.Prelude.{◌≡◌, ℕ, ◌+◌, ◌^◌, ◌<◌, Bool, true, false, List, length, refl, Option, Some, None, IfOk, OnErr, slice_get, slice_index};
ghost use Rattle.std.specs.Arc.{arc_value};
ghost use Rattle.heap_core.specs.Meaning.{Meaning, AllFit, IsSound, Appends, opened, staging, after_commit, after_rollback};

use flow_values::NoMemory;
use std::sync::Arc;

/// A type of payloads, with what it means that a payload fits.
pub trait Program: Drop {
    /// `fits entities root e payload`: in a heap of so many entities whose entity 0 holds `root`, the payload may
    /// stand at entity `e`.
    ghost fits: { ℕ → Self → ℕ → Self → Type 0 };

    /// A payload fits in one way at most.
    ghost fits_once: { (entities : ℕ) (root : Self) (e : ℕ) (payload : Self) → IsProp (fits entities root e payload) };
}

/// A payload that says nothing fits everywhere.
impl Program for () {
    ghost fits = { λ _ _ _ _. Unit {0} };

    ghost fits_once = { λ _ _ _ _. λ _ _. refl };
}

/// The one writer of a heap. It commits whole transactions: what it stages is seen by itself alone until `commit`.
///
/// Entities are numbered from 0, the root's number. Each number that is given is below the heap's count.
pub trait HeapWriter<P: Program> {
    /// The type of the part that no call of the trait changes, as the heap that the writer came from.
    type Part;

    /// What no call changes.
    ghost part: { Self → Self.Part };

    /// The version, whether a transaction is open, and what each entity holds.
    ghost meaning: { Self → Meaning P };

    /// The states committed so far, that of version v at place v, where the writer tells them.
    ghost told: { Self → Option (List (List P)) };

    /// The number of the committed state, from 0.
    fn version(&self) -> u32
        ensures { result ≡ (meaning self.now).version };

    /// Whether a transaction is open.
    fn is_open(&self) -> bool
        ensures { result ≡ (meaning self.now).is_open };

    /// Opens a transaction. It may wait for readers.
    fn begin(&mut self)
        requires { ((meaning self.old).is_open ≡ false) × ((meaning self.old).version + 1 < 2 ^ 31) }
        ensures meaning { meaning self.new ≡ opened (meaning self.old) }
        ensures told { told self.new ≡ told self.old }
        ensures part { part self.new ≡ part self.old };

    /// Makes `payload` the latest one of the entity `e`.
    ///
    /// # Errors
    ///
    /// `NoMemory` where memory is refused. Nothing has changed then.
    fn stage(&mut self, e: u32, payload: Arc<P>) -> Result<(), NoMemory>
        requires { ((meaning self.old).is_open ≡ true) × (e < length (meaning self.old).committed) }
        ensures ok { IfOk result (λ _. meaning self.new ≡ staging e (arc_value payload) (meaning self.old)) }
        ensures err { OnErr result (meaning self.new ≡ meaning self.old) }
        ensures told { told self.new ≡ told self.old }
        ensures part { part self.new ≡ part self.old };

    /// The latest payload of the entity `e`: the staged one where there is one, and else the committed one.
    ///
    /// # Errors
    ///
    /// `NoMemory` where memory is refused.
    fn latest(&self, e: u32) -> Result<Arc<P>, NoMemory>
        requires { e < length (meaning self.now).committed }
        ensures { IfOk result (λ payload. slice_get (meaning self.now).latest e ≡ Some (arc_value payload)) };

    /// The version at which the entity `e` was last staged and committed, and the next one while it is staged.
    fn entity_version(&self, e: u32) -> u32
        requires { e < length (meaning self.now).committed }
        ensures committed { slice_get (meaning self.now).staged e ≡ Some false → result ≡ slice_index (meaning self.now).versions e }
        ensures staged { slice_get (meaning self.now).staged e ≡ Some true → result ≡ (meaning self.now).version + 1 };

    /// Commits what is staged, and answers the new version, one more than the one before.
    fn commit(&mut self) -> u32
        requires { ((meaning self.old).is_open ≡ true) × AllFit P.fits (meaning self.old).latest }
        ensures meaning { meaning self.new ≡ after_commit (meaning self.old) }
        ensures result { result ≡ (meaning self.new).version }
        ensures told { Appends (told self.old) (meaning self.old).latest (told self.new) }
        ensures part { part self.new ≡ part self.old };

    /// Gives up what is staged: each entity's latest payload is the committed one again.
    fn rollback(&mut self)
        requires { (meaning self.old).is_open ≡ true }
        ensures meaning { meaning self.new ≡ after_rollback (meaning self.old) }
        ensures told { told self.new ≡ told self.old }
        ensures part { part self.new ≡ part self.old };

    /// What holds at all times.
    ghost sound: { (w : Self) → IsSound P.fits (meaning w) };

    /// Each entity's number is a `u32`.
    ghost numbered: { (w : Self) → length (meaning w).committed < 2 ^ 32 };

    /// The last state told is the committed one, and there are as many before it as the version says.
    ghost told_last: { (w : Self) (states : List (List P)) → told w ≡ Some states → (length states ≡ (meaning w).version + 1) × (slice_get states (meaning w).version ≡ Some (meaning w).committed) };
}

/// A reader of one committed state, which stays as it is while the reader lives.
pub trait HeapReader<P: Program> {
    /// The type of the part that no call of the trait changes.
    type Part;

    /// What no call changes.
    ghost part: { Self → Self.Part };

    /// The version that is read.
    ghost at: { Self → ℕ };

    /// The committed state that is read, with a payload for each entity, the root first.
    ghost state: { Self → List P };

    /// The version that is read.
    fn version(&self) -> u32
        ensures { result ≡ at self.now };

    /// The root, which is the payload of entity 0.
    ///
    /// # Errors
    ///
    /// `NoMemory` where memory is refused. The reader is as before.
    fn root(&mut self) -> Result<Arc<P>, NoMemory>
        ensures payload { IfOk result (λ payload. slice_get (state self.old) 0 ≡ Some (arc_value payload)) }
        ensures same { (at self.new ≡ at self.old) × (state self.new ≡ state self.old) }
        ensures part { part self.new ≡ part self.old };

    /// The payload of the entity `e`, which is below the heap's count.
    ///
    /// # Errors
    ///
    /// `NoMemory` where memory is refused. The reader is as before.
    fn read(&mut self, e: u32) -> Result<Arc<P>, NoMemory>
        requires { e < length (state self.old) }
        ensures payload { IfOk result (λ payload. slice_get (state self.old) e ≡ Some (arc_value payload)) }
        ensures same { (at self.new ≡ at self.old) × (state self.new ≡ state self.old) }
        ensures part { part self.new ≡ part self.old };

    /// There is a root, and every payload that is read fits it.
    ghost fit: { (r : Self) → (0 < length (state r)) × AllFit P.fits (state r) };

    /// Each entity's number is a `u32`.
    ghost numbered: { (r : Self) → length (state r) < 2 ^ 32 };
}
