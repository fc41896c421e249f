//! Laws of what a writer's calls do, over its meaning.
ghost use Rattle.std.specs.Prelude.{◌≡◌, ℕ, List, false};
ghost use Rattle.heap_core.specs.Meaning.{Meaning, IsSound, opened, after_commit, after_rollback};
ghost use Rattle.heap_core.specs.Transactions.{all_staged, Committed};

use crate::traits::Program;

/// What is given up leaves no trace: `begin`, any stages and `rollback` give back the meaning before them.
pub fn rollback_gives_back<P: Program>(_: &P)
    ensures { (m : Meaning P) (changes : List (ℕ × P)) → IsSound P.fits m → m.is_open ≡ false → after_rollback (all_staged changes (opened m)) ≡ m }
{}

/// A commit changes the entities that were staged since `begin`, and no others.
pub fn commit_changes_the_staged<P: Program>(_: &P)
    ensures { (m : Meaning P) (changes : List (ℕ × P)) → IsSound P.fits m → m.is_open ≡ false → Committed changes m (after_commit (all_staged changes (opened m))) }
{}
