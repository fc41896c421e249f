ghost use Rattle.std.specs.Prelude.{◌≡◌, ◌<◌, ◌≤◌, ◌^◌, List, ℕ, [], true, length, None, IsSome, OnOk, OnErr};
ghost use Rattle.flow_values.specs.Path.{IsRising};
ghost use Rattle.check_values.specs.Roots.{paths_of};
ghost use Rattle.pending_edits.specs.Pending.{with_edit};
ghost use Rattle.pending_edits.specs.Counting.{counted, edit_at, keeps, kept_in, edits_of, StandsOn, LimitsModules};
ghost use Rattle.pending_edits.specs.declared.edit.Edit.{Edit};
ghost use Rattle.pending_edits.specs.declared.edit.Edit.TheVariants as edit;

use crate::edit::{Edit, EditFault, kept_by};
use crate::modules::{count_modules, newly};
use check_values::Root;
use flow_values::{NoMemory, Path, Text};
use std::alloc::Global;
use std::collections::BTreeMap;
use std::marker::Model;

/// The edits that wait for the next recheck. Contracts see one edit for each path, in rising order of
/// the paths, and the most modules that may be counted, which no call changes.
#[derive(Drop)]
pub struct Edits {
    capacity: u32,
    rows: BTreeMap<Path, Edit>,
    // how many paths are put or touched
    kept: u32,
    // how many edits are of modules of the root, but for those of the paths below
    found: usize,
    // deleted paths that were not looked up in the root yet
    unseen: Vec<Path>,
}

impl Model for Edits {
    ghost use Rattle.std.specs.Prelude.{◌≡◌, ◌≤◌};
    ghost use Rattle.pending_edits.specs.Pending.{Pending};

    ghost Value = { Pending };

    ghost use Rattle.pending_edits.specs.Counting.{kept_in};

    ghost view = { λ e. record { edits = e.rows.entries; capacity = e.capacity; found = e.found; unseen = e.unseen.items } };

    ghost invariant = { λ e. (e.kept ≡ kept_in e.rows.entries) × (e.kept ≤ e.capacity) };
}

// What the edits keep to count modules.
#[derive(Clone, Copy)]
struct Counts {
    kept: u64,
    found: usize,
}

impl Edits {
    /// No edits, with at most `capacity` modules. It takes no memory.
    pub fn new(alloc: Global, capacity: u32) -> Edits
        ensures edits { result.edits ≡ [] }
        ensures capacity { result.capacity ≡ capacity }
        ensures stands { (paths : List (List ℕ)) → StandsOn paths result }
    {
        Edits {
            capacity,
            rows: BTreeMap::new(alloc),
            kept: 0,
            found: 0,
            unseen: Vec::new(alloc),
        }
    }

    /// From the next recheck on the module of this path has this text. `root` is the committed one, on
    /// which the edits stand.
    ///
    /// # Errors
    ///
    /// `TooManyModules` exactly where more modules would be counted than there may be, with their
    /// number, and `NoMemory` where memory is refused. The edits are then as before.
    pub fn put(&mut self, root: &Root, path: Path, text: Text) -> Result<(), EditFault>
        requires rising { IsRising (paths_of root.now) }
        requires few { length root.now.modules < 2 ^ 32 }
        requires stands { StandsOn (paths_of root.now) self.old }
        ensures ok { OnOk result (self.new.edits ≡ with_edit self.old.edits path (edit.Put text)) }
        ensures err { OnErr result (self.new.edits ≡ self.old.edits) }
        ensures too_many { LimitsModules self.old.capacity (counted (paths_of root.now) (with_edit self.old.edits path (edit.Put text))) result }
        ensures stands { StandsOn (paths_of root.now) self.new }
        ensures capacity { self.new.capacity ≡ self.old.capacity }
    {
        self.keep(root, path, Edit::Put(text))
    }

    /// The next recheck reads the folder for the text of the module of this path. `root` is the committed
    /// one, on which the edits stand.
    ///
    /// # Errors
    ///
    /// `TooManyModules` exactly where more modules would be counted than there may be, with their
    /// number, and `NoMemory` where memory is refused. The edits are then as before.
    pub fn touch(&mut self, root: &Root, path: Path) -> Result<(), EditFault>
        requires rising { IsRising (paths_of root.now) }
        requires few { length root.now.modules < 2 ^ 32 }
        requires stands { StandsOn (paths_of root.now) self.old }
        ensures ok { OnOk result (self.new.edits ≡ with_edit self.old.edits path edit.Touch) }
        ensures err { OnErr result (self.new.edits ≡ self.old.edits) }
        ensures too_many { LimitsModules self.old.capacity (counted (paths_of root.now) (with_edit self.old.edits path edit.Touch)) result }
        ensures stands { StandsOn (paths_of root.now) self.new }
        ensures capacity { self.new.capacity ≡ self.old.capacity }
    {
        self.keep(root, path, Edit::Touch)
    }

    /// From the next recheck on the path is no module.
    ///
    /// # Errors
    ///
    /// `NoMemory` where memory is refused. The edits are then as before.
    pub fn delete(&mut self, path: Path) -> Result<(), NoMemory>
        ensures ok { OnOk result (self.new.edits ≡ with_edit self.old.edits path edit.Delete) }
        ensures err { OnErr result (self.new.edits ≡ self.old.edits) }
        ensures stands { (paths : List (List ℕ)) → StandsOn paths self.old → StandsOn paths self.new }
        ensures capacity { self.new.capacity ≡ self.old.capacity }
    {
        if self.rows.contains_key(&path) {
            self.delete_edited(path)
        } else {
            self.delete_unedited(path)
        }
    }

    /// The edit of each path, in rising order of the paths.
    pub fn rows(&self) -> &BTreeMap<Path, Edit>
        ensures { result.now.entries ≡ self.now.edits }
    {
        &self.rows
    }

    /// The most modules that may be counted.
    pub fn capacity(&self) -> u32
        ensures { result ≡ self.now.capacity }
    {
        self.capacity
    }

    /// Lets all edits go: the program has them.
    pub fn clear(&mut self)
        ensures edits { self.new.edits ≡ [] }
        ensures capacity { self.new.capacity ≡ self.old.capacity }
        ensures stands { (paths : List (List ℕ)) → StandsOn paths self.new }
    {
        self.rows.clear();
        self.unseen.clear();
        self.kept = 0;
        self.found = 0;
    }

    // Deletes a path that has an edit.
    #[tactic(auto, using(crate::proofs::Counts::kept_enough, crate::proofs::Counts::kept_without, crate::proofs::Counts::all_stand))]
    fn delete_edited(&mut self, path: Path) -> Result<(), NoMemory>
        requires edited { IsSome (edit_at self.old.edits path) }
        ensures ok { OnOk result (self.new.edits ≡ with_edit self.old.edits path edit.Delete) }
        ensures err { OnErr result (self.new.edits ≡ self.old.edits) }
        ensures stands { (paths : List (List ℕ)) → StandsOn paths self.old → StandsOn paths self.new }
        ensures capacity { self.new.capacity ≡ self.old.capacity }
    {
        // (so that the number of edits is known to fit)
        let _ = self.rows.len();
        let was_kept = kept_by(self.rows.get(&path));
        self.rows.insert(path, Edit::Delete)?;
        self.kept -= was_kept;
        Ok(())
    }

    // Deletes a path that has no edit. Whether it is a module is looked up when the modules are counted next.
    #[tactic(auto, using(crate::proofs::Counts::kept_as_before))]
    fn delete_unedited(&mut self, path: Path) -> Result<(), NoMemory>
        requires unedited { edit_at self.old.edits path ≡ None }
        ensures ok { OnOk result (self.new.edits ≡ with_edit self.old.edits path edit.Delete) }
        ensures err { OnErr result (self.new.edits ≡ self.old.edits) }
        ensures stands { (paths : List (List ℕ)) → StandsOn paths self.old → StandsOn paths self.new }
        ensures capacity { self.new.capacity ≡ self.old.capacity }
    {
        // (so that the number of edits is known to fit)
        let _ = self.rows.len();
        self.unseen.push(path.share()?)?;
        match self.rows.insert(path, Edit::Delete) {
            Ok(_) => Ok(()),
            Err(_) => {
                self.unseen.pop();
                Err(NoMemory)
            }
        }
    }

    // Puts an edit after which the path may be a module.
    fn keep(&mut self, root: &Root, path: Path, edit: Edit) -> Result<(), EditFault>
        requires rising { IsRising (paths_of root.now) }
        requires few { length root.now.modules < 2 ^ 32 }
        requires stands { StandsOn (paths_of root.now) self.old }
        requires keeps { keeps edit ≡ true }
        ensures ok { OnOk result (self.new.edits ≡ with_edit self.old.edits path edit) }
        ensures err { OnErr result (self.new.edits ≡ self.old.edits) }
        ensures too_many { LimitsModules self.old.capacity (counted (paths_of root.now) (with_edit self.old.edits path edit)) result }
        ensures stands { StandsOn (paths_of root.now) self.new }
        ensures capacity { self.new.capacity ≡ self.old.capacity }
    {
        self.look_up(root);
        let counts = self.counts_with(root, &path);
        let modules = root.modules.len().saturating_sub(counts.found);
        let count = counts.kept + modules as u64;
        if count > self.capacity as u64 {
            return Err(EditFault::TooManyModules { count });
        }
        self.rows.insert(path, edit)?;
        self.kept = counts.kept as u32;
        self.found = counts.found;
        Ok(())
    }

    // The counts after an edit by which a path may be a module.
    #[tactic(auto, using(crate::proofs::Counts::kept_with))]
    fn counts_with(&self, root: &Root, path: &Path) -> Counts
        requires rising { IsRising (paths_of root.now) }
        requires stands { StandsOn (paths_of root.now) self.now }
        requires seen { self.now.unseen ≡ [] }
        ensures kept { (e : Edit) → keeps e ≡ true → result.kept ≡ kept_in (with_edit self.now.edits path.now e) }
        ensures found { (e : Edit) → result.found ≡ edits_of (paths_of root.now) (with_edit self.now.edits path.now e) }
        ensures few { result.kept ≤ 2 ^ 32 }
    {
        // (so that the number of edits is known to fit)
        let _ = self.rows.len();
        let before = self.rows.get(path);
        Counts {
            kept: self.kept as u64 + 1 - kept_by(before) as u64,
            found: self.found + newly(root, path, before),
        }
    }

    // Looks up the deleted paths that were not looked up in the root yet.
    #[tactic(auto, using(crate::proofs::Counts::found_fits))]
    fn look_up(&mut self, root: &Root)
        requires rising { IsRising (paths_of root.now) }
        requires stands { StandsOn (paths_of root.now) self.old }
        ensures edits { self.new.edits ≡ self.old.edits }
        ensures capacity { self.new.capacity ≡ self.old.capacity }
        ensures unseen { self.new.unseen ≡ [] }
        ensures stands { StandsOn (paths_of root.now) self.new }
    {
        // (so that the number of edits is known to fit)
        let _ = self.rows.len();
        self.found += count_modules(root, self.unseen.as_slice());
        self.unseen.clear();
    }
}
