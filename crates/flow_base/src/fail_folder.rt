ghost use Rattle.std.specs.Prelude.{◌≡◌, ◌↔◌, ◌⊎◌, ◌<◌, ◌^◌, Some, IfOk, IsErrOf};
ghost use Rattle.flow_base.specs.Outside.{IsListing, IsReading};
ghost use Rattle.flow_base.specs.Program.{IsRising};
ghost use Rattle.flow_base.specs.Seen.{folder_seen};
ghost use Rattle.flow_base.specs.Causes.{CountsLast};
ghost use Rattle.flow_base.specs.declared.outside.LastFault.TheVariants.{Never};

use crate::{Calls, Folder, FolderFault, LastFault, List, MemFolder, Path, Text};

/// A folder in memory that fails at exactly the listed ones of its calls.
#[derive(Debug, Drop)]
pub struct FailFolder {
    /// The folder that answers the other calls.
    pub inner: MemFolder,
    /// The calls that fail, and those that were made.
    pub calls: Calls,
    /// How often it has failed, up to 2^64 - 1.
    pub faults: u64,
    /// The call that failed last.
    pub last: LastFault,
    pub ghost bounded: { faults < 2 ^ 64 },
}

impl FailFolder {
    /// A folder that fails at the calls of these numbers, counted from 1.
    pub fn new(inner: MemFolder, failing: List<u64>) -> FailFolder
        ensures inner { result.inner ≡ inner }
        ensures failing { result.calls.failing ≡ failing }
        ensures made { result.calls.made ≡ 0 }
        ensures faults { result.faults ≡ 0 }
        ensures last_fault { result.last ≡ Never }
    {
        FailFolder {
            inner,
            calls: Calls::new(failing),
            faults: 0,
            last: LastFault::Never,
        }
    }
}

impl Folder for FailFolder {
    ghost use Rattle.flow_base.specs.Calls.{CountsCall, IsListed};

    ghost seen = { λ f. folder_seen (Some f.inner) f.faults f.last };

    fn list(&mut self) -> Result<List<Path>, FolderFault>
        ensures told { self.new.inner ≡ self.old.inner }
        ensures paths { IsListing (Some self.old.inner) result }
        ensures rising { IfOk result IsRising }
        ensures counts { CountsLast (IsErrOf result FolderFault.Failed) LastFault.Listing
            (folder_seen (Some self.old.inner) self.old.faults self.old.last) (folder_seen (Some self.new.inner) self.new.faults self.new.last) }

        // It fails at exactly the listed calls.
        ensures counted { CountsCall self.old.calls self.new.calls }
        ensures fails { IsErrOf result FolderFault.Failed ↔ IsListed self.new.calls }
    {
        if self.calls.count() {
            self.faults = self.faults.saturating_add(1);
            self.last = LastFault::Listing;
            return Err(FolderFault::Failed);
        }
        self.inner.list()
    }

    fn read(&mut self, path: &Path) -> Result<Option<Text>, FolderFault>
        ensures told { self.new.inner ≡ self.old.inner }
        ensures text { IsReading (Some self.old.inner) path.now result }
        ensures counts { CountsLast (IsErrOf result FolderFault.Failed) (LastFault.Reading path.now)
            (folder_seen (Some self.old.inner) self.old.faults self.old.last) (folder_seen (Some self.new.inner) self.new.faults self.new.last) }

        // It fails at exactly the listed calls, but where the path can't be copied.
        ensures counted { CountsCall self.old.calls self.new.calls }
        ensures fails_only { IsErrOf result FolderFault.Failed → IsListed self.new.calls }
        ensures fails { IsListed self.new.calls → IsErrOf result FolderFault.Failed ⊎ IsErrOf result FolderFault.NoMemory }
    {
        if self.calls.count() {
            let blamed = path.share()?;
            self.faults = self.faults.saturating_add(1);
            self.last = LastFault::Reading(blamed);
            return Err(FolderFault::Failed);
        }
        self.inner.read(path)
    }

    ghost bounded = { λ f. f.bounded };
}
