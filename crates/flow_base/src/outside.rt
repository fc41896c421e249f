ghost use Rattle.std.specs.Prelude.{◌≡◌, [], IfOk, IsErrOf, length, ◌<◌, ◌^◌, ◌↔◌};
ghost use Rattle.flow_base.specs.Program.{IsRising};
ghost use Rattle.flow_base.specs.Seen.{FolderSeen, SourceSeen, SinkSeen};
ghost use Rattle.flow_base.specs.Outside.{IsListing, IsReading, Takes, Appends, IsStuck, WhereTold};
ghost use Rattle.flow_base.specs.Causes.{Counts, CountsLast};

use crate::{List, NoMemory, Path, Text};

/// Why a folder gave no answer.
#[derive(Clone, Copy, Debug, PartialEq, Eq)]
pub enum FolderFault {
    /// The folder failed, and counted this call as a fault.
    Failed,
    /// Memory was refused.
    NoMemory,
}

impl From<NoMemory> for FolderFault {
    ghost use Rattle.flow_base.specs.declared.outside.FolderFault.TheVariants.{NoMemory};

    ghost from_gives = { λ _ e. e ≡ NoMemory };

    fn from(_: NoMemory) -> Self {
        FolderFault::NoMemory
    }
}

/// The one fault of a source, which counted this call as a fault.
#[derive(Clone, Copy, Debug, PartialEq, Eq)]
pub struct Failed;

/// Why a sink took nothing.
#[derive(Clone, Copy, Debug, PartialEq, Eq)]
pub enum SinkFault {
    /// The sink failed, and counted this call as a fault.
    Failed,
    /// Memory was refused.
    NoMemory,
}

impl From<NoMemory> for SinkFault {
    ghost use Rattle.flow_base.specs.declared.outside.SinkFault.TheVariants.{NoMemory};

    ghost from_gives = { λ _ e. e ≡ NoMemory };

    fn from(_: NoMemory) -> Self {
        SinkFault::NoMemory
    }
}

/// The call of a folder's last fault.
#[derive(Debug, Drop)]
pub enum LastFault {
    /// No call has failed.
    Never,
    /// The listing failed.
    Listing,
    /// The reading of this path failed.
    Reading(Path),
}

/// A folder of modules.
pub trait Folder {
    /// The program that it holds, where it tells it, how often it has failed, and at which call last.
    ghost seen: { Self → FolderSeen };

    /// The paths of all modules, each below the next one by its bytes.
    ///
    /// # Errors
    ///
    /// `Failed` where the listing failed, which counts one fault, and `NoMemory` where memory is
    /// refused, which counts none.
    fn list(&mut self) -> Result<List<Path>, FolderFault>
        ensures told { (seen self.new).told ≡ (seen self.old).told }
        ensures paths { IsListing (seen self.old).told result }
        ensures rising { IfOk result IsRising }
        ensures counts { CountsLast (IsErrOf result FolderFault.Failed) LastFault.Listing (seen self.old) (seen self.new) };

    /// The bytes of a module, or `None` where the folder lacks it.
    ///
    /// # Errors
    ///
    /// `Failed` where the reading failed, which counts one fault, and `NoMemory` where memory is
    /// refused, which counts none.
    fn read(&mut self, path: &Path) -> Result<Option<Text>, FolderFault>
        ensures told { (seen self.new).told ≡ (seen self.old).told }
        ensures text { IsReading (seen self.old).told path.now result }
        ensures counts { CountsLast (IsErrOf result FolderFault.Failed) (LastFault.Reading path.now) (seen self.old) (seen self.new) };

    /// The count of faults stays within its type.
    ghost bounded: { (folder : Self) → (seen folder).faults < 2 ^ 64 };
}

/// A stream of bytes that come in.
pub trait Source {
    /// The bytes that are left, where it tells them, and how often it has failed.
    ghost seen: { Self → SourceSeen };

    /// Takes bytes from the front of those that are left, to the front of the buffer, and answers
    /// how many. Into a buffer with room, 0 comes exactly at the end.
    ///
    /// # Errors
    ///
    /// `Failed` where the reading failed, which counts one fault. No byte is taken then.
    fn read(&mut self, into: &mut [u8]) -> Result<usize, Failed>
        ensures bytes { Takes (seen self.old).left (seen self.new).left into.old into.new result }
        ensures end { IfOk result (λ n. 0 < length into.old → WhereTold (seen self.old).left (λ left. (n ≡ 0) ↔ (left ≡ []))) }
        ensures counts { Counts (IsErrOf result (record {})) (seen self.old).faults (seen self.new).faults };

    /// The count of faults stays within its type.
    ghost bounded: { (source : Self) → (seen source).faults < 2 ^ 64 };
}

/// A stream of bytes that go out.
pub trait Sink {
    /// The bytes that were written, where it tells them, and how often it has failed.
    ghost seen: { Self → SinkSeen };

    /// Appends bytes of the front of the piece, and answers how many. For a piece that is not
    /// empty, 0 is counted as one fault.
    ///
    /// # Errors
    ///
    /// `Failed` where the writing failed, which counts one fault, and `NoMemory` where memory is
    /// refused, which counts none. No byte is appended then.
    fn write(&mut self, piece: &[u8]) -> Result<usize, SinkFault>
        ensures bytes { Appends (seen self.old).written (seen self.new).written piece.now result }
        ensures counts { Counts (IsStuck SinkFault.Failed piece.now result) (seen self.old).faults (seen self.new).faults };

    /// The count of faults stays within its type.
    ghost bounded: { (sink : Self) → (seen sink).faults < 2 ^ 64 };
}

/// A place that a run passes.
#[derive(Clone, Copy, Debug, PartialEq, Eq)]
pub enum Point {
    /// The question of this number of a recheck, counted from 1.
    Poll(u32),
    /// The ask of this number beside a recheck, counted from 0.
    Ask(u32),
}

/// Lets a run pass its places.
pub trait Turnstile {
    /// Passes a place. It may wait, and changes nothing that its caller sees.
    fn at(&self, point: Point);
}

/// A turnstile that lets each run pass at once.
#[derive(Clone, Copy, Debug)]
pub struct Open;

impl Turnstile for Open {
    fn at(&self, _point: Point) {}
}
