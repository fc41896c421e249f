ghost use Rattle.std.specs.Prelude.{◌≡◌, [], ℕ, Some, drop, length, ◌≤◌, ◌<◌, ◌^◌, ◌↔◌, min, IfOk, IsErrOf};
ghost use Rattle.std.proofs.Common.{lit<};
ghost use Rattle.flow_base.specs.Outside.{Takes, Appends, IsStuck, WhereTold};
ghost use Rattle.flow_base.specs.Causes.{Counts};

use crate::{Failed, List, Sink, SinkFault, Source};
use std::alloc::Global;
use std::marker::Model;

/// A source in memory, which tells the bytes that are left and never fails. A contract sees these
/// bytes.
#[derive(Debug, Drop)]
pub struct MemSource {
    bytes: List<u8>,
    taken: usize,
}

impl Model for MemSource {
    ghost use Rattle.std.specs.Prelude.{List, ℕ, drop, length, ◌≤◌};

    ghost Value = { List ℕ };

    ghost view = { λ s. drop s.taken s.bytes };

    ghost invariant = { λ s. s.taken ≤ length s.bytes };
}

impl MemSource {
    /// A source of these bytes.
    pub fn new(bytes: List<u8>) -> MemSource
        ensures { result ≡ bytes }
    {
        MemSource { bytes, taken: 0 }
    }
}

impl Source for MemSource {
    ghost seen = { λ s. record { left = Some s; faults = 0 } };

    fn read(&mut self, into: &mut [u8]) -> Result<usize, Failed>
        ensures bytes { Takes (Some self.old) (Some self.new) into.old into.new result }
        ensures end { IfOk result (λ n. 0 < length into.old → WhereTold (Some self.old) (λ left. (n ≡ 0) ↔ (left ≡ []))) }
        ensures counts { Counts (IsErrOf result (record {})) 0 0 }

        // It gives as many as there are and fit.
        ensures count { IfOk result (λ n. n ≡ min (length self.old) (length into.old)) }
    {
        let rest = &self.bytes.as_slice()[self.taken..];
        let count = rest.len().min(into.len());
        into[..count].copy_from_slice(&rest[..count]);
        self.taken += count;
        Ok(count)
    }

    ghost bounded = { λ _. lit< tt };
}

/// A sink in memory, which tells the bytes that were written and never fails.
#[derive(Debug, Drop)]
pub struct MemSink {
    /// The bytes that were written.
    pub bytes: List<u8>,
}

impl MemSink {
    /// A sink that holds no byte.
    pub fn new(alloc: Global) -> MemSink
        ensures { result.bytes ≡ [] }
    {
        MemSink {
            bytes: List::new(alloc),
        }
    }
}

impl Sink for MemSink {
    ghost seen = { λ s. record { written = Some s.bytes; faults = 0 } };

    fn write(&mut self, piece: &[u8]) -> Result<usize, SinkFault>
        ensures bytes { Appends (Some self.old.bytes) (Some self.new.bytes) piece.now result }
        ensures counts { Counts (IsStuck SinkFault.Failed piece.now result) 0 0 }

        // It takes the whole piece.
        ensures whole { IfOk result (λ n. n ≡ length piece.now) }
    {
        self.bytes.extend_from_slice(piece)?;
        Ok(piece.len())
    }

    ghost bounded = { λ _. lit< tt };
}
