ghost use Rattle.std.specs.Prelude.{◌≡◌, ◌↔◌, ◌<◌, ◌^◌, [], length, Some, IfOk, IsErrOf};
ghost use Rattle.flow_base.specs.Outside.{Takes, Appends, IsStuck, WhereTold};
ghost use Rattle.flow_base.specs.Causes.{Counts};

use crate::{Calls, Failed, List, MemSink, MemSource, Sink, SinkFault, Source};

/// A source in memory that fails at exactly the listed ones of its calls.
#[derive(Debug, Drop)]
pub struct FailSource {
    /// The source that answers the other calls.
    pub inner: MemSource,
    /// The calls that fail, and those that were made.
    pub calls: Calls,
    /// How often it has failed, up to 2^64 - 1.
    pub faults: u64,
    pub ghost bounded: { faults < 2 ^ 64 },
}

impl FailSource {
    /// A source that fails at the calls of these numbers, counted from 1.
    pub fn new(inner: MemSource, failing: List<u64>) -> FailSource
        ensures inner { result.inner ≡ inner }
        ensures failing { result.calls.failing ≡ failing }
        ensures made { result.calls.made ≡ 0 }
        ensures faults { result.faults ≡ 0 }
    {
        FailSource {
            inner,
            calls: Calls::new(failing),
            faults: 0,
        }
    }
}

impl Source for FailSource {
    ghost use Rattle.flow_base.specs.Calls.{CountsCall, IsListed};

    ghost seen = { λ s. record { left = Some s.inner; faults = s.faults } };

    fn read(&mut self, into: &mut [u8]) -> Result<usize, Failed>
        ensures bytes { Takes (Some self.old.inner) (Some self.new.inner) into.old into.new result }
        ensures end { IfOk result (λ n. 0 < length into.old → WhereTold (Some self.old.inner) (λ left. (n ≡ 0) ↔ (left ≡ []))) }
        ensures counts { Counts (IsErrOf result (record {})) self.old.faults self.new.faults }

        // It fails at exactly the listed calls.
        ensures counted { CountsCall self.old.calls self.new.calls }
        ensures fails { IsErrOf result (record {}) ↔ IsListed self.new.calls }
    {
        if self.calls.count() {
            self.faults = self.faults.saturating_add(1);
            return Err(Failed);
        }
        self.inner.read(into)
    }

    ghost bounded = { λ s. s.bounded };
}

/// A sink in memory that fails at exactly the listed ones of its calls.
#[derive(Debug, Drop)]
pub struct FailSink {
    /// The sink that answers the other calls, with the bytes that were written.
    pub inner: MemSink,
    /// The calls that fail, and those that were made.
    pub calls: Calls,
    /// How often it has failed, up to 2^64 - 1.
    pub faults: u64,
    pub ghost bounded: { faults < 2 ^ 64 },
}

impl FailSink {
    /// A sink that fails at the calls of these numbers, counted from 1.
    pub fn new(inner: MemSink, failing: List<u64>) -> FailSink
        ensures inner { result.inner ≡ inner }
        ensures failing { result.calls.failing ≡ failing }
        ensures made { result.calls.made ≡ 0 }
        ensures faults { result.faults ≡ 0 }
    {
        FailSink {
            inner,
            calls: Calls::new(failing),
            faults: 0,
        }
    }
}

impl Sink for FailSink {
    ghost use Rattle.flow_base.specs.Calls.{CountsCall, IsListed};

    ghost seen = { λ s. record { written = Some s.inner.bytes; faults = s.faults } };

    fn write(&mut self, piece: &[u8]) -> Result<usize, SinkFault>
        ensures bytes { Appends (Some self.old.inner.bytes) (Some self.new.inner.bytes) piece.now result }
        ensures counts { Counts (IsStuck SinkFault.Failed piece.now result) self.old.faults self.new.faults }

        // It fails at exactly the listed calls.
        ensures counted { CountsCall self.old.calls self.new.calls }
        ensures fails { IsErrOf result SinkFault.Failed ↔ IsListed self.new.calls }
    {
        if self.calls.count() {
            self.faults = self.faults.saturating_add(1);
            return Err(SinkFault::Failed);
        }
        self.inner.write(piece)
    }

    ghost bounded = { λ s. s.bounded };
}
