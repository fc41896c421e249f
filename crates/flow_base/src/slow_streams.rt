ghost use Rattle.std.proofs.Common.{lit<};
ghost use Rattle.std.specs.Prelude.{◌≡◌, [], ℕ, Some, length, ◌≤◌, ◌<◌, ◌^◌, ◌↔◌, min, IfOk, IsErrOf};
ghost use Rattle.flow_base.specs.Outside.{Takes, Appends, IsStuck, WhereTold};
ghost use Rattle.flow_base.specs.Causes.{Counts};

use crate::{Failed, MemSink, MemSource, Sink, SinkFault, Source};

/// A source in memory that gives at most so many bytes a call, and never fails.
#[derive(Debug, Drop)]
pub struct SlowSource {
    /// The source that the bytes come from.
    pub inner: MemSource,
    step: usize,
    ghost some: { 1 ≤ step },
}

impl SlowSource {
    /// A source that gives at most `step` bytes a call, 1 or more.
    pub fn new(inner: MemSource, step: usize) -> SlowSource
        requires some { 1 ≤ step }
        ensures inner { result.inner ≡ inner }
        ensures step { result.step ≡ step }
    {
        SlowSource { inner, step }
    }
}

impl Source for SlowSource {
    ghost seen = { λ s. record { left = Some s.inner; faults = 0 } };

    fn read(&mut self, into: &mut [u8]) -> Result<usize, Failed>
        ensures bytes { Takes (Some self.old.inner) (Some self.new.inner) into.old into.new result }
        ensures end { IfOk result (λ n. 0 < length into.old → WhereTold (Some self.old.inner) (λ left. (n ≡ 0) ↔ (left ≡ []))) }
        ensures counts { Counts (IsErrOf result (record {})) 0 0 }

        // It gives as many as there are and fit, and no more than `step`.
        ensures count { IfOk result (λ n. n ≡ min (length self.old.inner) (min (length into.old) self.old.step)) }
        ensures step { self.new.step ≡ self.old.step }
    {
        let most = into.len().min(self.step);
        self.inner.read(&mut into[..most])
    }

    ghost bounded = { λ _. lit< tt };
}

/// A sink in memory that takes at most so many bytes a call, and never fails.
#[derive(Debug, Drop)]
pub struct SlowSink {
    /// The sink that the bytes go to.
    pub inner: MemSink,
    step: usize,
    ghost some: { 1 ≤ step },
}

impl SlowSink {
    /// A sink that takes at most `step` bytes a call, 1 or more.
    pub fn new(inner: MemSink, step: usize) -> SlowSink
        requires some { 1 ≤ step }
        ensures inner { result.inner ≡ inner }
        ensures step { result.step ≡ step }
    {
        SlowSink { inner, step }
    }
}

impl Sink for SlowSink {
    ghost seen = { λ s. record { written = Some s.inner.bytes; faults = 0 } };

    fn write(&mut self, piece: &[u8]) -> Result<usize, SinkFault>
        ensures bytes { Appends (Some self.old.inner.bytes) (Some self.new.inner.bytes) piece.now result }
        ensures counts { Counts (IsStuck SinkFault.Failed piece.now result) 0 0 }

        // It takes the whole piece, or its first `step` bytes.
        ensures count { IfOk result (λ n. n ≡ min (length piece.now) self.old.step) }
        ensures step { self.new.step ≡ self.old.step }
    {
        let most = piece.len().min(self.step);
        self.inner.write(&piece[..most])
    }

    ghost bounded = { λ _. lit< tt };
}
