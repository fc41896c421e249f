//! A folder, a source and a sink in memory, which fail at some calls, refuse memory at some, and take so many bytes at a call.
ghost use Rattle.std.specs.Prelude.{Some};
ghost use Rattle.flow_base.specs.Seen.{folder_seen};
ghost use Rattle.run_cases.specs.Ends.{source_seen, sink_seen, source_bounded, sink_bounded};

use flow_base::{
    Calls, FailFolder, FailSink, FailSource, Failed, Folder, FolderFault, List, MemFolder, MemSink,
    MemSource, Path, Sink, SinkFault, SlowSink, SlowSource, Source, Text,
};

/// A folder that also refuses memory at the listed ones of its calls.
#[derive(Drop)]
pub(crate) struct TestFolder {
    pub inner: FailFolder,
    pub refused: Calls,
}

impl TestFolder {
    pub(crate) fn new(inner: MemFolder, failing: List<u64>, refused: List<u64>) -> TestFolder {
        TestFolder {
            inner: FailFolder::new(inner, failing),
            refused: Calls::new(refused),
        }
    }
}

impl Folder for TestFolder {
    ghost seen = { λ f. folder_seen (Some f.inner.inner) f.inner.faults f.inner.last };

    fn list(&mut self) -> Result<List<Path>, FolderFault> {
        if self.refused.count() {
            return Err(FolderFault::NoMemory);
        }
        self.inner.list()
    }

    fn read(&mut self, path: &Path) -> Result<Option<Text>, FolderFault> {
        if self.refused.count() {
            return Err(FolderFault::NoMemory);
        }
        self.inner.read(path)
    }

    ghost bounded = { λ f. f.inner.bounded };
}

/// A source that fails at the listed ones of its calls, or one that gives at most so many bytes at a call.
#[derive(Drop)]
pub(crate) enum TestSource {
    Failing(FailSource),
    Slow(SlowSource),
}

impl TestSource {
    pub(crate) fn new(inner: MemSource, failing: List<u64>, step: Option<usize>) -> TestSource {
        match step {
            Some(step) => TestSource::Slow(SlowSource::new(inner, step.max(1))),
            None => TestSource::Failing(FailSource::new(inner, failing)),
        }
    }

    /// How often it was called; of a slow one that isn't counted.
    pub(crate) fn calls(&self) -> u64 {
        match self {
            TestSource::Failing(source) => source.calls.made,
            TestSource::Slow(_) => 0,
        }
    }
}

impl Source for TestSource {
    ghost seen = { λ s. source_seen s };

    fn read(&mut self, into: &mut [u8]) -> Result<usize, Failed> {
        match self {
            TestSource::Failing(source) => source.read(into),
            TestSource::Slow(source) => source.read(into),
        }
    }

    ghost bounded = { λ s. source_bounded s };
}

/// A sink that fails at the listed ones of its calls, or one that takes at most so many bytes at a call.
#[derive(Drop)]
pub(crate) enum SinkEnd {
    Failing(FailSink),
    Slow(SlowSink),
}

impl SinkEnd {
    pub(crate) fn new(inner: MemSink, failing: List<u64>, step: Option<usize>) -> SinkEnd {
        match step {
            Some(step) => SinkEnd::Slow(SlowSink::new(inner, step.max(1))),
            None => SinkEnd::Failing(FailSink::new(inner, failing)),
        }
    }

    /// How often it was called; of a slow one that isn't counted.
    pub(crate) fn calls(&self) -> u64 {
        match self {
            SinkEnd::Failing(sink) => sink.calls.made,
            SinkEnd::Slow(_) => 0,
        }
    }

    /// The bytes that were written.
    pub(crate) fn bytes(&self) -> &[u8] {
        match self {
            SinkEnd::Failing(sink) => sink.inner.bytes.as_slice(),
            SinkEnd::Slow(sink) => sink.inner.bytes.as_slice(),
        }
    }
}

impl Sink for SinkEnd {
    ghost seen = { λ s. sink_seen s };

    fn write(&mut self, piece: &[u8]) -> Result<usize, SinkFault> {
        match self {
            SinkEnd::Failing(sink) => sink.write(piece),
            SinkEnd::Slow(sink) => sink.write(piece),
        }
    }

    ghost bounded = { λ s. sink_bounded s };
}

/// A sink that also refuses memory at the listed ones of its calls.
#[derive(Drop)]
pub(crate) struct TestSink {
    pub inner: SinkEnd,
    pub refused: Calls,
}

impl TestSink {
    pub(crate) fn new(
        inner: MemSink,
        failing: List<u64>,
        refused: List<u64>,
        step: Option<usize>,
    ) -> TestSink {
        TestSink {
            inner: SinkEnd::new(inner, failing, step),
            refused: Calls::new(refused),
        }
    }
}

impl Sink for TestSink {
    ghost seen = { λ s. sink_seen s.inner };

    fn write(&mut self, piece: &[u8]) -> Result<usize, SinkFault> {
        if self.refused.count() {
            return Err(SinkFault::NoMemory);
        }
        self.inner.write(piece)
    }

    ghost bounded = { λ s. sink_bounded s.inner };
}
