//! The outside of the program as traits, a folder, a stream that comes in, one that goes out and a turnstile, with
//! their ends in memory. It hands on the values that everything else compares.
#![tactic(auto)]

mod calls;
mod fail_folder;
mod fail_streams;
mod mem_folder;
mod mem_streams;
mod outside;
mod slow_streams;

pub use calls::Calls;
pub use fail_folder::FailFolder;
pub use fail_streams::{FailSink, FailSource};
pub use flow_values::{Boxed, List, NoMemory, Path, PathFault, Span, Text, are_rising};
pub use mem_folder::MemFolder;
pub use mem_streams::{MemSink, MemSource};
pub use outside::{
    Failed, Folder, FolderFault, LastFault, Open, Point, Sink, SinkFault, Source, Turnstile,
};
pub use slow_streams::{SlowSink, SlowSource};
