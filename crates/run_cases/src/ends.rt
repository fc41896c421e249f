//! A test of the ends in memory, call by call, and of who says stop at one question.
use crate::cases::path_of;
use flow_base::{
    FailFolder, FailSink, FailSource, Failed, Folder, FolderFault, LastFault, List, MemFolder,
    MemSink, MemSource, NoMemory, Sink, SinkFault, SlowSink, SlowSource, Source,
};
use std::alloc::Global;
use std::fmt::Write;
use stops::{Stop, StopAt};

/// Tells what the ends answer.
pub(crate) fn ends(alloc: Global, folder: MemFolder, out: &mut String) -> Result<(), NoMemory> {
    failing_folder(alloc, folder, out)?;
    sources(alloc, out)?;
    sinks(alloc, out)?;
    stops(out)
}

fn failing_folder(alloc: Global, inner: MemFolder, out: &mut String) -> Result<(), NoMemory> {
    let mut folder = FailFolder::new(inner, List::from_slice(alloc, &[2, 3])?);
    for _ in 0..2 {
        match folder.list() {
            Ok(paths) => writeln!(out, "{} paths", paths.len())?,
            Err(FolderFault::Failed) => writeln!(out, "listing failed")?,
            Err(FolderFault::NoMemory) => return Err(NoMemory),
        }
    }
    for path in ["a.js", "a.js", "c.js"] {
        match folder.read(&path_of(alloc, path)?) {
            Ok(Some(text)) => writeln!(out, "{path} has {} bytes", text.as_bytes().len())?,
            Ok(None) => writeln!(out, "{path} is absent")?,
            Err(FolderFault::Failed) => writeln!(out, "{path} failed")?,
            Err(FolderFault::NoMemory) => return Err(NoMemory),
        }
    }
    let last = match &folder.last {
        LastFault::Never => "never",
        LastFault::Listing => "listing",
        LastFault::Reading(path) => path.as_str(),
    };
    writeln!(
        out,
        "{} faults in {} calls, the last one: {last}",
        folder.faults, folder.calls.made
    )?;
    Ok(())
}

// What a source of four bytes answers to reads of three bytes each.
fn write_reads<S: Source>(source: &mut S, name: &str, out: &mut String) -> Result<(), NoMemory> {
    let mut buffer = [0u8; 3];
    write!(out, "{name}:")?;
    for _ in 0..4 {
        match source.read(&mut buffer) {
            Ok(count) => write!(out, " {count}")?,
            Err(Failed) => write!(out, " failed")?,
        }
    }
    writeln!(out)?;
    Ok(())
}

fn sources(alloc: Global, out: &mut String) -> Result<(), NoMemory> {
    let inner = MemSource::new(List::from_slice(alloc, b"abcd")?);
    let mut failing = FailSource::new(inner, List::from_slice(alloc, &[2])?);
    write_reads(&mut failing, "a source that fails at 2", out)?;
    let inner = MemSource::new(List::from_slice(alloc, b"abcd")?);
    let mut slow = SlowSource::new(inner, 2);
    write_reads(&mut slow, "a source by 2 bytes", out)
}

// What a sink answers to writes of four bytes, of none and of one.
fn write_writes<K: Sink>(sink: &mut K, name: &str, out: &mut String) -> Result<(), NoMemory> {
    write!(out, "{name}:")?;
    for piece in ["abcd", "", "e"] {
        match sink.write(piece.as_bytes()) {
            Ok(count) => write!(out, " {count}")?,
            Err(SinkFault::Failed) => write!(out, " failed")?,
            Err(SinkFault::NoMemory) => return Err(NoMemory),
        }
    }
    writeln!(out)?;
    Ok(())
}

fn write_held(held: &MemSink, out: &mut String) -> Result<(), NoMemory> {
    writeln!(out, "it holds {:?}", held.bytes.as_slice())?;
    Ok(())
}

fn sinks(alloc: Global, out: &mut String) -> Result<(), NoMemory> {
    let mut failing = FailSink::new(MemSink::new(alloc), List::from_slice(alloc, &[1])?);
    write_writes(&mut failing, "a sink that fails at 1", out)?;
    write_held(&failing.inner, out)?;
    let mut slow = SlowSink::new(MemSink::new(alloc), 3);
    write_writes(&mut slow, "a sink by 3 bytes", out)?;
    write_held(&slow.inner, out)
}

fn stops(out: &mut String) -> Result<(), NoMemory> {
    let mut third = StopAt::new(3);
    write!(out, "stop at 3:")?;
    for _ in 0..4 {
        write!(out, " {}", third.stop())?;
    }
    writeln!(out, ", {} questions", third.questions)?;
    Ok(())
}
