//! A test of paths, texts, lists and boxes, call by call.
use flow_values::{Boxed, List, NoMemory, Path, PathFault, Text};
use std::alloc::Global;
use std::fmt::Write;

// Texts and paths may be shared across threads: else this would not compile.
fn crosses<T: Send + Sync>(_: &T) {}

/// Tells what texts, paths, lists and boxes answer.
pub(crate) fn values(alloc: Global, out: &mut String) -> Result<(), NoMemory> {
    shared_ones(alloc, out)?;
    paths(alloc, out)?;
    lists(alloc, out)?;
    let boxed = Boxed::new(alloc, 7u8)?;
    write!(out, "a box of {}", *boxed.get())?;
    writeln!(out, ", {} out of it", boxed.into_inner())?;
    Ok(())
}

fn shared_ones(alloc: Global, out: &mut String) -> Result<(), NoMemory> {
    let text = Text::from_bytes(alloc, b"x")?;
    crosses(&text);
    writeln!(out, "a text is its share: {}", text.equals(&text.share()?))?;
    match Path::read(alloc, b"a/b.js") {
        Ok(path) => {
            crosses(&path);
            let same = path.equals(&path.share()?);
            writeln!(out, "{} is its share: {same}", path.as_str())?;
        }
        Err(PathFault::BadPath) => writeln!(out, "no path")?,
        Err(PathFault::NoMemory) => return Err(NoMemory),
    }
    Ok(())
}

fn paths(alloc: Global, out: &mut String) -> Result<(), NoMemory> {
    let cases: [&[u8]; 8] = [
        b"a/../b.js",
        b"/b.js",
        b"b.ts",
        b"",
        b"a//b.js",
        b"./b.js",
        b"a\tb.js",
        b"\xff.js",
    ];
    write!(out, "paths:")?;
    for case in cases {
        match Path::read(alloc, case) {
            Ok(_) => write!(out, " one")?,
            Err(PathFault::BadPath) => write!(out, " none")?,
            Err(PathFault::NoMemory) => return Err(NoMemory),
        }
    }
    writeln!(out)?;
    Ok(())
}

fn lists(alloc: Global, out: &mut String) -> Result<(), NoMemory> {
    let mut list = List::from_slice(alloc, &[1u8, 2])?;
    list.push(3)?;
    list.append(List::from_slice(alloc, &[4])?)?;
    list.extend_from_slice(&[5])?;
    writeln!(out, "a list of {:?}", list.as_slice())?;
    if let Some(last) = list.pop() {
        write!(out, "{last} popped")?;
    }
    writeln!(out, ", {} left", list.into_vec().len())?;
    Ok(())
}
