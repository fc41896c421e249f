//! Questions of resolution: the module that asks, the specifier, and the modules of the version, with a TAB between any two. The
//! module that is found, or `none`, stands before the line. The answers that must be printed are those of the language's
//! description.
use crate::roots::root_of;
use dep_lists::resolve;
use flow_values::{NoMemory, Path, are_rising};
use std::alloc::Global;
use std::io;

// The module that a specifier finds in a version; none where the paths don't rise.
fn found(
    alloc: Global,
    paths: &[Path],
    from: &Path,
    spec: &[u8],
) -> Result<Option<Path>, NoMemory> {
    if !are_rising(paths) {
        return Ok(None);
    }
    resolve(alloc, &root_of(alloc, paths)?, from, spec)
}

// The module that a line's specifier finds.
fn answer(alloc: Global, line: &str) -> Result<Option<Path>, NoMemory> {
    let mut fields = line.split('\t');
    let (Some(from), Some(spec)) = (fields.next(), fields.next()) else {
        return Ok(None);
    };
    let mut paths = Vec::new(alloc);
    for field in fields {
        if let Ok(path) = Path::read(alloc, field.as_bytes()) {
            paths.push(path)?;
        }
    }
    match Path::read(alloc, from.as_bytes()) {
        Ok(from) => found(alloc, paths.as_slice(), &from, spec.as_bytes()),
        Err(_) => Ok(None),
    }
}

/// Prints the answer to a line, a TAB and the line.
pub(crate) fn report(rt: &impl Print, alloc: Global, line: &str) -> io::Result<()> {
    match answer(alloc, line) {
        Ok(Some(path)) => println!(rt; "{}\t{line}", path.as_str()),
        Ok(None) => println!(rt; "none\t{line}"),
        Err(NoMemory) => println!(rt; "no memory"),
    }
}
