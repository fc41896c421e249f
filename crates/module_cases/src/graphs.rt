//! Edges, as `[[1], [0, 2], []]`, and behind them their components and the waves of these, with a TAB between any two. A line that
//! isn't read so, or has an edge to no list, is left out.
use flow_values::{List, NoMemory};
use graph_search::{are_within, components, waves};
use std::alloc::Global;
use std::io;

// The numbers of a text as `1, 2`.
fn read_numbers(alloc: Global, text: &str) -> Result<List<u32>, NoMemory> {
    let mut numbers = List::new(alloc);
    for part in text.split(", ") {
        if let Ok(number) = part.parse::<u32>() {
            numbers.push(number)?;
        }
    }
    Ok(numbers)
}

// The lists of a text as `[[1], [0, 2], []]`.
fn read_lists(alloc: Global, text: &str) -> Result<Vec<List<u32>>, NoMemory> {
    let mut lists = Vec::new(alloc);
    if text == "[]" {
        return Ok(lists);
    }
    for part in text.split("], [") {
        let inner = part.trim_start_matches('[').trim_end_matches(']');
        lists.push(read_numbers(alloc, inner)?)?;
    }
    Ok(lists)
}

fn write_numbers(out: &mut String, numbers: &List<u32>) -> Result<(), NoMemory> {
    let mut between = "";
    out.push('[')?;
    for number in numbers.as_slice() {
        write!(out, "{between}{number}")?;
        between = ", ";
    }
    out.push(']')?;
    Ok(())
}

fn write_lists(out: &mut String, lists: &List<List<u32>>) -> Result<(), NoMemory> {
    let mut between = "";
    out.push('[')?;
    for numbers in lists.as_slice() {
        out.push_str(between)?;
        write_numbers(out, numbers)?;
        between = ", ";
    }
    out.push(']')?;
    Ok(())
}

// The components of these edges and their waves, with a tab between.
fn answer(alloc: Global, edges: &[List<u32>]) -> Result<Option<String>, NoMemory> {
    if edges.len() > 1_000_000 || !are_within(edges) {
        return Ok(None);
    }
    let mut out = String::new(alloc);
    let components = components(alloc, edges)?;
    write_lists(&mut out, &components)?;
    out.push('\t')?;
    write_lists(&mut out, &waves(alloc, &components, edges)?)?;
    Ok(Some(out))
}

/// Prints a line with its components and their waves.
pub(crate) fn report(rt: &impl Print, alloc: Global, line: &str) -> io::Result<()> {
    let answered = match read_lists(alloc, line) {
        Ok(edges) => answer(alloc, edges.as_slice()),
        Err(NoMemory) => Err(NoMemory),
    };
    match answered {
        Ok(Some(text)) => println!(rt; "{line}\t{text}"),
        Ok(None) => Ok(()),
        Err(NoMemory) => println!(rt; "no memory"),
    }
}
