ghost use Rattle.std.specs.Prelude.{◌≡◌, ◌<◌, ◌==◌, [], ◌∷◌, length, map, reverse, position, MatchOption, IfSome, IfOk, Some, ◌||◌};
ghost use Rattle.std.specs.List.{join_with_byte};
ghost use Rattle.std.specs.Option.{option_map};
ghost use Rattle.flow_values.specs.Path.{SLASH};
ghost use Rattle.flow_values.specs.PathForm.{cut};
ghost use Rattle.module_resolution.specs.Resolution.{folder_of, applied, all_applied, stays, goes_up, is_relative};

use flow_values::{NoMemory, Path, first_part};
use std::alloc::Global;

// The folder in which a path stands.
#[tactic(auto, using(crate::proofs::Parts::folder_parts, crate::proofs::Parts::map_more))]
pub fn folder_of<'a>(alloc: Global, path: &'a Path) -> Result<Vec<&'a [u8]>, NoMemory>
    ensures { IfOk result (λ folder. reverse (map (λ part. part.now) folder.items) ≡ folder_of path.now) }
{
    let mut parts = Vec::new(alloc);
    let mut rest = path.as_bytes();
    while let Some((part, after)) = first_part(rest) {
        parts.push(part)?;
        rest = after;
    }
    Ok(parts)
}

// A folder after one part, or `None` where it leads nowhere.
fn apply<'a>(mut folder: Vec<&'a [u8]>, part: &'a [u8]) -> Result<Option<Vec<&'a [u8]>>, NoMemory>
    ensures { IfOk result (λ to. option_map (λ f. reverse (map (λ p. p.now) f.items)) to ≡ applied (reverse (map (λ p. p.now) folder.entry.items)) part.now) }
{
    if part.is_empty() {
        return Ok(None);
    }
    if part == b".".as_slice() {
        return Ok(Some(folder));
    }
    if part == b"..".as_slice() {
        return match folder.pop() {
            Some(_) => Ok(Some(folder)),
            None => Ok(None),
        };
    }
    folder.push(part)?;
    Ok(Some(folder))
}

// A folder after the parts of a specifier, or `None` where they lead nowhere.
#[tactic(auto, using(crate::proofs::Parts::nowhere))]
pub fn apply_all<'a>(
    folder: Vec<&'a [u8]>,
    spec: &'a [u8],
) -> Result<Option<Vec<&'a [u8]>>, NoMemory>
    ensures { IfOk result (λ to. option_map (λ f. reverse (map (λ p. p.now) f.items)) to ≡ all_applied (Some (reverse (map (λ p. p.now) folder.entry.items))) (cut spec.now)) }
{
    let mut place = folder;
    let mut rest = spec;
    while let Some((part, after)) = first_part(rest) {
        let Some(next) = apply(place, part)? else {
            return Ok(None);
        };
        place = next;
        rest = after;
    }
    apply(place, rest)
}

// The bytes of a path of these parts.
#[tactic(auto, using(crate::proofs::Parts::path_more, crate::proofs::Parts::path_first))]
pub fn path_to(alloc: Global, parts: &[&[u8]]) -> Result<Vec<u8>, NoMemory>
    ensures { IfOk result (λ path. path.items ≡ join_with_byte SLASH (map (λ p. p.now) parts.now)) }
{
    let mut path = Vec::new(alloc);
    for i in 0..parts.len() {
        if i > 0 {
            path.push(b'/')?;
        }
        path.extend_from_slice(parts[i])?;
    }
    Ok(path)
}

fn stays_or_goes_up(part: &[u8]) -> bool
    ensures { result ≡ (stays part.now || goes_up part.now) }
{
    part == b".".as_slice() || part == b"..".as_slice()
}

// Whether a specifier leads to a module of the program.
pub fn is_relative(spec: &[u8]) -> bool
    ensures { result ≡ is_relative (cut spec.now) }
{
    match first_part(spec) {
        Some((part, _)) => stays_or_goes_up(part),
        None => stays_or_goes_up(spec),
    }
}
