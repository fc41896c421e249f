ghost use Rattle.std.specs.Prelude.{◌≡◌, ◌<◌, ◌-◌, ℕ, map, IfOk};
ghost use Rattle.std.specs.Int.{IsInRange};
ghost use Rattle.std.specs.List.{range_with_len};
ghost use Rattle.generator.specs.Draws.{imported, state_behind};
ghost use Rattle.generator.specs.Modules.{module_in, modules_of, edits_of};

use crate::draws::{behind, drawn};
use crate::modules::{path_of, text_of};
use flow_values::{List, NoMemory, Path, Text};
use std::alloc::Global;

/// A folder that was made up.
#[derive(Debug, Drop)]
pub struct Generated {
    /// Its modules by their numbers, each with its path and its text.
    pub modules: List<(Path, Text)>,
    /// The ten edits, in their order: each puts a text at the path of a module.
    pub edits: List<(Path, Text)>,
}

// The modules that are imported, and the state behind their draws.
#[derive(Drop)]
struct Imports {
    modules: Vec<u32>,
    state: u64,
}

// Which module each module imports.
#[tactic(auto, using(crate::proofs::Imported::first_import, crate::proofs::Imported::next_state, crate::proofs::Imported::next_import))]
fn imports_of(alloc: Global, n: u32, seed: u64) -> Result<Imports, NoMemory>
    requires { 0 < n }
    ensures modules { IfOk result (λ imports. imports.modules.items ≡ map (imported seed) (range_with_len 0 n)) }
    ensures state { IfOk result (λ imports. imports.state ≡ state_behind seed (n - 1)) }
{
    let mut modules = Vec::new(alloc);
    let mut state = seed;
    modules.push(0)?;
    for i in 1..n {
        state = behind(state);
        modules.push(drawn(i, state))?;
    }
    Ok(Imports { modules, state })
}

// Module i in a round, where it imports this module.
fn module_in(alloc: Global, i: u32, import: u32, round: u32) -> Result<(Path, Text), NoMemory>
    ensures { (seed : ℕ) → import ≡ imported seed i → IfOk result (λ row. row ≡ module_in seed i round) }
{
    Ok((path_of(alloc, i)?, text_of(alloc, i, import, round)?))
}

// The modules of the load.
fn modules_of(
    alloc: Global,
    imports: &[u32],
    n: u32,
    seed: u64,
) -> Result<List<(Path, Text)>, NoMemory>
    requires { imports.now ≡ map (imported seed) (range_with_len 0 n) }
    ensures { IfOk result (λ modules. modules ≡ modules_of n seed) }
{
    let mut modules = Vec::new(alloc);
    for i in 0..n {
        modules.push(module_in(alloc, i, imports[i as usize], 0)?)?;
    }
    Ok(List::from_vec(modules))
}

// The ten edits.
fn edits_of(
    alloc: Global,
    imports: &[u32],
    state: u64,
    n: u32,
    seed: u64,
) -> Result<List<(Path, Text)>, NoMemory>
    requires some { 0 < n }
    requires modules { imports.now ≡ map (imported seed) (range_with_len 0 n) }
    requires state { state ≡ state_behind seed (n - 1) }
    ensures { IfOk result (λ edits. edits ≡ edits_of n seed) }
{
    let mut edits = Vec::new(alloc);
    let mut state = state;
    for round in 1..11 {
        state = behind(state);
        let i = drawn(n, state);
        edits.push(module_in(alloc, i, imports[i as usize], round)?)?;
    }
    Ok(List::from_vec(edits))
}

/// So many modules by a seed, 1 to 4,096 of them, and ten edits. Each module but the first one imports a
/// type of an earlier one. It takes time in proportion to what it writes.
///
/// # Errors
///
/// `NoMemory` where memory is refused.
pub fn generate(alloc: Global, n: u32, seed: u64) -> Result<Generated, NoMemory>
    requires { IsInRange 1 4096 n }
    ensures modules { IfOk result (λ generated. generated.modules ≡ modules_of n seed) }
    ensures edits { IfOk result (λ generated. generated.edits ≡ edits_of n seed) }
{
    let imports = imports_of(alloc, n, seed)?;
    let modules = modules_of(alloc, imports.modules.as_slice(), n, seed)?;
    let edits = edits_of(alloc, imports.modules.as_slice(), imports.state, n, seed)?;
    Ok(Generated { modules, edits })
}
