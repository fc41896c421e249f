//! Which parts of modules are new or differ.
ghost use Rattle.std.specs.Prelude.{◌≡◌, ◌<◌, ◌+◌, ◌^◌, ◌↔◌, IfOk, OnOk, IsTrue, true, false, length};
ghost use Rattle.recheck_plan.specs.Marks.{AreBelow};
ghost use Rattle.recheck_sources.specs.Keeping.{TellsOther, signatures_of, IsOnEither};
ghost use Rattle.recheck_sources.specs.Parts.{AreKeptBy, TellsOthers};

use check_values::Deps;
use export_counts::source_front::Parse;
use flow_values::{List, NoMemory, Shared};
use signature_equality::{same_deps, same_local};
use std::alloc::Global;

// Whether a dependency list is new, or another one than that of the old module.
fn other_list(was: &[Shared<Deps>], number: Option<u32>, list: &Deps) -> bool
    ensures { TellsOther was.now number list.now result }
{
    let Some(number) = number else {
        return true;
    };
    match was.get(number as usize) {
        Some(old) => !same_deps(list, old.get()),
        None => true,
    }
}

// Whether a local signature is new, or another one than that of the old module.
fn other_signature(was: &[Shared<Parse>], number: Option<u32>, parse: &Parse) -> bool
    ensures { TellsOther (signatures_of was.now) number parse.now.sig result }
{
    let Some(number) = number else {
        return true;
    };
    match was.get(number as usize) {
        Some(old) => !same_local(parse.sig.get(), old.get().sig.get()),
        None => true,
    }
}

// Whether a list is new or another one: it is not where it is kept as it was.
fn list_flag(
    was: &[Shared<Deps>],
    number: Option<u32>,
    list: &Deps,
    stays: bool,
    fresh: bool,
) -> bool
    requires { stays ≡ true → fresh ≡ false → TellsOther was.now number list.now false }
    ensures { TellsOther was.now number list.now result }
{
    if stays && !fresh {
        return false;
    }
    other_list(was, number, list)
}

// Whether a local signature is new or another one: it is not where the module is not fresh.
fn signature_flag(was: &[Shared<Parse>], number: Option<u32>, parse: &Parse, fresh: bool) -> bool
    requires { fresh ≡ false → TellsOther (signatures_of was.now) number parse.now.sig false }
    ensures { TellsOther (signatures_of was.now) number parse.now.sig result }
{
    if !fresh {
        return false;
    }
    other_signature(was, number, parse)
}

/// For each module whether its dependency list is new, or another one than that of the module that it was. Where no path came or went,
/// only the lists of fresh modules are compared.
///
/// # Errors
///
/// `NoMemory` where memory is refused.
pub(crate) fn relisted_of(
    alloc: Global,
    was: &[Shared<Deps>],
    lists: &[Shared<Deps>],
    from: &[Option<u32>],
    fresh: &[bool],
    stays: bool,
) -> Result<Vec<bool>, NoMemory>
    requires from { length from.now ≡ length lists.now }
    requires fresh { length fresh.now ≡ length lists.now }
    requires kept { stays ≡ true → AreKeptBy was.now from.now fresh.now lists.now }
    ensures { IfOk result (λ flags. TellsOthers was.now from.now lists.now flags.items) }
{
    let mut flags = Vec::new(alloc);
    for i in 0..lists.len() {
        let list = lists[i].get();
        let flag = list_flag(was, from[i], list, stays, fresh[i]);
        flags.push(flag)?;
    }
    Ok(flags)
}

/// For each module whether its local signature is new, or another one than that of the module that it was. Only those of fresh modules
/// are compared.
///
/// # Errors
///
/// `NoMemory` where memory is refused.
pub(crate) fn resigned_of(
    alloc: Global,
    was: &[Shared<Parse>],
    parses: &[Shared<Parse>],
    from: &[Option<u32>],
    fresh: &[bool],
) -> Result<Vec<bool>, NoMemory>
    requires from { length from.now ≡ length parses.now }
    requires fresh { length fresh.now ≡ length parses.now }
    requires kept { AreKeptBy was.now from.now fresh.now parses.now }
    ensures { IfOk result (λ flags. TellsOthers (signatures_of was.now) from.now (signatures_of parses.now) flags.items) }
{
    let mut flags = Vec::new(alloc);
    for i in 0..parses.len() {
        let parse = parses[i].get();
        let flag = signature_flag(was, from[i], parse, fresh[i]);
        flags.push(flag)?;
    }
    Ok(flags)
}

// Whether one of the two flags of a number is on.
fn is_either(first: &[bool], second: &[bool], x: usize) -> bool
    requires first { x < length first.now }
    requires second { x < length second.now }
    ensures { IsTrue result ↔ IsOnEither first.now second.now x }
{
    first[x] || second[x]
}

// Puts a number behind others, if one of its two flags is on.
fn add_either(
    first: &[bool],
    second: &[bool],
    x: usize,
    all: &mut List<u32>,
) -> Result<(), NoMemory>
    requires few { length first.now < 2 ^ 32 }
    requires first { x < length first.now }
    requires second { x < length second.now }
    requires listed { AreBelow (IsOnEither first.now second.now) x all.old }
    ensures { OnOk result (AreBelow (IsOnEither first.now second.now) (x + 1) all.new) }
{
    if !is_either(first, second, x) {
        return Ok(());
    }
    all.push(x as u32)?;
    Ok(())
}

/// The numbers of which one of two flags is on, rising.
///
/// # Errors
///
/// `NoMemory` where memory is refused.
pub(crate) fn either_places(
    alloc: Global,
    first: &[bool],
    second: &[bool],
) -> Result<List<u32>, NoMemory>
    requires few { length first.now < 2 ^ 32 }
    requires many { length second.now ≡ length first.now }
    ensures { IfOk result (AreBelow (IsOnEither first.now second.now) (length first.now)) }
{
    let mut all = List::new(alloc);
    for x in 0..first.len() {
        add_either(first, second, x, &mut all)?;
    }
    Ok(all)
}
