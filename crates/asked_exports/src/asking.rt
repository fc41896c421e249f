//! The names that the members of a job ask for, by the paths of their modules.
ghost use Rattle.std.specs.Prelude.{◌≡◌, ◌∷◌, [], List, ℕ, OnOk, IfOk, map};
ghost use Rattle.std.specs.List.{flat_map};
ghost use Rattle.merged_signatures.specs.Chains.{found};
ghost use Rattle.job_ends.specs.Jobs.{job_view, member_view};
ghost use Rattle.asked_exports.specs.Asked.{asked_name, asked_by_origin, asked_by_export, asked_by_import, asked_by_member, asked, asked_of, without};
ghost use Rattle.asked_exports.specs.Gathering.{names_at, Gathers};

use check_values::{ImportRow, Origin};
use flow_values::{List, NoMemory, Path, Text};
use job_ends::{Member, MergeJob, members};
use std::alloc::Global;
use std::collections::BTreeMap;

/// The names that are asked of each module.
pub(crate) type Asked = BTreeMap<Path, List<Text>>;

/// The names that are asked of a module, taken out.

pub(crate) fn take_names(alloc: Global, asked: &mut Asked, path: &Path) -> List<Text>
    ensures names { result ≡ names_at asked.old path.now }
    ensures rest { (q : List ℕ) → names_at asked.new q ≡ without path.now (names_at asked.old) q }
{
    match asked.remove(path) {
        Some(names) => names,
        None => List::new(alloc),
    }
}

// One more name of a module is asked for.
fn ask(alloc: Global, asked: &mut Asked, path: &Path, name: &Text) -> Result<(), NoMemory>
    ensures { OnOk result (Gathers asked.old asked.new ((path.now, name.now) ∷ [])) }
{
    let mut names = take_names(alloc, asked, path);
    names.push(name.share()?)?;
    asked.insert(path.share()?, names)?;
    Ok(())
}

// A name of the module that a member's specifier finds, if it finds one.

#[tactic(auto, using(crate::proofs::Gathered::gathers_none))]
fn ask_found(
    alloc: Global,
    asked: &mut Asked,
    member: &Member,
    spec: &Text,
    name: &Text,
) -> Result<(), NoMemory>
    ensures { OnOk result (Gathers asked.old asked.new (asked_name (found member.now.member.now.deps spec.now) name.now)) }
{
    match member.found(spec) {
        Some(path) => ask(alloc, asked, path, name),
        None => Ok(()),
    }
}

// What an origin leads to.

#[tactic(auto, using(crate::proofs::Gathered::gathers_none))]
fn ask_origin(
    alloc: Global,
    asked: &mut Asked,
    member: &Member,
    origin: &Origin,
) -> Result<(), NoMemory>
    ensures { OnOk result (Gathers asked.old asked.new (asked_by_origin member.now.member.now.deps origin.now)) }
{
    match origin {
        Origin::Import {
            spec,
            name,
            is_type: _,
        } => ask_found(alloc, asked, member, spec, name),
        Origin::Value(_) | Origin::Alias(_) | Origin::Unknown => Ok(()),
    }
}

// What an export of a member asks for.
#[tactic(auto, using(crate::proofs::Gathered::gathers_both))]
fn ask_export(
    alloc: Global,
    asked: &mut Asked,
    member: &Member,
    row: &(Text, Origin),
) -> Result<(), NoMemory>
    ensures { OnOk result (Gathers asked.old asked.new (asked_by_export member.now.member.now.path member.now.member.now.deps row.now)) }
{
    let own = member.member;
    ask(alloc, asked, &own.path, &row.0)?;
    ask_origin(alloc, asked, member, &row.1)
}

// What the exports of a member ask for.

#[tactic(auto, using(crate::proofs::Gathered::gathers_none, crate::proofs::Gathered::gathers_more))]
fn ask_exports(alloc: Global, asked: &mut Asked, member: &Member) -> Result<(), NoMemory>
    ensures { OnOk result (Gathers asked.old asked.new (flat_map (asked_by_export member.now.member.now.path member.now.member.now.deps) member.now.member.now.sig.exports)) }
{
    let own = member.member;
    let exports = own.sig.get().exports.as_slice();
    for i in 0..exports.len() {
        ask_export(alloc, asked, member, &exports[i])?;
    }
    Ok(())
}

// What the imports of a member ask for.

#[tactic(auto, using(crate::proofs::Gathered::gathers_none, crate::proofs::Gathered::gathers_more))]
fn ask_imports(alloc: Global, asked: &mut Asked, member: &Member) -> Result<(), NoMemory>
    ensures { OnOk result (Gathers asked.old asked.new (flat_map (asked_by_import member.now.member.now.deps) member.now.member.now.sig.imports)) }
{
    let own = member.member;
    let imports = own.sig.get().imports.as_slice();
    for i in 0..imports.len() {
        let row = &imports[i];
        ask_found(alloc, asked, member, &row.spec, &row.name)?;
    }
    Ok(())
}

// What a member asks for.
#[tactic(auto, using(crate::proofs::Gathered::gathers_both))]
fn ask_member(alloc: Global, asked: &mut Asked, member: &Member) -> Result<(), NoMemory>
    ensures { OnOk result (Gathers asked.old asked.new (asked_by_member (member_view member.now.member.now))) }
{
    ask_exports(alloc, asked, member)?;
    ask_imports(alloc, asked, member)?;
    Ok(())
}

// What members ask for.
#[tactic(auto, using(crate::proofs::Gathered::gathers_none, crate::proofs::Gathered::gathers_more, crate::proofs::Gathered::gathers_all))]
fn asked_by(alloc: Global, members: &[Member]) -> Result<Asked, NoMemory>
    ensures { IfOk result (λ asked. (path : List ℕ) → names_at asked path ≡ asked_of (flat_map (λ own. asked_by_member (member_view own.member.now)) members.now) path) }
{
    let mut asked = BTreeMap::new(alloc);
    for i in 0..members.len() {
        ask_member(alloc, &mut asked, &members[i])?;
    }
    Ok(asked)
}

/// What the members of a job ask for. It takes `n log n` comparisons for `n` rows of the members.
///
/// # Errors
///
/// `NoMemory` where memory is refused.
#[tactic(auto, using(crate::proofs::Gathered::by_members))]
pub(crate) fn asked_names(alloc: Global, job: &MergeJob) -> Result<Asked, NoMemory>
    ensures { IfOk result (λ names. (path : List ℕ) → names_at names path ≡ asked_of (asked (job_view job.now)) path) }
{
    let members = members(alloc, job)?;
    let asked = asked_by(alloc, members.as_slice())?;
    Ok(asked)
}
