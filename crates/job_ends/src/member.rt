//! Members with their rows by their names.
ghost use Rattle.std.specs.Prelude.{◌≡◌, List, ℕ, map, is_some, IfOk};
ghost use Rattle.std.specs.Option.{option_copied, option_and_then};
ghost use Rattle.std.specs.Ordering.{nat_cmp};
ghost use Rattle.std.specs.Cmp.Lexicographic.{slice_cmp};
ghost use Rattle.std.specs.BTreeMap.{get};
ghost use Rattle.check_values.specs.Rows.{row_at};
ghost use Rattle.merged_signatures.specs.Chains.{found};
ghost use Rattle.merged_signatures.specs.Merged.{import_at};
ghost use Rattle.named_rows.specs.Seen.{seen};
ghost use Rattle.job_ends.specs.Jobs.{imports_by_local};

use crate::job::{MergeJob, MergeMember};
use check_values::ImportRow;
use flow_values::{NoMemory, Path, Text};
use named_rows::{by_name, found_rows};
use std::alloc::Global;
use std::collections::BTreeMap;
use type_values::FlowType;

/// A member of a job, with its rows by their names. Of rows of one name the first counts.
#[derive(Drop)]
pub struct Member<'a> {
    pub member: &'a MergeMember,
    aliases: BTreeMap<Text, &'a FlowType>,
    imports: BTreeMap<Text, &'a ImportRow>,
    founds: BTreeMap<Text, Option<&'a Path>>,
    ghost of_aliases: { (word : List ℕ) → is_some (get (slice_cmp nat_cmp) aliases word) ≡ is_some (row_at member.now.sig.aliases word) },
    ghost of_imports: { (word : List ℕ) → option_copied (get (slice_cmp nat_cmp) imports word) ≡ import_at member.now.sig.imports word },
    ghost of_founds: { (word : List ℕ) → option_and_then option_copied (get (slice_cmp nat_cmp) founds word) ≡ found member.now.deps word },
}

#[tactic(auto, using(named_rows::proofs::Lists::seen_more))]
fn alias_rows<'a>(
    alloc: Global,
    rows: &'a [(Text, FlowType)],
) -> Result<Vec<(Text, &'a FlowType)>, NoMemory>
    ensures { IfOk result (λ named. seen (λ t. t.now) named.items ≡ map (λ row. (row.0, row.1)) rows.now) }
{
    let mut named = Vec::new(alloc);
    for i in 0..rows.len() {
        let row = &rows[i];
        named.push((row.0.share()?, &row.1))?;
    }
    Ok(named)
}

#[tactic(auto, using(named_rows::proofs::Lists::seen_more))]
fn import_rows<'a>(
    alloc: Global,
    rows: &'a [ImportRow],
) -> Result<Vec<(Text, &'a ImportRow)>, NoMemory>
    ensures { IfOk result (λ named. seen (λ row. row.now) named.items ≡ imports_by_local rows.now) }
{
    let mut named = Vec::new(alloc);
    for i in 0..rows.len() {
        let row = &rows[i];
        named.push((row.local.share()?, row))?;
    }
    Ok(named)
}

fn flat<'a>(found: Option<&Option<&'a Path>>) -> Option<&'a Path>
    ensures { option_copied result ≡ option_and_then option_copied (option_copied found.entry) }
{
    match found {
        Some(path) => *path,
        None => None,
    }
}

impl<'a> Member<'a> {
    fn new(alloc: Global, member: &'a MergeMember) -> Result<Member<'a>, NoMemory>
        ensures { IfOk result (λ own. own.member.now ≡ member.now) }
    {
        let sig = member.sig.get();
        let deps = member.deps.get();
        let aliases = by_name(alloc, alias_rows(alloc, sig.aliases.as_slice())?)?;
        let imports = by_name(alloc, import_rows(alloc, sig.imports.as_slice())?)?;
        let founds = by_name(alloc, found_rows(alloc, deps.rows.as_slice())?)?;
        Ok(Member {
            member,
            aliases,
            imports,
            founds,
        })
    }

    /// The path of the module that a specifier finds, if it finds one.
    pub fn found(&self, spec: &Text) -> Option<&'a Path>
        ensures { option_copied result ≡ found self.now.member.now.deps spec.now }
    {
        flat(self.founds.get(spec))
    }

    /// The first import under a local name, if there is one.
    pub fn import(&self, local: &Text) -> Option<&'a ImportRow>
        ensures { option_copied result ≡ import_at self.now.member.now.sig.imports local.now }
    {
        self.imports.get(local).copied()
    }

    /// Whether the member has an alias of this name.
    pub fn has_alias(&self, name: &Text) -> bool
        ensures { result ≡ is_some (row_at self.now.member.now.sig.aliases name.now) }
    {
        self.aliases.contains_key(name)
    }
}

/// The members of a job, in order.
///
/// # Errors
///
/// `NoMemory` where memory is refused.
pub fn members<'a>(alloc: Global, job: &'a MergeJob) -> Result<Vec<Member<'a>>, NoMemory>
    ensures { IfOk result (λ members. map (λ own. own.member.now) members.items ≡ job.now.members) }
{
    let all = job.members.as_slice();
    let mut members = Vec::new(alloc);
    for i in 0..all.len() {
        members.push(Member::new(alloc, &all[i])?)?;
    }
    Ok(members)
}
