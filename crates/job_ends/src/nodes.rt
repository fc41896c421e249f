//! The names of a job, module by module.
ghost use Rattle.std.specs.Prelude.{◌≡◌, ◌++◌, map, IfOk, OnOk};
ghost use Rattle.named_rows.specs.Seen.{seen};
ghost use Rattle.job_ends.specs.Nodes.{outer_rows, inner_rows, outer_modules, inner_module, nodes_by_module};
ghost use Rattle.job_ends.specs.Jobs.{member_view, known_of, job_view};
ghost use Rattle.job_ends.specs.Views.{node_view, rows_view};

use crate::job::MergeJob;
use crate::member::Member;
use check_values::{Export, Origin, Sig};
use flow_values::{List, NoMemory, Path, Shared, Text};
use std::alloc::Global;

/// What a job knows of a name.
#[derive(Clone, Copy)]
pub enum Node<'m, 'j> {
    /// What a signature outside tells of it.
    Outer(&'j Export),
    /// What a member says of it.
    Inner(&'m Member<'j>, &'j Origin),
}

/// The names of a module, each with what is known of it.
pub type Rows<'m, 'j> = List<(Text, Node<'m, 'j>)>;

#[tactic(auto, using(named_rows::proofs::Lists::seen_more))]
fn add_outer_rows<'m, 'j>(sig: &'j Sig, rows: &mut Rows<'m, 'j>) -> Result<(), NoMemory>
    ensures { OnOk result (seen node_view rows.new ≡ seen node_view rows.old ++ outer_rows sig.now) }
{
    let exports = sig.exports.as_slice();
    for i in 0..exports.len() {
        let row = &exports[i];
        rows.push((row.0.share()?, Node::Outer(&row.1)))?;
    }
    Ok(())
}

#[tactic(auto, using(named_rows::proofs::Lists::seen_more))]
fn inner_rows<'m, 'j>(alloc: Global, member: &'m Member<'j>) -> Result<Rows<'m, 'j>, NoMemory>
    ensures { IfOk result (λ rows. seen node_view rows ≡ inner_rows member.now.member.now.path (known_of member.now.member.now)) }
{
    let own = member.member;
    let exports = own.sig.get().exports.as_slice();
    let mut rows = List::new(alloc);
    for i in 0..exports.len() {
        let row = &exports[i];
        rows.push((row.0.share()?, Node::Inner(member, &row.1)))?;
    }
    Ok(rows)
}

#[tactic(auto, using(named_rows::proofs::Lists::seen_more))]
fn add_outer_modules<'m, 'j>(
    alloc: Global,
    outside: &'j [(Path, Shared<Sig>)],
    modules: &mut Vec<(Path, Rows<'m, 'j>)>,
) -> Result<(), NoMemory>
    ensures { OnOk result (seen rows_view modules.new.items ≡ seen rows_view modules.old.items ++ outer_modules outside.now) }
{
    for i in 0..outside.len() {
        let row = &outside[i];
        let mut rows = List::new(alloc);
        add_outer_rows(row.1.get(), &mut rows)?;
        modules.push((row.0.share()?, rows))?;
    }
    Ok(())
}

#[tactic(auto, using(named_rows::proofs::Lists::seen_more))]
fn add_inner_modules<'m, 'j>(
    alloc: Global,
    members: &'m [Member<'j>],
    modules: &mut Vec<(Path, Rows<'m, 'j>)>,
) -> Result<(), NoMemory>
    ensures { OnOk result (seen rows_view modules.new.items ≡ seen rows_view modules.old.items ++ map (λ own. inner_module (member_view own.member.now)) members.now) }
{
    for i in 0..members.len() {
        let member = &members[i];
        let path = member.member.path.share()?;
        modules.push((path, inner_rows(alloc, member)?))?;
    }
    Ok(())
}

/// The names of each module of a job. Those outside come first, since they hide a member of the same path.
///
/// # Errors
///
/// `NoMemory` where memory is refused.
#[tactic(auto, using(crate::proofs::Lists::of_members))]
pub(crate) fn modules<'m, 'j>(
    alloc: Global,
    job: &'j MergeJob,
    members: &'m [Member<'j>],
) -> Result<Vec<(Path, Rows<'m, 'j>)>, NoMemory>
    requires { map (λ own. own.member.now) members.now ≡ job.now.members }
    ensures { IfOk result (λ modules. seen rows_view modules.items ≡ nodes_by_module (job_view job.now)) }
{
    let mut modules = Vec::new(alloc);
    add_outer_modules(alloc, job.outside.as_slice(), &mut modules)?;
    add_inner_modules(alloc, members, &mut modules)?;
    Ok(modules)
}
