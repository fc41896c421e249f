//! The merged signatures of a job's members.
ghost use Rattle.std.specs.Prelude.{◌≡◌, map, IfOk};
ghost use Rattle.merged_signatures.specs.Job.{job_signatures};
ghost use Rattle.job_ends.specs.Jobs.{job_view};
ghost use Rattle.job_ends.specs.Telling.{end_in};
ghost use Rattle.sig_merge.specs.Merging.{type_in, export_in, signature_by};

use crate::exports::{end_export, node_exports};
use crate::scope::replaced_type;
use check_values::{Export, Sig};
use flow_values::{List, NoMemory, Text};
use job_ends::{JobEnds, Member, MergeJob, members};
use std::alloc::Global;
use type_values::FlowType;

fn exports_of(
    alloc: Global,
    ends: &JobEnds,
    exports: &[Export],
    member: &Member,
) -> Result<List<(Text, Export)>, NoMemory>
    ensures { IfOk result (λ rows. rows ≡ map (λ row. (row.0, export_in exports.now (end_in ends.now member.now.member.now.path row.0))) member.now.member.now.sig.exports) }
{
    let origins = member.member.sig.get().exports.as_slice();
    let mut rows = List::new(alloc);
    for i in 0..origins.len() {
        let name = &origins[i].0;
        let end = ends.end(&member.member.path, name);
        rows.push((name.share()?, end_export(exports, end)?))?;
    }
    Ok(rows)
}

fn aliases_of<'m, 'j>(
    alloc: Global,
    ends: &JobEnds<'m, 'j>,
    member: &'m Member<'j>,
) -> Result<List<(Text, FlowType)>, NoMemory>
    ensures { IfOk result (λ rows. rows ≡ map (λ row. (row.0, type_in ends.now member.now.member.now row.1)) member.now.member.now.sig.aliases) }
{
    let aliases = member.member.sig.get().aliases.as_slice();
    let mut rows = List::new(alloc);
    for i in 0..aliases.len() {
        let row = &aliases[i];
        rows.push((row.0.share()?, replaced_type(alloc, ends, member, &row.1)?))?;
    }
    Ok(rows)
}

fn signature<'m, 'j>(
    alloc: Global,
    ends: &JobEnds<'m, 'j>,
    exports: &[Export],
    member: &'m Member<'j>,
) -> Result<Sig, NoMemory>
    ensures { IfOk result (λ sig. sig ≡ signature_by ends.now exports.now member.now.member.now) }
{
    Ok(Sig {
        broken: member.member.sig.get().broken,
        exports: exports_of(alloc, ends, exports, member)?,
        aliases: aliases_of(alloc, ends, member)?,
    })
}

fn signatures<'m, 'j>(
    alloc: Global,
    ends: &JobEnds<'m, 'j>,
    exports: &[Export],
    members: &'m [Member<'j>],
) -> Result<List<Sig>, NoMemory>
    ensures { IfOk result (λ sigs. sigs ≡ map (λ own. signature_by ends.now exports.now own.member.now) members.now) }
{
    let mut sigs = List::new(alloc);
    for i in 0..members.len() {
        sigs.push(signature(alloc, ends, exports, &members[i])?)?;
    }
    Ok(sigs)
}

// The merged signatures of the members of a job, in their order.
fn merged<'m, 'j>(
    alloc: Global,
    job: &'j MergeJob,
    members: &'m [Member<'j>],
) -> Result<List<Sig>, NoMemory>
    requires { map (λ own. own.member.now) members.now ≡ job.now.members }
    ensures { IfOk result (λ sigs. sigs ≡ job_signatures (job_view job.now)) }
{
    let ends = JobEnds::new(alloc, job, members)?;
    let exports = node_exports(alloc, &ends)?;
    let sigs = signatures(alloc, &ends, exports.as_slice(), members)?;
    Ok(sigs)
}

/// The merged signatures of a job's members, in their order: each export is what its name denotes, and each name in a type is
/// replaced by the alias that it denotes, or by `any`. Chains of re-exports are followed through the members, and end at what the
/// signatures outside tell; a module outside hides a member of its path. Of members, names and specifiers that stand twice the first
/// counts. Each name's chain is followed once.
///
/// # Errors
///
/// `NoMemory` where memory is refused.
pub fn merge_component(alloc: Global, job: &MergeJob) -> Result<List<Sig>, NoMemory>
    ensures { IfOk result (λ sigs. sigs ≡ job_signatures (job_view job.now)) }
{
    let members = members(alloc, job)?;
    let all = members.as_slice();
    let sigs = merged(alloc, job, all)?;
    Ok(sigs)
}
