//! The merged signatures of a program, component by component in waves.
use check_values::Sig;
use flow_values::{List, NoMemory, Path, Shared};
use graph_search::{are_within, components, waves};
use sig_merge::{MergeJob, MergeMember, merge_component};
use std::alloc::Global;
use std::collections::BTreeMap;

/// Merged signatures by the paths of their modules.
pub(crate) type Signatures = BTreeMap<Path, Shared<Sig>>;

fn shared(member: &MergeMember) -> Result<MergeMember, NoMemory> {
    Ok(MergeMember {
        path: member.path.share()?,
        sig: member.sig.share()?,
        deps: member.deps.share()?,
    })
}

// Puts the signatures of the modules that a member leads to, where they are merged, behind others.
fn add_outside(
    signatures: &Signatures,
    member: &MergeMember,
    outside: &mut List<(Path, Shared<Sig>)>,
) -> Result<(), NoMemory> {
    for row in member.deps.get().rows.as_slice() {
        if let Some(path) = &row.found {
            if let Some(signature) = signatures.get(path) {
                outside.push((path.share()?, signature.share()?))?;
            }
        }
    }
    Ok(())
}

// Merges the members of a component.
fn merge(
    alloc: Global,
    members: &[MergeMember],
    component: &[u32],
    signatures: &mut Signatures,
) -> Result<(), NoMemory> {
    let mut job = MergeJob {
        members: List::new(alloc),
        outside: List::new(alloc),
    };
    for number in component {
        if let Some(member) = members.get(*number as usize) {
            add_outside(signatures, member, &mut job.outside)?;
            job.members.push(shared(member)?)?;
        }
    }
    let merged = merge_component(alloc, &job)?;
    for (member, signature) in job
        .members
        .as_slice()
        .iter()
        .zip(merged.into_vec().into_iter())
    {
        signatures.insert(member.path.share()?, Shared::new(alloc, signature)?)?;
    }
    Ok(())
}

/// The merged signatures of a program whose modules lead to these numbers; none where an edge leads to no module.
pub(crate) fn merged(
    alloc: Global,
    members: &[MergeMember],
    edges: &[List<u32>],
) -> Result<Signatures, NoMemory> {
    let mut signatures = BTreeMap::new(alloc);
    if edges.len() > 1_000_000 || !are_within(edges) {
        return Ok(signatures);
    }
    let components = components(alloc, edges)?;
    for wave in waves(alloc, &components, edges)?.as_slice() {
        for number in wave.as_slice() {
            if let Some(component) = components.get(*number as usize) {
                merge(alloc, members, component.as_slice(), &mut signatures)?;
            }
        }
    }
    Ok(signatures)
}
