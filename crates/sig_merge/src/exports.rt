//! What is exported under a name, by the end of its chain.
ghost use Rattle.std.specs.Prelude.{◌≡◌, Some, map, IfOk};
ghost use Rattle.job_ends.specs.Jobs.{known_of};
ghost use Rattle.job_ends.specs.Nodes.{inner, node_export, only_value, only_alias};
ghost use Rattle.job_ends.specs.Views.{node_view};
ghost use Rattle.job_ends.specs.Telling.{code_nodes};
ghost use Rattle.sig_merge.specs.Merging.{types_in, export_in};

use crate::scope::replaced_type;
use chain_ends::End;
use check_values::{Export, Origin};
use flow_values::NoMemory;
use job_ends::{JobEnds, Member, Node};
use std::alloc::Global;

fn share(export: &Export) -> Result<Export, NoMemory>
    ensures { IfOk result (λ copy. copy ≡ export.now) }
{
    match export {
        Export::Value(t) => Ok(Export::Value(t.share()?)),
        Export::Alias { module, name } => Ok(Export::Alias {
            module: module.share()?,
            name: name.share()?,
        }),
        Export::Unknown => Ok(Export::Unknown),
        Export::Cyclic => Ok(Export::Cyclic),
    }
}

fn origin_export<'m, 'j>(
    alloc: Global,
    ends: &JobEnds<'m, 'j>,
    member: &'m Member<'j>,
    origin: &Origin,
) -> Result<Export, NoMemory>
    ensures { IfOk result (λ e. e ≡ node_export (types_in ends.now) (Some (inner member.now.member.now.path (known_of member.now.member.now) origin.now))) }
{
    match origin {
        Origin::Value(t) => Ok(Export::Value(replaced_type(alloc, ends, member, t)?)),
        Origin::Alias(name) => Ok(Export::Alias {
            module: member.member.path.share()?,
            name: name.share()?,
        }),
        Origin::Import {
            spec: _,
            name: _,
            is_type: _,
        } => Ok(Export::Unknown),
        Origin::Unknown => Ok(Export::Unknown),
    }
}

fn node_export<'m, 'j>(
    alloc: Global,
    ends: &JobEnds<'m, 'j>,
    node: Node<'m, 'j>,
) -> Result<Export, NoMemory>
    ensures { IfOk result (λ e. e ≡ node_export (types_in ends.now) (Some (node_view node.entry))) }
{
    match node {
        Node::Outer(export) => share(export),
        Node::Inner(member, origin) => origin_export(alloc, ends, member, origin),
    }
}

/// What is exported under a name whose chain ends at a node, for each node. A member's type has its names replaced once, for all
/// names whose chains end there.
///
/// # Errors
///
/// `NoMemory` where memory is refused.
pub(crate) fn node_exports(alloc: Global, ends: &JobEnds) -> Result<Vec<Export>, NoMemory>
    ensures { IfOk result (λ exports. exports.items ≡ map (λ node. node_export (types_in ends.now) (Some (node_view node))) (code_nodes ends.now)) }
{
    let nodes = ends.nodes();
    let mut exports = Vec::new(alloc);
    for i in 0..nodes.len() {
        exports.push(node_export(alloc, ends, nodes[i])?)?;
    }
    Ok(exports)
}

fn only_value(export: &Export) -> Result<Export, NoMemory>
    ensures { IfOk result (λ e. e ≡ only_value export.now) }
{
    match export {
        Export::Value(t) => Ok(Export::Value(t.share()?)),
        Export::Alias { module: _, name: _ } => Ok(Export::Unknown),
        Export::Unknown => Ok(Export::Unknown),
        Export::Cyclic => Ok(Export::Unknown),
    }
}

fn only_alias(export: &Export) -> Result<Export, NoMemory>
    ensures { IfOk result (λ e. e ≡ only_alias export.now) }
{
    match export {
        Export::Alias { module, name } => Ok(Export::Alias {
            module: module.share()?,
            name: name.share()?,
        }),
        Export::Value(_) => Ok(Export::Unknown),
        Export::Unknown => Ok(Export::Unknown),
        Export::Cyclic => Ok(Export::Unknown),
    }
}

fn value_at(exports: &[Export], number: usize) -> Result<Export, NoMemory>
    ensures { IfOk result (λ e. e ≡ export_in exports.now (End.Value number)) }
{
    match exports.get(number) {
        Some(export) => only_value(export),
        None => Ok(Export::Unknown),
    }
}

fn alias_at(exports: &[Export], number: usize) -> Result<Export, NoMemory>
    ensures { IfOk result (λ e. e ≡ export_in exports.now (End.Alias number)) }
{
    match exports.get(number) {
        Some(export) => only_alias(export),
        None => Ok(Export::Unknown),
    }
}

/// What is exported under a name whose chain ends so.
///
/// # Errors
///
/// `NoMemory` where memory is refused.
pub(crate) fn end_export(exports: &[Export], end: End) -> Result<Export, NoMemory>
    ensures { IfOk result (λ e. e ≡ export_in exports.now end) }
{
    match end {
        End::Value(number) => value_at(exports, number),
        End::Alias(number) => alias_at(exports, number),
        End::Unknown => Ok(Export::Unknown),
        End::Cyclic => Ok(Export::Cyclic),
    }
}
