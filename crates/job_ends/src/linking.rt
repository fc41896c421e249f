//! One step along the chain of each name.
ghost use Rattle.std.specs.Prelude.{◌≡◌, map, IfOk};
ghost use Rattle.std.specs.Option.{option_copied};
ghost use Rattle.chain_ends.specs.Following.{AreEnds};
ghost use Rattle.name_numbers.specs.Numbering.{number_in, nodes_of};
ghost use Rattle.job_ends.specs.Linking.{outer_end, link_to, origin_link, link_of, links_from};
ghost use Rattle.job_ends.specs.Views.{node_view};

use crate::member::Member;
use crate::nodes::Node;
use chain_ends::{End, Link, ends_of};
use check_values::{Export, Origin};
use flow_values::{NoMemory, Path, Text};
use name_numbers::Numbered;
use std::alloc::Global;

// What a signature outside tells ends a chain.
fn outer_end(number: usize, export: &Export) -> End
    ensures { result ≡ outer_end number export.now }
{
    match export {
        Export::Value(_) => End::Value(number),
        Export::Alias { module: _, name: _ } => End::Alias(number),
        Export::Unknown => End::Unknown,
        Export::Cyclic => End::Cyclic,
    }
}

fn link_to(numbered: &Numbered<Node>, is_type: bool, name: &Text, found: Option<&Path>) -> Link
    ensures { result ≡ link_to (number_in numbered.now) is_type name.now (option_copied found.entry) }
{
    match found {
        Some(path) => Link::Goes {
            is_type,
            next: numbered.number(path, name),
        },
        None => Link::Ends(End::Unknown),
    }
}

// The step from an export of a member that isn't broken.
fn origin_link(numbered: &Numbered<Node>, number: usize, member: &Member, origin: &Origin) -> Link
    ensures { result ≡ origin_link (number_in numbered.now) number member.now.member.now.deps origin.now }
{
    match origin {
        Origin::Value(_) => Link::Ends(End::Value(number)),
        Origin::Alias(_) => Link::Ends(End::Alias(number)),
        Origin::Import {
            spec,
            name,
            is_type,
        } => link_to(numbered, *is_type, name, member.found(spec)),
        Origin::Unknown => Link::Ends(End::Unknown),
    }
}

fn link_of(numbered: &Numbered<Node>, number: usize, node: Node) -> Link
    ensures { result ≡ link_of (number_in numbered.now) number (node_view node.entry) }
{
    match node {
        Node::Outer(export) => Link::Ends(outer_end(number, export)),
        Node::Inner(member, origin) => {
            if member.member.sig.get().broken {
                return Link::Ends(End::Unknown);
            }
            origin_link(numbered, number, member, origin)
        }
    }
}

// The steps from all names, in the order of their numbers.
fn links(alloc: Global, numbered: &Numbered<Node>) -> Result<Vec<Link>, NoMemory>
    ensures { IfOk result (λ links. links.items ≡ links_from (number_in numbered.now) 0 (map node_view (nodes_of numbered.now))) }
{
    let nodes = numbered.nodes();
    let mut links = Vec::new(alloc);
    for i in 0..nodes.len() {
        links.push(link_of(numbered, i, nodes[i]))?;
    }
    Ok(links)
}

/// Where the chains of all names end, in the order of their numbers.
///
/// # Errors
///
/// `NoMemory` where memory is refused.
#[tactic(auto, using(crate::proofs::Lists::same_links))]
pub(crate) fn link_ends(alloc: Global, numbered: &Numbered<Node>) -> Result<Vec<End>, NoMemory>
    ensures { IfOk result (λ ends. AreEnds (links_from (number_in numbered.now) 0 (map node_view (nodes_of numbered.now))) ends.items) }
{
    let links = links(alloc, numbered)?;
    let ends = ends_of(alloc, links.as_slice())?;
    Ok(ends)
}
