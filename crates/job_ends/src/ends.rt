//! Where the chains of a job's names end.
ghost use Rattle.std.specs.Prelude.{◌≡◌, List, ℕ, Bool, map, unwrap_or, slice_get, IfOk};
ghost use Rattle.std.specs.Option.{option_map};
ghost use Rattle.merged_signatures.specs.Job.{job_alias_at};
ghost use Rattle.job_ends.specs.Jobs.{job_view};
ghost use Rattle.job_ends.specs.Nodes.{node_alias, end_alias};
ghost use Rattle.job_ends.specs.Views.{node_view, name_view};
ghost use Rattle.job_ends.specs.Telling.{code_nodes, nodes_in, end_in, alias_in, TellsJob};

use crate::job::MergeJob;
use crate::linking::link_ends;
use crate::member::Member;
use crate::nodes::{Node, modules};
use chain_ends::End;
use check_values::{Export, Origin};
use flow_values::{NoMemory, Path, Text};
use name_numbers::Numbered;
use std::alloc::Global;

/// The names of a job, and where the chain of each ends.
#[derive(Drop)]
pub struct JobEnds<'m, 'j> {
    numbered: Numbered<Node<'m, 'j>>,
    ends: Vec<End>,
}

// The path of a member's module.
fn path_of<'j>(member: &Member<'j>) -> &'j Path
    ensures { result.now ≡ member.now.member.now.path }
{
    let own = member.member;
    &own.path
}

// The alias that a node is, if it is one.
fn node_alias<'m, 'j>(node: Option<Node<'m, 'j>>) -> Option<(&'j Path, &'j Text)>
    ensures { option_map name_view result ≡ node_alias (option_map node_view node.entry) }
{
    match node? {
        Node::Outer(export) => match export {
            Export::Alias { module, name } => Some((module, name)),
            Export::Value(_) | Export::Unknown | Export::Cyclic => None,
        },
        Node::Inner(member, origin) => match origin {
            Origin::Alias(name) => Some((path_of(member), name)),
            Origin::Value(_)
            | Origin::Import {
                spec: _,
                name: _,
                is_type: _,
            }
            | Origin::Unknown => None,
        },
    }
}

impl<'m, 'j> JobEnds<'m, 'j> {
    /// The ends of a job's chains. `members` are the job's own, as `members` gives them. Each chain is followed once.
    ///
    /// # Errors
    ///
    /// `NoMemory` where memory is refused.
    pub fn new(
        alloc: Global,
        job: &'j MergeJob,
        members: &'m [Member<'j>],
    ) -> Result<JobEnds<'m, 'j>, NoMemory>
        requires { map (λ own. own.member.now) members.now ≡ job.now.members }
        ensures tells { IfOk result (λ ends. TellsJob (job_view job.now) ends) }
        ensures aliases { IfOk result (λ ends. (is_type : Bool) (path name : List ℕ) → alias_in ends is_type path name ≡ job_alias_at (job_view job.now) is_type path name) }
    {
        let numbered = Numbered::new(alloc, modules(alloc, job, members)?)?;
        let ends = link_ends(alloc, &numbered)?;
        Ok(JobEnds { numbered, ends })
    }

    /// What is known of the names, by their numbers.
    pub fn nodes(&self) -> &[Node<'m, 'j>]
        ensures { result.now ≡ code_nodes self.now }
    {
        self.numbered.nodes()
    }

    /// Where the chain of a name of a module ends, by numbers of nodes.
    pub fn end(&self, path: &Path, name: &Text) -> End
        ensures { result ≡ end_in self.now path.now name.now }
    {
        let number = self.numbered.number(path, name);
        self.ends.get(number).copied().unwrap_or(End::Unknown)
    }

    fn node(&self, number: usize) -> Option<Node<'m, 'j>>
        ensures { result ≡ slice_get (code_nodes self.now) number }
    {
        self.numbered.nodes().get(number).copied()
    }

    #[tactic(auto, using(crate::proofs::Ending::alias_node))]
    fn end_alias(&self, end: End) -> Option<(&'j Path, &'j Text)>
        ensures { option_map name_view result ≡ end_alias (nodes_in self.now) end }
    {
        match end {
            End::Alias(number) => node_alias(self.node(number)),
            End::Value(_) | End::Unknown | End::Cyclic => None,
        }
    }

    /// The alias that a name of a module denotes, asked for as a type or as a value, if it denotes one.
    pub fn alias(&self, is_type: bool, path: &Path, name: &Text) -> Option<(&'j Path, &'j Text)>
        ensures { option_map name_view result ≡ alias_in self.now is_type path.now name.now }
    {
        self.end_alias(self.end(path, name).of_kind(is_type))
    }
}
