ghost use Rattle.std.specs.Prelude.{◌≡◌, ◌++◌, ◌∷◌, [], List, ℕ, length, slice_get, OnOk, IfOk};
ghost use Rattle.check_values.specs.Rows.{Rows, row_at};
ghost use Rattle.name_numbers.specs.Looking.{looked};
ghost use Rattle.name_numbers.specs.Numbering.{place, number_at, number_in, nodes_of, node_at};

use flow_values::{List, NoMemory, Path, Text};
use std::alloc::Global;
use std::collections::BTreeMap;

// The numbers of the names of one module.
type Places = BTreeMap<Text, usize>;

/// What stands beside the names of modules, by numbers, and the numbers by module and name. Of modules of one path, and of a
/// module's rows of one name, the first counts.
#[derive(Drop)]
pub struct Numbered<N> {
    modules: BTreeMap<Path, Places>,
    nodes: Vec<N>,
}

// Gives a module's names their numbers: those of their nodes, which go behind the others.
fn places<N: Copy>(
    alloc: Global,
    rows: List<(Text, N)>,
    nodes: &mut Vec<N>,
) -> Result<Places, NoMemory>
    ensures grows { OnOk result ((added : List N) × (nodes.new.items ≡ nodes.old.items ++ added)) }
    ensures places { IfOk result (λ places. (name : List ℕ) (more : List N) → node_at nodes.new.items more (place places name) ≡ row_at rows name) }
{
    let mut rows = rows;
    let mut places = BTreeMap::new(alloc);
    while let Some((name, node)) = rows.pop() {
        let number = nodes.len();
        nodes.push(node)?;
        places.insert(name, number)?;
    }
    Ok(places)
}

impl<N: Copy> Numbered<N> {
    /// Numbers for the names of these modules: each has rows of names, and of what stands beside them.
    ///
    /// # Errors
    ///
    /// `NoMemory` where memory is refused.
    pub fn new(
        alloc: Global,
        modules: Vec<(Path, List<(Text, N)>)>,
    ) -> Result<Numbered<N>, NoMemory>
        ensures { IfOk result (λ numbered. (path name : List ℕ) → slice_get (nodes_of numbered) (number_in numbered path name) ≡ looked modules.items path name) }
    {
        let mut rest = modules;
        let mut nodes = Vec::new(alloc);
        let mut modules = BTreeMap::new(alloc);
        while let Some((path, rows)) = rest.pop() {
            let places = places(alloc, rows, &mut nodes)?;
            modules.insert(path, places)?;
        }
        Ok(Numbered { modules, nodes })
    }

    /// What the numbers stand for, in their order.
    pub fn nodes(&self) -> &[N]
        ensures { result.now ≡ nodes_of self.now }
    {
        self.nodes.as_slice()
    }

    /// The number of a name of a module. A name that has none gets the number of all nodes.
    pub fn number(&self, path: &Path, name: &Text) -> usize
        ensures { result ≡ number_in self.now path.now name.now }
    {
        match self.number_of(path, name) {
            Some(number) => number,
            None => self.nodes.len(),
        }
    }

    fn number_of(&self, path: &Path, name: &Text) -> Option<usize>
        ensures { result ≡ number_at self.now.modules path.now name.now }
    {
        let places = self.modules.get(path)?;
        places.get(name).copied()
    }
}
