ghost use Rattle.std.specs.Prelude.{◌≡◌, ℕ, List};
ghost use Rattle.graph_search.specs.Components.{AreComponents};
ghost use Rattle.graph_search.specs.Waves.{AreWaves};

/// A law: edges have one list of components at most.
pub fn one_list_of_components()
    ensures { (edges some others : List (List ℕ)) → AreComponents edges some → AreComponents edges others → some ≡ others }
{}

/// A law: components have one list of waves at most.
pub fn one_list_of_waves()
    ensures { (edges components some others : List (List ℕ)) → AreWaves edges components some → AreWaves edges components others → some ≡ others }
{}
