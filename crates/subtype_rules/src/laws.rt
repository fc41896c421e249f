ghost use Rattle.std.specs.Prelude.{◌↔◌, IsTrue};
ghost use Rattle.type_values.specs.declared.types.FlowType.{FlowType};
ghost use Rattle.alias_table.specs.Table.{unfolded};
ghost use Rattle.subtyping.specs.Closed.{IsBelow};
ghost use Rattle.subtype_rules.specs.Answer.{below};

use alias_table::AliasTable;

/// A law: the function `below` is the relation: it is true exactly where some closed set has the
/// pair.
pub fn below_is_the_relation(table: &AliasTable)
    ensures { (a b : FlowType) → IsTrue (below table.now a b) ↔ IsBelow (unfolded table.now) a b }
{}
