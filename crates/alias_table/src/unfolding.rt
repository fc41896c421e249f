//! What rows unfold names to.
ghost use Rattle.std.specs.Prelude.{◌≡◌, List};
ghost use Rattle.alias_table.specs.Aliases.{Key, Row};
ghost use Rattle.alias_table.specs.Unfolding.{UnfoldsTo};
ghost use Rattle.type_values.specs.declared.types.FlowType.{FlowType};

/// A law: rows unfold each name to one type, and to no other.
pub fn unfolds_to_one_type()
    ensures some { (rows : List Row) (key : Key) → (t : FlowType) × UnfoldsTo rows key t }
    ensures one { (rows : List Row) (key : Key) (t u : FlowType) → UnfoldsTo rows key t → UnfoldsTo rows key u → t ≡ u }
{}
