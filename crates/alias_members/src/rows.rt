//! Rows as functions.
ghost use Rattle.std.specs.Prelude.{◌≡◌, ◌∷◌, [], List};
ghost use Rattle.alias_table.specs.declared.table.AliasTable.{AliasTable};
ghost use Rattle.alias_table.specs.Aliases.{Row};
ghost use Rattle.alias_table.specs.Members.{AreMembers};
ghost use Rattle.alias_table.specs.Table.{unfolded};
ghost use Rattle.alias_table.specs.Unfolding.{Unfolds};
ghost use Rattle.alias_members.specs.MembersIn.{members_in};
ghost use Rattle.alias_members.specs.Rows.{unfolded_by, members_by};
ghost use Rattle.type_values.specs.declared.types.FlowType.{FlowType};

/// A law: rows unfold each name to `unfolded_by`, by which `members_by` are a type's members. A table
/// that unfolds names as the rows do, as one that is built from them does, gives the same members.
pub fn rows_unfold()
    ensures unfolds { (rows : List Row) → Unfolds rows (unfolded_by rows) }
    ensures members { (rows : List Row) (t : FlowType) → AreMembers (unfolded_by rows) (t ∷ []) (members_by rows t) }
    ensures table { (rows : List Row) (table : AliasTable) → Unfolds rows (unfolded table) → (t : FlowType) → members_in table t ≡ members_by rows t }
{}
