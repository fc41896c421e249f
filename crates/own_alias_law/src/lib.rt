//! The law that in a full check a module's own path has just the aliases of its tree. The definition of what a check sees asks the tree
//! first, and then the signature at the path, since a text that isn't saved has other aliases than the committed one; where both are of
//! one tree, the signature tells nothing more, and nothing else. The definitions stand in `specs/`; the code here is the law, as the
//! contract of a call that does nothing.
#![tactic(auto)]

ghost use Rattle.own_alias_law.specs.Own.{SignatureSaysTheSame, OwnAliasesAreTheTrees, SoByReach};

/// What the signature at a module's path says of an alias is what its tree says, and no other name there is an alias.
pub fn own_aliases()
    ensures same { SignatureSaysTheSame }
    ensures all { OwnAliasesAreTheTrees }
    ensures reached { SoByReach }
{}
