//! The own names of a block.
#![tactic(auto, unfolding(code_tree::specs::View::statement_view, code_tree::specs::View::statement_form_view, code_tree::specs::View::declaration_view, code_tree::specs::View::function_view))]

ghost use Rattle.std.specs.Prelude.{◌≡◌, ◌++◌, ◌∷◌, [], ◌||◌, not, List, ℕ, OnOk, IfOk};
ghost use Rattle.std.specs.Ordering.{nat_cmp};
ghost use Rattle.std.specs.Cmp.Lexicographic.{slice_cmp};
ghost use Rattle.std.specs.BTreeSet.{contains};
ghost use Rattle.check_values.specs.Rows.{is_among};
ghost use Rattle.typing.specs.Changes.{declared_in, name_list, outside, is_outside};
ghost use Rattle.code_tree.specs.View.{statement_view, statements_view};
ghost use Rattle.code_changes.specs.Declaring.{declared_by_statement};
ghost use Rattle.code_changes.specs.View.{change_view, changes_view};
ghost use Rattle.code_plans.specs.View.{Owns};

use crate::distinct::copy_of;
use code_changes::Change;
use code_tree::{Statement, StatementForm};
use flow_values::{List, NoMemory, Text};
use std::alloc::Global;
use std::collections::BTreeSet;

// Adds a name.
#[tactic(auto, using(crate::proofs::Owning::name_added))]
fn add_name(name: &Text, own: &mut BTreeSet<Text>) -> Result<(), NoMemory>
    ensures { OnOk result ((q : List ℕ) → contains (slice_cmp nat_cmp) own.new q ≡ (contains (slice_cmp nat_cmp) own.old q || is_among (name.now ∷ []) q)) }
{
    own.insert(name.share()?)?;
    Ok(())
}

// Adds a name, if there is one.
#[tactic(auto, using(crate::proofs::Owning::none_added))]
fn add_option(name: &Option<Text>, own: &mut BTreeSet<Text>) -> Result<(), NoMemory>
    ensures { OnOk result ((q : List ℕ) → contains (slice_cmp nat_cmp) own.new q ≡ (contains (slice_cmp nat_cmp) own.old q || is_among (name_list name.now) q)) }
{
    match name {
        Some(name) => add_name(name, own),
        None => Ok(()),
    }
}

// Adds the name that a statement declares, if it declares one.
#[tactic(auto, using(crate::proofs::Owning::none_added, code_changes::proofs::Lists::declares), unfolding(code_tree::specs::View::statement_view, code_tree::specs::View::statement_form_view, code_tree::specs::View::declaration_view, code_tree::specs::View::function_view))]
fn add_declared(statement: &Statement, own: &mut BTreeSet<Text>) -> Result<(), NoMemory>
    ensures { OnOk result ((q : List ℕ) → contains (slice_cmp nat_cmp) own.new q ≡ (contains (slice_cmp nat_cmp) own.old q || is_among (declared_by_statement (statement_view statement.now)) q)) }
{
    match &statement.form {
        StatementForm::Declaration(declaration) => add_name(&declaration.name, own),
        StatementForm::Function(function) => add_option(&function.name, own),
        StatementForm::Simple(_)
        | StatementForm::If(_)
        | StatementForm::While(_)
        | StatementForm::Block(_) => Ok(()),
    }
}

/// The names that the statements of a block declare.
///
/// # Errors
///
/// `NoMemory` where memory is refused.
pub(crate) fn names_of_block(
    alloc: Global,
    statements: &[Statement],
) -> Result<BTreeSet<Text>, NoMemory>
    ensures { IfOk result (λ own. Owns own (declared_in (statements_view statements.now))) }
{
    let mut own = BTreeSet::new(alloc);
    for i in 0..statements.len() {
        add_declared(&statements[i], &mut own)?;
    }
    Ok(own)
}

// Whether a change is one of an own name.
fn is_own(own: &BTreeSet<Text>, change: &Change) -> bool
    ensures { (names : List (List ℕ)) → Owns own.now names → result ≡ not (is_outside names (change_view change.now)) }
{
    match change {
        Change::SetsVariable { inner: _, name } => own.contains(name),
        Change::SetsProperty(_) | Change::MaySetAll => false,
    }
}

// Puts a copy of a change behind others, unless it is one of an own name.
fn add_if_outside(
    own: &BTreeSet<Text>,
    change: &Change,
    out: &mut List<Change>,
) -> Result<(), NoMemory>
    ensures { (names : List (List ℕ)) → Owns own.now names → OnOk result (changes_view out.new ≡ changes_view out.old ++ outside names (change_view change.now ∷ [])) }
{
    if is_own(own, change) {
        return Ok(());
    }
    out.push(copy_of(change)?)?;
    Ok(())
}

/// Puts copies of a block's changes behind others, without those of its own names.
///
/// # Errors
///
/// `NoMemory` where memory is refused. Some of the copies may be there then.
pub(crate) fn add_outside(
    own: &BTreeSet<Text>,
    changes: &[Change],
    out: &mut List<Change>,
) -> Result<(), NoMemory>
    ensures { (names : List (List ℕ)) → Owns own.now names → OnOk result (changes_view out.new ≡ changes_view out.old ++ outside names (changes_view changes.now)) }
{
    for i in 0..changes.len() {
        add_if_outside(own, &changes[i], out)?;
    }
    Ok(())
}
