//! Lines of many.
ghost use Rattle.std.specs.Prelude.{◌≡◌, ◌++◌, flat_map, OnOk};
ghost use Rattle.answer_print.specs.Lines.{located_line, path_lines, export_line, alias_line, signature_lines};

use crate::lines::{push_alias, push_export, push_located, push_path};
use asks::Located;
use check_values::{Export, Sig};
use flow_values::{NoMemory, Path, Text};
use std::alloc::Global;
use type_values::FlowType;

/// Appends the lines of errors.
pub(crate) fn push_faults(
    alloc: Global,
    out: &mut Vec<u8>,
    errors: &[Located],
) -> Result<(), NoMemory>
    ensures { OnOk result (out.new.items ≡ out.old.items ++ flat_map located_line errors.now) }
{
    for i in 0..errors.len() {
        push_located(alloc, out, &errors[i])?;
    }
    Ok(())
}

/// Appends the lines of modules.
pub(crate) fn push_paths(out: &mut Vec<u8>, paths: &[Path]) -> Result<(), NoMemory>
    ensures { OnOk result (out.new.items ≡ out.old.items ++ path_lines paths.now) }
{
    for i in 0..paths.len() {
        push_path(out, &paths[i])?;
    }
    Ok(())
}

fn push_exports(alloc: Global, out: &mut Vec<u8>, rows: &[(Text, Export)]) -> Result<(), NoMemory>
    ensures { OnOk result (out.new.items ≡ out.old.items ++ flat_map (λ row. export_line row.0 row.1) rows.now) }
{
    for i in 0..rows.len() {
        let row = &rows[i];
        push_export(alloc, out, &row.0, &row.1)?;
    }
    Ok(())
}

fn push_aliases(alloc: Global, out: &mut Vec<u8>, rows: &[(Text, FlowType)]) -> Result<(), NoMemory>
    ensures { OnOk result (out.new.items ≡ out.old.items ++ flat_map (λ row. alias_line row.0 row.1) rows.now) }
{
    for i in 0..rows.len() {
        let row = &rows[i];
        push_alias(alloc, out, &row.0, &row.1)?;
    }
    Ok(())
}

/// Appends the lines of what a module says to others.
#[tactic(auto, using(crate::proofs::Parts::two))]
pub(crate) fn push_signature(alloc: Global, out: &mut Vec<u8>, sig: &Sig) -> Result<(), NoMemory>
    ensures { OnOk result (out.new.items ≡ out.old.items ++ signature_lines sig.now) }
{
    push_exports(alloc, out, sig.exports.as_slice())?;
    push_aliases(alloc, out, sig.aliases.as_slice())
}
