ghost use Rattle.std.specs.Prelude.{◌≡◌, ◌↔◌, IsTrue};

use crate::same::Same;
use check_values::{Deps, LocalSig, Sig};

/// Whether two modules say the same by themselves. It takes no memory, and time in proportion to
/// the smaller one.
pub fn same_local(a: &LocalSig, b: &LocalSig) -> bool
    ensures { IsTrue result ↔ (a.now ≡ b.now) }
{
    a.broken == b.broken
        && a.exports.same(&b.exports)
        && a.aliases.same(&b.aliases)
        && a.imports.same(&b.imports)
}

/// Whether two modules have the same specifiers in the same order, and find the same modules by
/// them. It takes no memory, and time in proportion to the smaller one.
pub fn same_deps(a: &Deps, b: &Deps) -> bool
    ensures { IsTrue result ↔ (a.now ≡ b.now) }
{
    a.rows.same(&b.rows)
}

/// Whether two modules say the same in the whole program. It takes no memory, and time in
/// proportion to the smaller one.
pub fn same_sig(a: &Sig, b: &Sig) -> bool
    ensures { IsTrue result ↔ (a.now ≡ b.now) }
{
    a.broken == b.broken && a.exports.same(&b.exports) && a.aliases.same(&b.aliases)
}
