//! Numbers of tokens, and the words of declarations.
ghost use Rattle.std.specs.Prelude.{◌≡◌, suc, IfOk};
ghost use Rattle.code_tree.specs.Flat.{binder_view};
ghost use Rattle.typing.specs.Names as typing;

use code_tree::Binder;
use flow_values::NoMemory;

/// The number of the token behind another one.
///
/// # Errors
///
/// `NoMemory` where that is 2^64, which no source has.
pub fn next(token: usize) -> Result<usize, NoMemory>
    ensures { IfOk result (λ n. n ≡ suc token) }
{
    match token.checked_add(1) {
        Some(next) => Ok(next),
        None => Err(NoMemory),
    }
}

/// Whether a declaration's word is `const`.
pub fn is_const(binder: Binder) -> bool
    ensures { result ≡ typing.is_const (binder_view binder) }
{
    match binder {
        Binder::Const => true,
        Binder::Let => false,
    }
}
