ghost use Rattle.std.specs.Prelude.{◌≡◌};
ghost use Rattle.js_lexer.specs.declared.fault.LexFault.TheVariants.{NoMemory};

use std::alloc::AllocError;

/// Why a source has no tokens.
#[derive(Clone, Copy, Debug, PartialEq, Eq)]
pub enum LexFault {
    /// The source has more bytes than a source may have: so many.
    SourceTooLong { len: u64 },
    /// The source is not UTF-8.
    NotUtf8,
    /// Pieces cover the source up to the byte `at`, and no piece begins there.
    BadToken { at: u32 },
    /// Memory was refused.
    NoMemory,
}

impl From<flow_values::NoMemory> for LexFault {
    ghost from_gives = { λ _ e. e ≡ NoMemory };

    fn from(_: flow_values::NoMemory) -> Self {
        LexFault::NoMemory
    }
}

impl From<AllocError> for LexFault {
    ghost from_gives = { λ _ e. e ≡ NoMemory };

    fn from(_: AllocError) -> Self {
        LexFault::NoMemory
    }
}
