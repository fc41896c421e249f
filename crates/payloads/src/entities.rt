ghost use Rattle.std.specs.Prelude.{◌≡◌, ◌<◌, ◌^◌};
ghost use Rattle.payloads.specs.Entities.{parse_entity, deps_entity, signature_entity, errors_entity};

/// The entity of what the source of the module of a row says by itself.
pub fn parse_entity(row: u32) -> u32
    requires { errors_entity row < 2 ^ 32 }
    ensures { result ≡ parse_entity row }
{
    4 * row + 1
}

/// The entity of the dependency list of the module of a row.
pub fn deps_entity(row: u32) -> u32
    requires { errors_entity row < 2 ^ 32 }
    ensures { result ≡ deps_entity row }
{
    4 * row + 2
}

/// The entity of the merged signature of the module of a row.
pub fn signature_entity(row: u32) -> u32
    requires { errors_entity row < 2 ^ 32 }
    ensures { result ≡ signature_entity row }
{
    4 * row + 3
}

/// The entity of the errors of the module of a row.
pub fn errors_entity(row: u32) -> u32
    requires { errors_entity row < 2 ^ 32 }
    ensures { result ≡ errors_entity row }
{
    4 * row + 4
}
