ghost use Rattle.std.specs.Prelude.{◌≡◌, ℕ, ◌≤◌, ◌<◌, ◌^◌, Bool, true, IfOk};
ghost use Rattle.payloads.specs.Entities.{parse_entity, deps_entity, signature_entity, errors_entity};
ghost use Rattle.payloads.specs.declared.payload.Payload as declared;
ghost use Rattle.payloads.specs.declared.payload.Payload.TheVariants as payload;
ghost use Rattle.result_parts.specs.Kinds.{is_parse, is_deps, is_sig, is_errs, parse_within, deps_within, signature_within, errors_within};

use check_values::{Deps, Errs, Sig};
use flow_values::{NoMemory, Shared};
use payloads::source_front::Parse;
use payloads::{Payload, deps_entity, errors_entity, parse_entity, signature_entity};

/// One of the four kinds of results that a module has.
pub trait Part: Drop {
    /// The entity of this result of the module of a row.
    ghost place: { ℕ → ℕ };

    /// The payload that has it.
    ghost put: { Self → declared.Payload };

    /// Whether a payload has one.
    ghost is_of: { declared.Payload → Bool };

    /// The entity of this result of the module of a row.
    fn entity(row: u32) -> u32
        requires { errors_entity row < 2 ^ 32 }
        ensures { result ≡ place row };

    /// The result that a payload has.
    ///
    /// # Errors
    ///
    /// `NoMemory` where memory is refused.
    fn read(held: &Payload) -> Result<Self, NoMemory>
        requires { is_of held.now ≡ true }
        ensures { IfOk result (λ part. held.now ≡ put part) };

    /// A payload that has this result.
    ///
    /// # Errors
    ///
    /// `NoMemory` where memory is refused.
    fn payload(&self) -> Result<Payload, NoMemory>
        ensures { IfOk result (λ made. made ≡ put self.now) };

    /// The errors are a module's last result.
    ghost within: { (row : ℕ) → place row ≤ errors_entity row };
}

impl Part for Shared<Parse> {
    ghost place = { parse_entity };

    ghost put = { λ part. payload.Parse part };

    ghost is_of = { is_parse };

    fn entity(row: u32) -> u32 {
        parse_entity(row)
    }

    fn read(held: &Payload) -> Result<Self, NoMemory> {
        match held {
            Payload::Parse(parse) => parse.share(),
            _ => unreachable!(),
        }
    }

    fn payload(&self) -> Result<Payload, NoMemory> {
        Ok(Payload::Parse(self.share()?))
    }

    ghost within = { parse_within };
}

impl Part for Shared<Deps> {
    ghost place = { deps_entity };

    ghost put = { λ part. payload.Deps part };

    ghost is_of = { is_deps };

    fn entity(row: u32) -> u32 {
        deps_entity(row)
    }

    fn read(held: &Payload) -> Result<Self, NoMemory> {
        match held {
            Payload::Deps(deps) => deps.share(),
            _ => unreachable!(),
        }
    }

    fn payload(&self) -> Result<Payload, NoMemory> {
        Ok(Payload::Deps(self.share()?))
    }

    ghost within = { deps_within };
}

impl Part for Shared<Sig> {
    ghost place = { signature_entity };

    ghost put = { λ part. payload.Sig part };

    ghost is_of = { is_sig };

    fn entity(row: u32) -> u32 {
        signature_entity(row)
    }

    fn read(held: &Payload) -> Result<Self, NoMemory> {
        match held {
            Payload::Sig(sig) => sig.share(),
            _ => unreachable!(),
        }
    }

    fn payload(&self) -> Result<Payload, NoMemory> {
        Ok(Payload::Sig(self.share()?))
    }

    ghost within = { signature_within };
}

impl Part for Shared<Errs> {
    ghost place = { errors_entity };

    ghost put = { λ part. payload.Errs part };

    ghost is_of = { is_errs };

    fn entity(row: u32) -> u32 {
        errors_entity(row)
    }

    fn read(held: &Payload) -> Result<Self, NoMemory> {
        match held {
            Payload::Errs(errs) => errs.share(),
            _ => unreachable!(),
        }
    }

    fn payload(&self) -> Result<Payload, NoMemory> {
        Ok(Payload::Errs(self.share()?))
    }

    ghost within = { errors_within };
}
