//! An object, and a part of it that is named or indexed.
ghost use Rattle.std.specs.Prelude.{◌≡◌, IfOk};
ghost use Rattle.check_world.specs.View.{world_view};
ghost use Rattle.typing.specs.Members.{at_part, at_object, named_part};

use crate::step::Step;
use check_values::Code;
use check_world::World;
use flow_values::{NoMemory, Text};
use type_terms::{brief, show_string};
use type_values::FlowType;

/// What names a part: a key, a key that was taken from a string, or the type of an index.
#[derive(Clone, Copy)]
pub enum Details<'t> {
    Key(&'t Text),
    Quoted(&'t Text),
    Index(&'t FlowType),
}

/// An object at the tokens from one number up to another, its type, and the part at others, with the
/// details that name it.
#[derive(Clone, Copy)]
pub struct Part<'t> {
    pub object_first: usize,
    pub object_end: usize,
    pub object_type: &'t FlowType,
    pub first: usize,
    pub end: usize,
    pub details: Details<'t>,
}

impl<'t> Part<'t> {
    ghost use Rattle.member_steps.specs.View.{step_view, part_view, details_view};

    /// The details that name it.
    ///
    /// # Errors
    ///
    /// `NoMemory` where memory is refused.
    pub fn details(&self, world: &World<'_>) -> Result<Text, NoMemory>
        ensures { IfOk result (λ text. text ≡ details_view self.now.details) }
    {
        match self.details {
            Details::Key(key) => key.share(),
            Details::Quoted(key) => show_string(world.alloc, key.as_bytes()),
            Details::Index(ty) => brief(world.alloc, ty),
        }
    }

    /// The same part, named by a key that is taken from a string.
    pub fn quoted(&self, key: &'t Text) -> Part<'t>
        ensures { part_view result ≡ named_part (part_view self.now) key.now }
    {
        let mut part = *self;
        part.details = Details::Quoted(key);
        part
    }

    /// A fault at the part.
    ///
    /// # Errors
    ///
    /// `NoMemory` where memory is refused.
    pub fn fails(&self, world: &World<'_>, code: Code) -> Result<Step, NoMemory>
        ensures { IfOk result (λ step. step_view step ≡ at_part (world_view world.now) (part_view self.now) code) }
    {
        let details = self.details(world)?;
        Step::fails(
            world.alloc,
            world.fault(self.first, self.end, code, details),
        )
    }

    /// The object may be null, void or anything.
    ///
    /// # Errors
    ///
    /// `NoMemory` where memory is refused.
    pub fn object_fails(&self, world: &World<'_>) -> Result<Step, NoMemory>
        ensures { IfOk result (λ step. step_view step ≡ at_object (world_view world.now) (part_view self.now)) }
    {
        let details = brief(world.alloc, self.object_type)?;
        let fault = world.fault(
            self.object_first,
            self.object_end,
            Code::IncompatibleUse,
            details,
        );
        Step::fails(world.alloc, fault)
    }
}
