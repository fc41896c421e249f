//! What the elements of an array literal are read against.
ghost use Rattle.std.specs.Prelude.{◌≡◌, Some, IfOk};
ghost use Rattle.std.specs.Option.{option_copied, option_map, option_to_list};
ghost use Rattle.type_values.specs.declared.types.FlowType.{out-FlowType};
ghost use Rattle.check_world.specs.View.{world_view};
ghost use Rattle.typing.specs.Objects.{list_of, list_of_length, elements_for, element_want};
ghost use Rattle.literal_reads.specs.View.{elements_view};

use check_world::World;
use flow_values::NoMemory;
use type_values::FlowType;

/// What the elements of an array literal are read against: one type, or one a place.
#[derive(Clone, Copy)]
pub enum Elements<'t> {
    Of(&'t FlowType),
    In(&'t [FlowType]),
}

impl<'t> Elements<'t> {
    /// The type that the k-th element is read against.
    pub fn want(&self, k: usize) -> Option<&'t FlowType>
        ensures { option_copied result ≡ element_want (Some (elements_view self.now)) k }
    {
        match self {
            Elements::Of(element) => Some(*element),
            Elements::In(all) => all.get(k),
        }
    }
}

// A member that is an array or a tuple.
fn list_of(member: &FlowType) -> Option<Elements<'_>>
    ensures { option_map elements_view result ≡ list_of (out-FlowType member.now) }
{
    match member {
        FlowType::Array(element) | FlowType::ReadArray(element) => {
            Some(Elements::Of(element.get()))
        }
        FlowType::Tuple(all) => Some(Elements::In(all.as_slice())),
        _ => None,
    }
}

// The list, where it takes so many elements.
fn of_length(count: usize, found: Option<Elements<'_>>) -> Option<Elements<'_>>
    ensures { option_map elements_view result ≡ list_of_length count (option_to_list (option_map elements_view found.entry)) }
{
    match found {
        Some(Elements::In(all)) => {
            if all.len() == count {
                Some(Elements::In(all))
            } else {
                None
            }
        }
        Some(Elements::Of(element)) => Some(Elements::Of(element)),
        None => None,
    }
}

/// The one array or tuple of a type, where a tuple has as many members as there are elements.
///
/// # Errors
///
/// `NoMemory` where memory is refused.
#[tactic(auto, using(crate::proofs::Lists::list_next, crate::proofs::Lists::list_not, crate::proofs::Lists::list_two, crate::proofs::Lists::list_all))]
pub fn elements_for<'t>(
    world: &'t World<'_>,
    count: usize,
    want: Option<&'t FlowType>,
) -> Result<Option<Elements<'t>>, NoMemory>
    ensures { IfOk result (λ found. option_map elements_view found ≡ elements_for (world_view world.now) count (option_copied want.entry)) }
{
    let Some(want) = want else {
        return Ok(None);
    };
    let all = world.members(want)?;
    let members = all.as_slice();
    let mut found = None;
    for i in 0..members.len() {
        let member = members[i];
        if let Some(list) = list_of(member) {
            if found.is_some() {
                return Ok(None);
            }
            found = Some(list);
        }
    }
    Ok(of_length(count, found))
}
