//! The tests that a comparison makes of a place, once its sides are known.
ghost use Rattle.std.specs.Prelude.{◌≡◌, Some, true, false, IfOk};
ghost use Rattle.std.specs.Option.{option_map};
ghost use Rattle.flow_facts.specs.declared.test.Test as test;
ghost use Rattle.typing.specs.Tests.{tests_kind, null_comparison, void_comparison, comparison_with, with_undefined};
ghost use Rattle.code_tree.specs.Flat.{operator_view};

use code_tree::Operator;
use flow_facts::{Lit, Place, Test};
use flow_values::{NoMemory, Text};

/// A place, or `typeof` and a place.
#[derive(Drop)]
pub(crate) enum Tested {
    Place(Place),
    Kind(Place),
}

/// What a place is compared with.
#[derive(Drop)]
pub(crate) enum Against {
    Null,
    Void,
    Lit(Lit),
}

/// How an operator of equality compares: strictly or loosely, and whether it is true where the sides
/// differ.
#[derive(Clone, Copy, Debug)]
pub(crate) struct Equality {
    pub strict: bool,
    pub negated: bool,
}

/// Where two sides are equal the first test holds of the place, where they differ the second one; and
/// whether the place is compared with a literal.
#[derive(Debug, Drop)]
pub struct Comparison {
    pub place: Place,
    pub equal: Test,
    pub differ: Test,
    pub is_literal: bool,
    /// Whether the chain is true where the sides differ.
    pub negated: bool,
}

impl Equality {
    ghost use Rattle.place_tests.specs.View.{equality_of};

    /// How an operator compares, if it is one of equality.
    pub(crate) fn of(operator: Operator) -> Option<Equality>
        ensures { result ≡ equality_of (operator_view operator) }
    {
        match operator {
            Operator::StrictEqual => Some(Equality {
                strict: true,
                negated: false,
            }),
            Operator::StrictNotEqual => Some(Equality {
                strict: true,
                negated: true,
            }),
            Operator::LooseEqual => Some(Equality {
                strict: false,
                negated: false,
            }),
            Operator::LooseNotEqual => Some(Equality {
                strict: false,
                negated: true,
            }),
            Operator::Nullish
            | Operator::Or
            | Operator::And
            | Operator::Less
            | Operator::Greater
            | Operator::LessOrEqual
            | Operator::GreaterOrEqual
            | Operator::Add
            | Operator::Subtract
            | Operator::Multiply
            | Operator::Divide
            | Operator::Remainder => None,
        }
    }
}

// The number of the `undefined` of the prelude, the first constant.
const UNDEFINED: u32 = 1;

impl Against {
    ghost use Rattle.place_tests.specs.View.{against_view};

    /// The `undefined` of the prelude, by the number of the variable that a name means. A module may bind
    /// the name otherwise.
    pub(crate) fn undefined(number: Option<u32>) -> Option<Against>
        ensures { option_map against_view result ≡ with_undefined number }
    {
        let number = number?;
        if number == UNDEFINED {
            return Some(Against::Void);
        }
        None
    }
}

fn share_lit(lit: &Lit) -> Result<Lit, NoMemory>
    ensures { IfOk result (λ copy. copy ≡ lit.now) }
{
    match lit {
        Lit::Str(text) => Ok(Lit::Str(text.share()?)),
        Lit::Num(text) => Ok(Lit::Num(text.share()?)),
        Lit::Bool(value) => Ok(Lit::Bool(*value)),
    }
}

impl Comparison {
    ghost use Rattle.place_tests.specs.View.{tested_view, against_view, comparison_view, place_compared, with_negated};

    // A comparison with no literal.
    fn plain(place: Place, equal: Test, differ: Test, negated: bool) -> Comparison
        ensures { comparison_view result ≡ (record { place = place; equal = equal; differ = differ; is_literal = false }, negated) }
    {
        Comparison {
            place,
            equal,
            differ,
            is_literal: false,
            negated,
        }
    }

    // A comparison of a place with a literal.
    fn with_lit(place: Place, lit: Lit, negated: bool) -> Result<Comparison, NoMemory>
        ensures { IfOk result (λ c. comparison_view c ≡ (record { place = place; equal = test.IsLit lit; differ = test.NotLit lit; is_literal = true }, negated)) }
    {
        let other = share_lit(&lit)?;
        Ok(Comparison {
            place,
            equal: Test::IsLit(lit),
            differ: Test::NotLit(other),
            is_literal: true,
            negated,
        })
    }

    // A comparison of the kind of a place with a string.
    fn with_kind(place: Place, kind: Text, negated: bool) -> Result<Comparison, NoMemory>
        ensures { IfOk result (λ c. comparison_view c ≡ (record { place = place; equal = test.Typeof kind; differ = test.NotTypeof kind; is_literal = true }, negated)) }
    {
        let other = kind.share()?;
        Ok(Comparison {
            place,
            equal: Test::Typeof(kind),
            differ: Test::NotTypeof(other),
            is_literal: true,
            negated,
        })
    }

    // A comparison of a place with null, strictly or loosely.
    fn with_null(place: Place, equality: Equality) -> Comparison
        ensures { comparison_view result ≡ (null_comparison equality.strict place, equality.negated) }
    {
        let Equality { strict, negated } = equality;
        if strict {
            return Self::plain(place, Test::IsNull, Test::NotNull, negated);
        }
        Self::plain(place, Test::Nullish, Test::NotNullish, negated)
    }

    // A comparison of a place with void, strictly or loosely.
    fn with_void(place: Place, equality: Equality) -> Comparison
        ensures { comparison_view result ≡ (void_comparison equality.strict place, equality.negated) }
    {
        let Equality { strict, negated } = equality;
        if strict {
            return Self::plain(place, Test::IsVoid, Test::NotVoid, negated);
        }
        Self::plain(place, Test::Nullish, Test::NotNullish, negated)
    }

    // A comparison of a place.
    fn of_place(place: Place, against: Against, equality: Equality) -> Result<Comparison, NoMemory>
        ensures { IfOk result (λ c. comparison_view c ≡ (place_compared equality.strict place (against_view against), equality.negated)) }
    {
        match against {
            Against::Null => Ok(Self::with_null(place, equality)),
            Against::Void => Ok(Self::with_void(place, equality)),
            Against::Lit(lit) => Self::with_lit(place, lit, equality.negated),
        }
    }

    // A comparison of the kind of a place, which tests it where it is one with a string.
    fn of_kind(
        place: Place,
        against: Against,
        equality: Equality,
    ) -> Result<Option<Comparison>, NoMemory>
        ensures { IfOk result (λ c. option_map comparison_view c ≡ with_negated equality.negated (comparison_with equality.strict (Some (tests_kind place)) (Some (against_view against)))) }
    {
        match against {
            Against::Lit(Lit::Str(kind)) => {
                Ok(Some(Self::with_kind(place, kind, equality.negated)?))
            }
            Against::Lit(Lit::Num(_) | Lit::Bool(_)) | Against::Null | Against::Void => Ok(None),
        }
    }

    /// A place on one side, and what the other side compares it with.
    ///
    /// # Errors
    ///
    /// `NoMemory` where memory is refused.
    pub(crate) fn with(
        tested: Option<Tested>,
        against: Option<Against>,
        equality: Equality,
    ) -> Result<Option<Comparison>, NoMemory>
        ensures { IfOk result (λ c. option_map comparison_view c ≡ with_negated equality.negated (comparison_with equality.strict (option_map tested_view tested) (option_map against_view against))) }
    {
        let Some(tested) = tested else {
            return Ok(None);
        };
        let Some(against) = against else {
            return Ok(None);
        };
        match tested {
            Tested::Place(place) => Ok(Some(Self::of_place(place, against, equality)?)),
            Tested::Kind(place) => Self::of_kind(place, against, equality),
        }
    }
}
