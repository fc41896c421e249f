// What a token is behind an expression.
ghost use Rattle.std.specs.Prelude.{◌≡◌};
ghost use Rattle.js_token.specs.declared.token.TokenKind.TheVariants.{Punct as a_mark};
ghost use Rattle.js_grammar.specs.Code.{rank as rank_of, operand_rank as operand_rank_of, level_of as level_of_operator};
ghost use Rattle.code_law.specs.Ladder.{turn, joint_level};
ghost use Rattle.code_tree.specs.Flat.{level_view, operator_view};
ghost use Rattle.code_words.specs.Words.{behind_view, joint_view};

use code_tree::{Level, Operator};
use js_token::{Punct, TokenKind};

/// What stands between two operands of a chain.
#[derive(Clone, Copy, Debug, PartialEq, Eq)]
pub enum Joint {
    Applies(Operator),
    /// `as` before a type.
    Casts,
}

/// What a token is behind an expression.
#[derive(Clone, Copy, Debug, PartialEq, Eq)]
pub enum Behind {
    /// It joins a further operand.
    Joins(Joint),
    /// It asks for a branch.
    Asks,
    /// It goes on an expression that it follows at once.
    Sticks,
    /// It ends the expression.
    Ends,
}

/// What a token is behind an expression.
pub fn follows(token: &TokenKind) -> Behind
    ensures { behind_view result ≡ turn token.now }
{
    match token {
        TokenKind::Punct(mark) => mark_behind(*mark),
        TokenKind::Name(word) => {
            if word.as_bytes() == b"as".as_slice() {
                Behind::Joins(Joint::Casts)
            } else {
                Behind::Ends
            }
        }
        TokenKind::Number(_) | TokenKind::Str(_) => Behind::Ends,
    }
}

/// What a mark is behind an expression.
fn mark_behind(mark: Punct) -> Behind
    ensures { behind_view result ≡ turn (a_mark mark) }
{
    let operator = match mark {
        Punct::Question => return Behind::Asks,
        Punct::Dot | Punct::OpenParen | Punct::OpenBracket | Punct::Arrow | Punct::Bar => {
            return Behind::Sticks;
        }
        Punct::QuestionQuestion => Operator::Nullish,
        Punct::OrOr => Operator::Or,
        Punct::AndAnd => Operator::And,
        Punct::StrictEqual => Operator::StrictEqual,
        Punct::StrictNotEqual => Operator::StrictNotEqual,
        Punct::LooseEqual => Operator::LooseEqual,
        Punct::LooseNotEqual => Operator::LooseNotEqual,
        Punct::LessThan => Operator::Less,
        Punct::GreaterThan => Operator::Greater,
        Punct::LessOrEqual => Operator::LessOrEqual,
        Punct::GreaterOrEqual => Operator::GreaterOrEqual,
        Punct::Plus => Operator::Add,
        Punct::Minus => Operator::Subtract,
        Punct::Star => Operator::Multiply,
        Punct::Slash => Operator::Divide,
        Punct::Percent => Operator::Remainder,
        _ => return Behind::Ends,
    };
    Behind::Joins(Joint::Applies(operator))
}

/// The level of the chain that it joins.
pub fn level_of(joint: Joint) -> Level
    ensures { level_view result ≡ joint_level (joint_view joint) }
{
    match joint {
        Joint::Casts => Level::Relation,
        Joint::Applies(operator) => operator_level(operator),
    }
}

/// The level of an operator.
fn operator_level(operator: Operator) -> Level
    ensures { level_view result ≡ level_of_operator (operator_view operator) }
{
    match operator {
        Operator::Nullish => Level::Nullish,
        Operator::Or => Level::Or,
        Operator::And => Level::And,
        Operator::StrictEqual
        | Operator::StrictNotEqual
        | Operator::LooseEqual
        | Operator::LooseNotEqual => Level::Equality,
        Operator::Less | Operator::Greater | Operator::LessOrEqual | Operator::GreaterOrEqual => {
            Level::Relation
        }
        Operator::Add | Operator::Subtract => Level::Sum,
        Operator::Multiply | Operator::Divide | Operator::Remainder => Level::Product,
    }
}

/// How tight a level binds: 1 to 7.
pub fn rank(level: Level) -> u8
    ensures { result ≡ rank_of (level_view level) }
{
    match level {
        Level::Nullish => 1,
        Level::Or => 2,
        Level::And => 3,
        Level::Equality => 4,
        Level::Relation => 5,
        Level::Sum => 6,
        Level::Product => 7,
    }
}

/// The least rank of what stands in a chain of a level.
pub fn operand_rank(level: Level) -> u8
    ensures { result ≡ operand_rank_of (level_view level) }
{
    match level {
        Level::Nullish | Level::And => 4,
        Level::Or => 3,
        Level::Equality => 5,
        Level::Relation => 6,
        Level::Sum => 7,
        Level::Product => 8,
    }
}
