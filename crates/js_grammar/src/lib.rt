//! The grammar: its trees, their spelling, the places of their tokens, and the laws of both. All of it stands in `specs/`;
//! the code here is the laws, as the contracts of functions that do nothing.
#![tactic(auto)]

ghost use Rattle.js_grammar.specs.Law.{SameSpellingSameType, SameFrontSameType, EndsBehindItsTokens, ExpressionsEndBehindTheirTokens, StatementsEndBehindTheirTokens, ItemsEndBehindTheirTokens, ModulesEndBehindTheirTokens, EndsWhereTheRestBegins, FindsOneType, FaultsAtOnePlace, FindsOrFaults};

/// Two types of the grammar that begin at one place and have one spelling are equal, their numbers too; and so are two that
/// stand in front of one list of tokens, where neither is followed by a token that can go on it.
pub fn one_type()
    ensures alone { SameSpellingSameType }
    ensures in_front { SameFrontSameType }
{}

/// A node of the grammar ends as many places behind its first token as its spelling has tokens; so a type that is read begins
/// where reading began, and ends where the rest begins.
pub fn ends_behind_its_tokens()
    ensures types { EndsBehindItsTokens }
    ensures expressions { ExpressionsEndBehindTheirTokens }
    ensures statements { StatementsEndBehindTheirTokens }
    ensures items { ItemsEndBehindTheirTokens }
    ensures modules { ModulesEndBehindTheirTokens }
    ensures as_read { EndsWhereTheRestBegins }
{}

/// Reading a type from the front of a list of tokens has one answer.
pub fn one_answer()
    ensures types { FindsOneType }
    ensures faults { FaultsAtOnePlace }
    ensures either { FindsOrFaults }
{}
