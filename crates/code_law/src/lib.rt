//! The laws of spelling for expressions and modules: the definitions stand in `specs/`; the code here is the laws, as the
//! contracts of functions that do nothing.
#![tactic(auto)]

ghost use Rattle.code_law.specs.Law.{SameSpellingSameExpression, SameFrontSameExpression, SameFrontSameBlock, SameFrontSameStatement, SameSpellingSameModule};
ghost use Rattle.code_law.specs.Reads.{ReadsEachModule, ReadsOnlyModules};
ghost use Rattle.code_law.specs.Within.{ReadsEachWithin, ReadsOnlyWithin};

/// Two expressions of the grammar that begin at one place and have one spelling are equal, their numbers too; and so are two
/// that stand in front of one list of tokens, where neither is followed by a token that can go on it.
pub fn one_expression()
    ensures alone { SameSpellingSameExpression }
    ensures in_front { SameFrontSameExpression }
{}

/// Two blocks of a function that begin at one place, and stand in front of one list of tokens, are equal, whatever follows.
pub fn one_block()
    ensures { SameFrontSameBlock }
{}

/// Two statements of a function that begin at one place, and stand in front of one list of tokens, are equal, where neither is
/// followed by `else`.
pub fn one_statement()
    ensures { SameFrontSameStatement }
{}

/// Two modules of the grammar with one spelling are equal, their numbers too.
pub fn one_module()
    ensures { SameSpellingSameModule }
{}

/// Reading a list of tokens answers a module exactly where they are the spelling of one, and it is that one; else it tells the
/// place of the fault: the tokens before it begin the spelling of some module, and with the next one they begin none, or they
/// end there and are no module.
pub fn reads_modules()
    ensures each { ReadsEachModule }
    ensures only { ReadsOnlyModules }
{}

/// Reading within the limit of nesting answers a module exactly where the tokens are the spelling of one and nest within the
/// limit, and it is that one; else it tells the place of the fault: the tokens before it begin the spelling of some module and
/// nest within the limit, and with the next one they don't, or they end there and are no module.
pub fn reads_within()
    ensures each { ReadsEachWithin }
    ensures only { ReadsOnlyWithin }
{}
