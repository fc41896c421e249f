// What a source says by itself is one thing.
ghost use Rattle.source_front.specs.Law.{OneParse};

/// What a source says by itself has one tree or one fault, one signature and one list of faults.
#[tactic(auto, using(crate::proofs::One::one_parse))]
pub fn one_parse()
    ensures { OneParse }
{
    js_lexer::one_answer();
    module_law::one_answer();
}
