// The worked examples of the rules, as one joint fact.
#![tactic(auto)]

ghost use Rattle.examples.specs.Worked.{WorkedExamples};

// Every worked example comes out by the rules as it does on paper.
pub fn worked_examples_hold()
    ensures { WorkedExamples }
{}
