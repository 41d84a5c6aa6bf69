#![tactic(auto)]

ghost use Rattle.worked.specs.Worked.{WorkedExamples};

// The worked examples of the rules hold by the definitions.
pub fn worked_examples_stand()
    ensures { WorkedExamples }
{}
