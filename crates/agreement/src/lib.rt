#![tactic(auto)]

ghost use Rattle.agreement.specs.Agreement.{AllWaysAgree};

// After every lawful history the survey's way of reckoning a standing line under the signature, line
// by line, and the long count's, state by state of its plan, come to the same table.
pub fn ways_agree()
    ensures { AllWaysAgree }
{}
