// Worked cases: single answers, shown of the rules by the definitions that the contracts cite, and not by running.
#![tactic(auto)]

ghost use Rattle.worked_cases.specs.Cases.{WorkedCases};

// The worked cases hold.
pub fn worked_cases_hold()
    ensures { WorkedCases }
{}
