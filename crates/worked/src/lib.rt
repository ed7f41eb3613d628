// Worked cases of the whole unit, shown from the definitions.
#![tactic(auto)]

ghost use Rattle.worked.specs.Worked.{WorkedCases};

// Six texts at fault, five histories judged, and what the unit prints for a text with its log.
pub fn worked_cases()
    ensures shown { WorkedCases }
{}
