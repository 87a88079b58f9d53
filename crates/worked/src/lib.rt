// The worked cases: what was worked by hand is what the definitions answer.
#![tactic(auto)]

ghost use Rattle.worked.specs.Cases.{CasesHold};

// Every worked case holds.
pub fn cases_hold()
    ensures { CasesHold }
{}
