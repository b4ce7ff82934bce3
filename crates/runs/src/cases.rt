// Runs worked out by computation. Each function stands here for its contract.
ghost use Rattle.runs.specs.Cases.{HypothesesCanBeMet, WorkedCases, CasesAtTheEdge};

// There are meanings that keep their ranges and laws, and well-formed files.
pub fn hypotheses_can_be_met()
    ensures { HypothesesCanBeMet }
{}

// Small runs over the local sites: their calls, the only responses that these have, and what they leave.
pub fn worked_cases()
    ensures { WorkedCases }
{}

// Runs at the edges of a rule.
pub fn cases_at_the_edge()
    ensures { CasesAtTheEdge }
{}
