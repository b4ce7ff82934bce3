// Eight files over the local sites, each judged and run: this is what comes of them, and nothing else.
ghost use Rattle.worked.specs.Cases.{EightWorkedCases};

pub fn worked_cases()
    ensures { EightWorkedCases }
{}
