// How a run moves on. Each function stands here for its contract, which is the theorem.
ghost use Rattle.orc.specs.Meaning.{Meaning, Lawful};
ghost use Rattle.runs.specs.Moving.{NotLoadedStays};
ghost use Rattle.runs.specs.Facts.{FactsSayWhatIsKept};
ghost use Rattle.runs.specs.Faithful.{CallsHaveOneHistory, EveryStepCanBeMade, PassableTimeCanBeWaited, StatesKeepTheirBounds, KeptStatesGoOn, ForAllFiles};

// A list of calls has exactly one history.
pub fn calls_have_one_history()
    ensures { ForAllFiles CallsHaveOneHistory }
{}

// Each transition can be made by the call that its leaf names, or that call meets a limit.
pub fn every_step_can_be_made()
    ensures { ForAllFiles EveryStepCanBeMade }
{}

// Time that can pass can be waited, or meets the clock's end.
pub fn passable_time_can_be_waited()
    ensures { ForAllFiles PassableTimeCanBeWaited }
{}

// A run with nothing loaded answers Not loaded to every call, and stays.
pub fn not_loaded_stays()
    ensures { (m : Meaning) → NotLoadedStays m }
{}

// What a state keeps holds when a run begins, and every outcome keeps it.
pub fn states_keep_their_bounds()
    ensures { (m : Meaning) → Lawful m → StatesKeepTheirBounds m }
{}

// What a state keeps by itself is enough to go on, whether or not a run leads to it.
pub fn kept_states_go_on()
    ensures { (m : Meaning) → Lawful m → KeptStatesGoOn m }
{}

// The facts that may stand in ghost fields say what a state keeps by itself.
pub fn facts_say_what_is_kept()
    ensures { FactsSayWhatIsKept }
{}
