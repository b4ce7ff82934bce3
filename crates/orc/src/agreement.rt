// Theorems on executions and timed traces. Each function promises one.
ghost use Rattle.orc.specs.Agreement.{ExecutionsAreTraces, TracesAreExecutions, BegunLaterIsRaised, BegunLaterIsOnlyRaised};

// Every execution is a timed trace, at some depth.
pub fn executions_are_traces()
    ensures { ExecutionsAreTraces }
{}

// Every timed trace, at any depth, is an execution.
pub fn traces_are_executions()
    ensures { TracesAreExecutions }
{}

// A timed trace begun at tick 0 is one begun at tick t, each event and the end t ticks later.
pub fn begun_later_is_raised()
    ensures { BegunLaterIsRaised }
{}

// Every timed trace begun at tick t comes so from one begun at tick 0.
pub fn begun_later_is_only_raised()
    ensures { BegunLaterIsOnlyRaised }
{}
