// Worked examples of what an expression can be seen to do, and of what it cannot: specs/Examples.antt tells each story. Each
// function promises one.
ghost use Rattle.orc.specs.Examples.{ATimerEndsTheWait, TheFirstReplyWins, EachReplySpawnsACopy, TheNearestBinderCounts, ADefinitionMayCallItself, AValueMayNeverArrive, NoReplyAfterPruning, NoTimeOverADueCall, NoSecondReply};

// Time-out: a timer's reply counts when the other call is silent.
pub fn a_timer_ends_the_wait()
    ensures { ATimerEndsTheWait }
{}

// The first reply counts, and the other call is withdrawn.
pub fn the_first_reply_wins()
    ensures { TheFirstReplyWins }
{}

// For each reply of the left part of a sequential a copy of its right part begins.
pub fn each_reply_spawns_a_copy()
    ensures { EachReplySpawnsACopy }
{}

// A variable that is bound twice has the value of the nearer binder.
pub fn the_nearest_binder_counts()
    ensures { TheNearestBinderCounts }
{}

// Recursion, any number of rounds.
pub fn a_definition_may_call_itself()
    ensures { ADefinitionMayCallItself }
{}

// A call that waits for a value is never made if none arrives, and time passes.
pub fn a_value_may_never_arrive()
    ensures { AValueMayNeverArrive }
{}

// What a pruning has withdrawn replies no more.
pub fn no_reply_after_pruning()
    ensures { NoReplyAfterPruning }
{}

// A due call is made before time passes.
pub fn no_time_over_a_due_call()
    ensures { NoTimeOverADueCall }
{}

// A call is answered once.
pub fn no_second_reply()
    ensures { NoSecondReply }
{}
