// The laws of expressions and their transitions. Each function stands here for its contract, which is the law.
ghost use Rattle.orc.specs.Laws.{SubstitutionCommutesWithSimplification, SimplificationIsIdempotent, SimplificationNeverLengthens, SimplificationFreesNoVariable, SimplificationKeepsPendingCalls, IdentitiesKeepExecutions, SimplificationKeepsExecutions, LapsingKeepsExecutions, LapsingEndsWhatLapses, TimePassesOnlyWhileCallsCanStand, LeavesDetermineSteps, StepsKeepSoundness, SimplificationAndLapsingKeepSoundness, TicketsAreUnseen};

// A value may be put in before simplification or after it.
pub fn substitution_commutes_with_simplification()
    ensures { SubstitutionCommutesWithSimplification }
{}

// What is simplified has nothing left to simplify.
pub fn simplification_is_idempotent()
    ensures { SimplificationIsIdempotent }
{}

// Simplification makes no form longer.
pub fn simplification_never_lengthens()
    ensures { SimplificationNeverLengthens }
{}

// A variable that is free after simplification was free before.
pub fn simplification_frees_no_variable()
    ensures { SimplificationFreesNoVariable }
{}

// Simplification leaves every pending call that has begun.
pub fn simplification_keeps_pending_calls()
    ensures { SimplificationKeepsPendingCalls }
{}

// Each of the four identities of simplification keeps the executions.
pub fn identities_keep_executions()
    ensures { IdentitiesKeepExecutions }
{}

// Simplification keeps the executions.
pub fn simplification_keeps_executions()
    ensures { SimplificationKeepsExecutions }
{}

// Lapsing keeps the executions from its tick on.
pub fn lapsing_keeps_executions()
    ensures { LapsingKeepsExecutions }
{}

// Lapsing ends the pending calls that lapse, and no other.
pub fn lapsing_ends_what_lapses()
    ensures { LapsingEndsWhatLapses }
{}

// Time passes only as far as each pending call can stand unanswered.
pub fn time_passes_only_while_calls_can_stand()
    ensures { TimePassesOnlyWhileCallsCanStand }
{}

// By its leaf a transition is determined, and each leaf that stands can move.
pub fn leaves_determine_steps()
    ensures { LeavesDetermineSteps }
{}

// A step keeps what makes the next one determined, and loses and doubles no pending call.
pub fn steps_keep_soundness()
    ensures { StepsKeepSoundness }
{}

// Simplification and lapsing keep it too.
pub fn simplification_and_lapsing_keep_soundness()
    ensures { SimplificationAndLapsingKeepSoundness }
{}

// A step can be made with any ticket, and what comes after it is the same.
pub fn tickets_are_unseen()
    ensures { TicketsAreUnseen }
{}
