// What is proved of the two transitions. Each function promises one theorem.
ghost use Rattle.steps.specs.Laws.{MadeCallsAreTransitions, DueCallsCanBeMade, RepliesAreTransitions, RepliesCanBeMade};

// A due call that is made where it stands is a transition.
pub fn made_calls_are_transitions()
    ensures { MadeCallsAreTransitions }
{}

// Every due call of a form of at most 4,096 bytes can be made, and there is room for what comes of it.
pub fn due_calls_can_be_made()
    ensures { DueCallsCanBeMade }
{}

// A reply that is taken where its call stands is a transition.
pub fn replies_are_transitions()
    ensures { RepliesAreTransitions }
{}

// Every pending call of a form of at most 4,096 bytes can be answered, and there is room for what comes of it.
pub fn replies_can_be_made()
    ensures { RepliesCanBeMade }
{}
