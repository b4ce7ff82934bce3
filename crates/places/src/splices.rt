// Transitions made in the bytes of a form. Each function promises one theorem.
ghost use Rattle.places.specs.Splices.{DueCallsMoveInPlace, RepliesTakeEffectInPlace};

// A due call is made by replacing its bytes.
pub fn due_calls_move_in_place()
    ensures { DueCallsMoveInPlace }
{}

// A reply takes effect by replacing the bytes of the pending call or of the frame that takes it.
pub fn replies_take_effect_in_place()
    ensures { RepliesTakeEffectInPlace }
{}
