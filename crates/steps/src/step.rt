// What a transition makes of a form.
use events::act::Act;
use walks::buffer::Buffer;

// What the transition shows, and the whole form then, in the buffer that was lent for it.
#[derive(Clone, Copy)]
pub struct Step<'a> {
    pub act: Act,
    pub form: &'a Buffer,
}
