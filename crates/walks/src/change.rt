// A value that is put in for a variable.
#[derive(Clone, Copy)]
pub(crate) struct Change {
    pub(crate) variable: u8,
    pub(crate) value: u16,
}
