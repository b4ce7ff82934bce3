// What a record says of an event.

// A site was called, an inner step was made, or a value was published.
#[derive(Clone, Copy, PartialEq, Eq, Debug)]
pub enum Kind {
    Called,
    Inner,
    Out,
}
