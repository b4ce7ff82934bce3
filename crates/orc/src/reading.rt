// A theorem on the bytes of expressions.
ghost use Rattle.orc.specs.Reading.{UniqueReading};

// Two forms that begin the same bytes are one.
pub fn unique_reading()
    ensures { UniqueReading }
{}
