// That a printout can be read in one way only.
#![tactic(auto)]

ghost use Rattle.readable.specs.Readable.{OneReading};

// No two lists of lines have the same text.
pub fn printouts_have_one_reading()
    ensures { OneReading }
{}
