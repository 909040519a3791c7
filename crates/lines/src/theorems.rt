// Computes nothing: called for its promise, that a line says at most one command.
ghost use Rattle.lines.specs.Grammar.{OneReading};

pub fn one_reading()
    ensures { OneReading }
{}
