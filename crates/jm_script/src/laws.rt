//! What holds of every line.
ghost use Rattle.jm_script.specs.Spelling.{SpelledIsRead, ReadIsSpelled, OneReading};

/// One reading: what the words of a line spell is read so, nothing else is read, and they spell at most one statement.
pub fn one_reading()
    ensures read { SpelledIsRead }
    ensures spelled { ReadIsSpelled }
    ensures one { OneReading }
{}
