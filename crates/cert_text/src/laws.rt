ghost use Rattle.cert_text.specs.Reading.{OneReading, WrittenAreRead};

/// No bytes have two lists of certificates, or two first bad lines. This law costs nothing.
pub fn one_reading()
    ensures { OneReading }
{}

/// Readable certificates, written as their text, are read as they were. This law costs nothing.
pub fn written_are_read()
    ensures { WrittenAreRead }
{}
