//! A law of the certificates that a report has: they can be read.
#![tactic(auto)]

ghost use Rattle.certs_readable.specs.Laws.{MadeCertificatesAreRead};

/// The certificates that are made for a procedure, one for each refuted threat, are in their lines what
/// [`read_certs`](cert_text::read_certs) takes: put behind a text with that procedure they are read as they were made,
/// and by [`one_reading`](cert_text::one_reading) in no other way. Conditions: at most 64 places, and at most 16,384,000
/// threats, and literals of each. This law costs nothing.
pub fn made_certificates_are_read()
    ensures { MadeCertificatesAreRead }
{}
