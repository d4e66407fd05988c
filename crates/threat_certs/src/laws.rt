//! Laws of accepted certificates, as contracts of functions that do nothing.
ghost use Rattle.threat_certs.specs.Laws.{AcceptedThreatsHaveNoInput, AcceptedThreatsAreNotTaken, OneQuantity};
ghost use Rattle.threat_certs.specs.WorkedCertificates.{WorkedCertificates};

use compliance::threats_are_taken_where_met;

/// Where a certificate is accepted for some literals, no input of the region meets them all.
pub fn accepted_threats_have_no_input()
    ensures { AcceptedThreatsHaveNoInput }
{}

/// Where a certificate is accepted for the literals of a threat, no input of its region takes it.
pub fn accepted_threats_are_not_taken()
    ensures { AcceptedThreatsAreNotTaken }
{
    threats_are_taken_where_met();
}

/// Some certificates that are worked out by hand are accepted, and some are not: among them a sum that comes to 0, a
/// literal on the side that it does not bound, and a split of a literal that is no `/=`.
pub fn worked_certificates()
    ensures { WorkedCertificates }
{}

/// An item has one quantity at most, so what a certificate sums up is determined by it.
pub fn one_quantity()
    ensures { OneQuantity }
{}
