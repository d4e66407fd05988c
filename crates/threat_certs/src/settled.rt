//! Laws of the threats that are listed for a procedure, as contracts of functions that do nothing.
ghost use Rattle.threat_certs.specs.Settled.{ListedThreatsAreSound, CertifiedThreatsMeanNoBadRun};

use compliance::unmet_lists_mean_no_bad_run;

/// Each threat that `threats` lists for a checked procedure is such as [`holds`](crate::holds) and
/// [`make_cert`](crate::make_cert) ask for.
pub fn listed_threats_are_sound()
    ensures { ListedThreatsAreSound }
{}

/// Where no region is past its size and each threat listed is refuted or has an accepted certificate, no run from the
/// precondition faults, fails an assertion or ends outside the postcondition, however long it is.
pub fn certified_threats_mean_no_bad_run()
    ensures { CertifiedThreatsMeanNoBadRun }
{
    unmet_lists_mean_no_bad_run();
}
