//! Certificates of refuted threats.
ghost use Rattle.std.specs.Prelude.{◌≡◌, ◌↔◌, All, length, map, IfOk, IfSome, MatchOption};
ghost use Rattle.il_core.specs.Places.{AreCheckedPlaces};
ghost use Rattle.il_core.specs.Certificate.{certificate_of};
ghost use Rattle.sym_simplify.specs.Literal.{literal_form_of};
ghost use Rattle.sym_simplify.specs.Easy.{IsKept};
ghost use Rattle.sym_simplify.specs.Places.{HasLiteralPlacesBelow};
ghost use Rattle.path_inputs.specs.Least.{IsPlainlyRefuted};
ghost use Rattle.compliance.specs.declared.threat.Verdict.TheVariants.{Refuted};
ghost use Rattle.cert_rules.specs.Acceptance.{IsAccepted};

use crate::refuting::refutation;
use compliance::{Threat, Verdict};
use il_core::{Cert, NoMemory, Place};
use std::alloc::Global;

/// A certificate that no input meets the literals of a threat, or `None` exactly where its verdict is not `Refuted`. The
/// places are those of the threat's procedure; its literals are over these places and have the form that `norm_literal`
/// gives, their coefficients and bounds inside ±2^100; and its verdict is `Refuted` exactly where its literals are plainly
/// refuted. `NoMemory` comes only where memory runs out.
///
/// Each share stands once, and a sum has at most one share more than there are places; splits nest at most nine deep.
pub fn make_cert(alloc: Global, places: &[Place], threat: &Threat) -> Result<Option<Cert>, NoMemory>
    requires places { AreCheckedPlaces places.now }
    requires below { All (λ l. HasLiteralPlacesBelow (length places.now) (literal_form_of l)) threat.now.literals }
    requires kept { All (λ l. IsKept (literal_form_of l)) threat.now.literals }
    requires verdict { (threat.now.verdict ≡ Refuted) ↔ IsPlainlyRefuted places.now threat.now.region (map literal_form_of threat.now.literals) }
    ensures none { IfOk result (λ o. MatchOption o (threat.now.verdict ≡ Refuted → ⊥) (λ c. threat.now.verdict ≡ Refuted)) }
    ensures accepted { IfOk result (λ o. IfSome o (λ c. IsAccepted places.now threat.now.region (map literal_form_of threat.now.literals) (certificate_of c))) }
{
    match threat.verdict {
        Verdict::Refuted => {
            let cert = refutation(alloc, places, threat.region, threat.literals.as_slice())?;
            Ok(Some(cert))
        }
        Verdict::Shown(_) | Verdict::Open(_) => Ok(None),
    }
}
