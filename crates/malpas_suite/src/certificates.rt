//! The certificates of the threats of a procedure: those that were read for it, and those that are made.
ghost use Rattle.std.specs.Prelude.{◌≡◌, ◌↔◌, ◌++◌, [], ◌∷◌, true, map, IfOk, List};
ghost use Rattle.il_core.specs.LineGraph.{IsIn};
ghost use Rattle.il_core.specs.Certificate.{certificate_of};
ghost use Rattle.il_core.specs.declared.certificate.NamedCert.{NamedCert};
ghost use Rattle.sym_simplify.specs.Literal.{literal_form_of};
ghost use Rattle.cert_rules.specs.Acceptance.{IsAccepted};
ghost use Rattle.threat_certs.specs.Settled.{IsSound, AreSound};
ghost use Rattle.report.specs.Certified.{certs_for, refuted_from, AreCertRows, AreMade, IsCertified};
ghost use Rattle.report.specs.declared.report.CertRow.{CertRow};

use compliance::Threat;
use il_core::{CheckedProc, List, NamedCert, NoMemory};
use report::CertRow;
use std::alloc::Global;
use threat_certs::{holds, make_cert};

/// Whether a certificate is accepted for the threat of its number, which is there.
fn is_certified(
    alloc: Global,
    proc: &CheckedProc,
    threats: &[Threat],
    cert: &NamedCert,
) -> Result<bool, NoMemory>
    requires { AreSound proc.now.places threats.now }
    ensures { IfOk result (λ b. (b ≡ true) ↔ IsCertified proc.now.places threats.now cert.now) }
{
    let Some(at) = cert.threat.checked_sub(1) else {
        return Ok(false);
    };
    match threats.get(at) {
        Some(threat) => holds(alloc, proc.places().as_slice(), threat, &cert.body),
        None => Ok(false),
    }
}

/// Adds the row of a certificate, where it names the procedure.
fn add_row(
    alloc: Global,
    proc: &CheckedProc,
    threats: &[Threat],
    cert: &NamedCert,
    rows: &mut List<CertRow>,
) -> Result<(), NoMemory>
    requires { AreSound proc.now.places threats.now }
    ensures { IfOk result (λ _. (more : List CertRow) × AreCertRows proc.now.places threats.now (certs_for proc.now.name (cert.now ∷ [])) more × (rows.new ≡ rows.old ++ more)) }
{
    if cert.procedure != proc.name() {
        return Ok(());
    }
    let holds = is_certified(alloc, proc, threats, cert)?;
    rows.push(CertRow {
        threat: cert.threat,
        holds,
    })
}

/// A row for each certificate that names the procedure, in order. The cost is that of the certificates that name it, and
/// linear in the number of all. The only error is `NoMemory`.
pub(crate) fn rows_of(
    alloc: Global,
    proc: &CheckedProc,
    threats: &[Threat],
    certs: &[NamedCert],
) -> Result<List<CertRow>, NoMemory>
    requires { AreSound proc.now.places threats.now }
    ensures { IfOk result (AreCertRows proc.now.places threats.now (certs_for proc.now.name certs.now)) }
{
    let mut rows = List::new(alloc);
    for cert in certs {
        add_row(alloc, proc, threats, cert, &mut rows)?;
    }
    Ok(rows)
}

/// Adds a certificate for the threat with this number, where it is refuted.
fn add_made(
    alloc: Global,
    proc: &CheckedProc,
    number: usize,
    threat: &Threat,
    made: &mut List<NamedCert>,
) -> Result<(), NoMemory>
    requires { IsSound proc.now.places threat.now }
    ensures { IfOk result (λ _. (more : List NamedCert) × (made.new ≡ made.old ++ more) × (map (λ c. c.threat) more ≡ refuted_from number (threat.now ∷ []))
        × ((c : NamedCert) → IsIn more c → (c.procedure ≡ proc.now.name) × (c.threat ≡ number) × IsAccepted proc.now.places threat.now.region (map literal_form_of threat.now.literals) (certificate_of c.body))) }
{
    match make_cert(alloc, proc.places().as_slice(), threat)? {
        Some(body) => made.push(NamedCert {
            procedure: proc.name(),
            threat: number,
            body,
        }),
        None => Ok(()),
    }
}

/// A certificate for each refuted threat of the procedure, in order. The cost is that of making each. The only error is
/// `NoMemory`.
pub(crate) fn made_of(
    alloc: Global,
    proc: &CheckedProc,
    threats: &[Threat],
) -> Result<List<NamedCert>, NoMemory>
    requires { AreSound proc.now.places threats.now }
    ensures { IfOk result (AreMade proc.now.name proc.now.places threats.now) }
{
    let mut made = List::new(alloc);
    for (at, threat) in threats.iter().enumerate() {
        add_made(alloc, proc, at + 1, threat, &mut made)?;
    }
    Ok(made)
}
