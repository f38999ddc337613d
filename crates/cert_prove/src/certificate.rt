//! The certificate of the prover's order.

ghost use Rattle.std.specs.Prelude.{◌≡◌, IfOk, IfErr, List};
ghost use Rattle.sem_profile.specs.declared.profile.Method.{Method};
ghost use Rattle.sem_profile.specs.declared.profile.MethodSizes.{MethodSizes};
ghost use Rattle.sem_profile.specs.Resolved.{Resolved};
ghost use Rattle.cert_prove.specs.OrderedFormats.{IsOrdered};
ghost use Rattle.cert_prove.specs.Proved.{IsProved, IsUnproved};

use crate::entries::all_entries;
use crate::unproved::Unproved;
use cert_text::{TEXT_LIMIT, is_short, print};
use cert_types::{Certificate, Version};
use sem_profile::Profile;
use std::alloc::Global;

/// Makes a certificate of the profile, of that version: for each method that has formats the tree of the order, for each format its two plans of the order.
///
/// Refused is the first of these that isn't there, in the order of the text, in each method its tree first; `Limit` also where the certificate's text
/// would be longer than a text may be. After `NoPlan` and `NoTree` no certificate of that version is valid for the profile.
pub fn prove(alloc: Global, profile: &Profile, version: Version) -> Result<Certificate, Unproved>
    ensures proved { IfOk result (IsProved version profile.now) }
    ensures unproved { IfErr result (IsUnproved version profile.now) }
{
    profile.keeps();
    match all_entries(alloc, version, profile.methods(), profile.sizes()) {
        Ok(entries) => printed(alloc, Certificate::of(version, entries)),
        Err(unproved) => Err(unproved),
    }
}

/// The certificate, where its text is no longer than a text may be.
fn printed(alloc: Global, certificate: Certificate) -> Result<Certificate, Unproved>
    ensures proved { (p : Resolved) → IsOrdered p.methods p.sizes certificate → IfOk result (IsProved certificate.version p) }
    ensures unproved { (p : Resolved) → IsOrdered p.methods p.sizes certificate → IfErr result (IsUnproved certificate.version p) }
{
    if is_short(alloc, &certificate)? {
        return Ok(certificate);
    }
    let text = print(alloc, &certificate)?;
    if text.len() > TEXT_LIMIT {
        return Err(Unproved::Limit);
    }
    Ok(certificate)
}
