//! Why `check` accepts nothing.

use cert_rules::CheckFault;
use cert_types::Certificate;
use sem_profile::Profile;

/// Why nothing was accepted.
#[derive(Clone, Copy)]
pub enum CheckError {
    /// The certificate is not valid.
    Fault(CheckFault),
    OutOfMemory,
}

/// A refusal, with the profile and the certificate as they were given.
#[derive(Drop)]
pub struct RefusedCertificate {
    pub error: CheckError,
    pub profile: Profile,
    pub certificate: Certificate,
}
