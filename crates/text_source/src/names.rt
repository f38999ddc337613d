//! Names: what methods, fields and parameters are called.

ghost use Rattle.std.specs.Prelude.{◌≡◌};
ghost use Rattle.text_source.specs.Names as spec;

/// Whether octets are a name: a letter, then letters, digits and underscores, all of ASCII (RFC 4997).
pub fn is_name(octets: &[u8]) -> bool
    ensures { result ≡ spec.is_name octets.now }
{
    let [first, rest @ ..] = octets else {
        return false;
    };
    first.is_ascii_alphabetic() && rest.iter().all(|b| is_name_octet(*b))
}

/// Whether an octet is a letter, a digit or an underscore.
fn is_name_octet(octet: u8) -> bool
    ensures { result ≡ spec.is_name_octet octet }
{
    octet.is_ascii_alphanumeric() || octet == b'_'
}
