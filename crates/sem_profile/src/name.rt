//! Names of methods, formats, fields and parameters.

ghost use Rattle.std.specs.Prelude.{◌≡◌, IfOk, IsTrue};
ghost use Rattle.sem_profile.specs.Words.{is_name as is_word, as_name};

use std::alloc::{AllocError, Global};
use std::marker::Model;
use std::str::from_utf8;
use std::sync::Arc;
use text_source::names::is_name;

/// A name, which shares its text with its copies: a letter, then letters, digits and underscores, all of ASCII (RFC 4997).
/// Contracts see its octets.
#[derive(Drop)]
pub struct Name {
    text: Arc<String>,
}

impl Model for Name {
    ghost use Rattle.std.specs.Prelude.{List, ℕ, string_bytes, IsTrue};
    ghost use Rattle.sem_profile.specs.Words.{is_name};

    ghost Value = { List ℕ };

    ghost view = { λ n. string_bytes n.text.value };

    ghost invariant = { λ n. IsTrue (is_name (string_bytes n.text.value)) };
}

impl Name {
    /// The name with this text, or None where the text is no name.
    pub fn new(alloc: Global, text: &str) -> Result<Option<Name>, AllocError>
        ensures { IfOk result (λ n. n ≡ as_name text.now) }
    {
        if is_name(text.as_bytes()) {
            Ok(Some(Name::of_text(alloc, text)?))
        } else {
            Ok(None)
        }
    }

    /// The name of these octets, which are one.
    pub fn of_octets(alloc: Global, octets: &[u8]) -> Result<Name, AllocError>
        requires { IsTrue (is_word octets.now) }
        ensures { IfOk result (λ n. n ≡ octets.now) }
    {
        match from_utf8(octets) {
            Ok(text) => Name::of_text(alloc, text),
            Err(_) => unreachable!(),
        }
    }

    fn of_text(alloc: Global, text: &str) -> Result<Name, AllocError>
        requires { IsTrue (is_word text.now) }
        ensures { IfOk result (λ n. n ≡ text.now) }
    {
        Ok(Name {
            text: Arc::new(alloc, String::from_str(alloc, text)?)?,
        })
    }

    /// The same name, whose text is shared. It takes no memory: it fails only where the count of those that share the text
    /// is full.
    pub fn share(&self) -> Result<Name, AllocError>
        ensures { IfOk result (λ n. n ≡ self.now) }
    {
        Ok(Name {
            text: self.text.clone()?,
        })
    }

    /// The text of the name.
    pub fn as_str(&self) -> &str
        ensures { result.now ≡ self.now }
    {
        self.text.as_str()
    }

    /// A law of names: each is a letter, then letters, digits and underscores.
    pub fn keeps(&self)
        ensures { IsTrue (is_word self.now) }
    {
        let _ = &self.text;
    }
}
