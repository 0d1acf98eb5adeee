//! The names of objects.

ghost use Rattle.std.specs.Prelude.{◌≡◌, IfOk, IfSome, IfNone, true, false};
ghost use Rattle.std.specs.List.{list_all};
ghost use Rattle.crq_sim.specs.Names.{is_name, name_byte};

use std::alloc::{AllocError, Global};
use std::marker;

/// The name of an object: 1 to 32 bytes, each of them a letter or digit of ASCII, `_`, `-` or `.`.
#[derive(Debug, Drop)]
pub struct Name {
    text: String,
}

impl marker::Model for Name {
    ghost use Rattle.std.specs.Prelude.{List, ℕ, ◌≡◌, true, string_bytes};

    ghost Value = { List ℕ };

    ghost use Rattle.crq_sim.specs.Names.{is_name};

    ghost view = { λ n. string_bytes n.text };

    ghost invariant = { λ n. is_name (string_bytes n.text) ≡ true };
}

/// Whether a byte may stand in a name.
fn is_name_byte(byte: u8) -> bool
    ensures { result ≡ name_byte byte }
{
    byte.is_ascii_alphanumeric() || byte == b'_' || byte == b'-' || byte == b'.'
}

/// Whether all bytes may stand in a name.
fn are_name_bytes(bytes: &[u8]) -> bool
    ensures { result ≡ list_all name_byte bytes.now }
{
    bytes.iter().all(|byte| is_name_byte(*byte))
}

impl Name {
    /// Whether the bytes are the spelling of a name.
    pub fn is_name(bytes: &[u8]) -> bool
        ensures { result ≡ is_name bytes.now }
    {
        0 < bytes.len() && bytes.len() <= 32 && are_name_bytes(bytes)
    }

    /// The name that a text spells.
    pub fn from_text(alloc: Global, text: &str) -> Result<Name, AllocError>
        requires { is_name text.now ≡ true }
        ensures { IfOk result (λ n. n ≡ text.now) }
    {
        Ok(Name {
            text: String::from_str(alloc, text)?,
        })
    }

    /// The text of the name.
    pub fn as_str(&self) -> &str
        ensures value { result.now ≡ self.now }
        ensures name { is_name result.now ≡ true }
    {
        self.text.as_str()
    }

    /// The same name in memory of its own.
    pub fn copied(&self, alloc: Global) -> Result<Name, AllocError>
        ensures { IfOk result (λ n. n ≡ self.now) }
    {
        Name::from_text(alloc, self.text.as_str())
    }
}
