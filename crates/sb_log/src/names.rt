//! Names of definitions.

ghost use Rattle.std.specs.Prelude.{◌≡◌, ◌⊎◌, IfOk, IfErr, IsTrue, string_bytes};
ghost use Rattle.std.specs.List.{position};
ghost use Rattle.sb_log.specs.declared.names.NameRefused.TheVariants.{OutOfMemory};
ghost use Rattle.sb_log.specs.Names.{character_count, is_control, is_name, name_refusal};
ghost use Rattle.sb_log.specs.Texts.{same_bytes};

use std::alloc::{AllocError, Global};
use std::fmt;
use std::marker::Model;
use thiserror::Error;

/// The name of a definition: 1 to 128 characters, none of them a control
/// character. Names are compared byte by byte.
#[derive(Debug, Drop)]
pub struct Name {
    text: String,
}

impl Model for Name {
    ghost use Rattle.std.specs.Prelude.{List, ℕ, string_bytes};

    ghost Value = { List ℕ };

    ghost view = { λ n. string_bytes n.text };
}

/// Why a text is no name.
#[derive(Clone, Copy, Debug, PartialEq, Eq, Error)]
pub enum NameRefused {
    /// It has none, or more than 128.
    #[error("a name has 1 to 128 characters, and not {characters}")]
    Length { characters: usize },
    /// The byte of the text at which its first control character stands.
    #[error("a control character at byte {at}")]
    Control { at: usize },
    #[error("out of memory")]
    OutOfMemory,
}

impl Name {
    /// The name with this text.
    pub fn new(alloc: Global, text: &str) -> Result<Name, NameRefused>
        ensures named { IfOk result (λ name. name ≡ text.now) }
        ensures allowed { IfOk result (λ name. name_refusal text.now ≡ None) }
        ensures refused { IfErr result (λ why. (why ≡ OutOfMemory) ⊎ (name_refusal text.now ≡ Some why)) }
    {
        let characters = count_characters(text.as_bytes());
        if characters < 1 || characters > 128 {
            return Err(NameRefused::Length { characters });
        }
        if let Some(at) = first_control(text.as_bytes()) {
            return Err(NameRefused::Control { at });
        }
        match String::from_str(alloc, text) {
            Ok(text) => Ok(Name { text }),
            Err(_) => Err(NameRefused::OutOfMemory),
        }
    }

    /// The name that is this text, with no copy of it.
    pub fn from_string(text: String) -> Name
        requires { IsTrue (is_name (string_bytes text)) }
        ensures { result ≡ string_bytes text }
    {
        Name { text }
    }

    pub fn into_string(self) -> String
        ensures { string_bytes result ≡ self }
    {
        let Name { text } = self;
        text
    }

    pub fn as_str(&self) -> &str
        ensures { result.now ≡ self.now }
    {
        self.text.as_str()
    }
}

fn count_characters(bytes: &[u8]) -> usize
    ensures { result ≡ character_count bytes.now }
{
    bytes
        .iter()
        .filter(|byte| **byte < 0x80 || 0xc0 <= **byte)
        .count()
}

fn first_control(bytes: &[u8]) -> Option<usize>
    ensures { result ≡ position is_control bytes.now }
{
    bytes.iter().position(|byte| *byte < 0x20 || *byte == 0x7f)
}

impl Clone for Name {
    ghost is_clone = { λ name copy. copy ≡ name };

    fn clone(&self) -> Result<Name, AllocError> {
        let text = self.text.clone()?;
        Ok(Name { text })
    }
}

impl PartialEq for Name {
    ghost use Rattle.std.specs.Cmp;
    ghost use Rattle.std.specs.Cmp.Lexicographic.{nat_list_eq_equiv};

    ghost eq = { same_bytes };

    ghost laws = { Cmp.partial_equiv_from_equiv nat_list_eq_equiv };

    fn eq(&self, other: &Name) -> bool {
        self.text == other.text
    }
}

impl Eq for Name {
    ghost use Rattle.std.specs.Cmp.Lexicographic.{nat_list_eq_equiv};

    ghost laws = { nat_list_eq_equiv };
}

/// The name in brackets, each `]` within it doubled.
impl fmt::Display for Name {
    fn fmt<W: fmt::Write>(&self, f: &mut fmt::Formatter<W>) -> fmt::Result {
        f.write_str("[")?;
        for character in self.text.chars() {
            let again = if character == ']' { "]" } else { "" };
            write!(f, "{character}{again}")?;
        }
        f.write_str("]")
    }
}
