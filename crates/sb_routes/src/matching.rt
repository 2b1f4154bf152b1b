//! Whether a part of a definition admits what is asked for.

ghost use Rattle.std.specs.Prelude.{◌≡◌, ◌||◌, is_none};
ghost use Rattle.std.specs.Option.{option_eq};
ghost use Rattle.sb_model.specs.Sides.{same_id};
ghost use Rattle.sb_model.specs.Matches.{admits, points};

use sb_log::{Handle, Name, Text};

/// A part that names nothing admits each name.
pub(crate) fn admits_name(own: &Option<Name>, name: &Name) -> bool
    ensures { result ≡ admits own.now name.now }
{
    match own {
        None => true,
        Some(named) => *named == *name,
    }
}

pub(crate) fn admits_text(own: &Option<Text>, name: &Name) -> bool
    ensures { result ≡ admits own.now name.now }
{
    match own {
        None => true,
        Some(text) => text.as_str() == name.as_str(),
    }
}

pub(crate) fn admits_instance(own: Option<Handle>, instance: Option<Handle>) -> bool
    ensures { result ≡ (is_none own || option_eq same_id own instance) }
{
    match own {
        None => true,
        Some(id) => match instance {
            None => false,
            Some(named) => id == named,
        },
    }
}

/// What naming this part adds to a rank.
pub(crate) fn points<T>(part: &Option<T>, n: u8) -> u8
    ensures { result ≡ points part.now n }
{
    match part {
        None => 0,
        Some(_) => n,
    }
}
