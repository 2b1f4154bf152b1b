//! Texts that name a service of the other instance, and numbers within their ranges.

ghost use Rattle.std.specs.Prelude.{◌≡◌, ◌≤◌, length, option_map, pos};
ghost use Rattle.std.specs.List.{list_any};
ghost use Rattle.sb_log.specs.Names.{character_count, is_control, is_name};
ghost use Rattle.sb_model.specs.Definitions.{bad_readers, bad_text};
ghost use Rattle.sb_model.specs.Replies.{in_range};
ghost use Rattle.sb_catalog.specs.Seen.{refusal_seen};

use crate::refused::Refused;
use sb_log::{Activation, Text};

fn count_characters(bytes: &[u8]) -> usize
    ensures characters { result ≡ character_count bytes.now }
    ensures few { result ≤ length bytes.now }
{
    bytes
        .iter()
        .filter(|byte| **byte < 0x80 || 0xc0 <= **byte)
        .count()
}

fn has_control(bytes: &[u8]) -> bool
    ensures { result ≡ list_any is_control bytes.now }
{
    bytes.iter().any(|byte| *byte < 0x20 || *byte == 0x7f)
}

fn is_name(bytes: &[u8]) -> bool
    ensures { result ≡ is_name bytes.now }
{
    let characters = count_characters(bytes);
    1 <= characters && characters <= 128 && !has_control(bytes)
}

/// A text that is no name is refused, with its characters.
pub(crate) fn bad_text(text: &Option<Text>) -> Option<Refused<'_>>
    ensures { option_map refusal_seen result ≡ bad_text text.now }
{
    let Some(text) = text else {
        return None;
    };
    let bytes = text.as_str().as_bytes();
    if is_name(bytes) {
        None
    } else {
        Some(Refused::BadNumber(count_characters(bytes) as i64))
    }
}

/// A number of readers outside 0 to 32,767 is refused.
pub(crate) fn bad_readers(activation: &Option<Activation>) -> Option<Refused<'_>>
    ensures { option_map refusal_seen result ≡ bad_readers activation.now }
{
    let Some(activation) = activation else {
        return None;
    };
    let readers = activation.readers;
    if 0 <= readers && readers <= 32767 {
        None
    } else {
        Some(Refused::BadNumber(readers))
    }
}

/// A level is one of 1 to 10.
pub(crate) fn is_level(level: i64) -> bool
    ensures { result ≡ in_range level 1 10 }
{
    1 <= level && level <= 10
}
