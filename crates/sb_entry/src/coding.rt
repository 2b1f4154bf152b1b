//! Entries as bytes, and bytes as entries.

ghost use Rattle.std.specs.Prelude.{◌≡◌, ◌-◌, length, IfOk, Ok};
ghost use Rattle.sb_log.specs.declared.entries.Entry.{Entry};
ghost use Rattle.sb_entry.specs.Decodes.{Decodes};
ghost use Rattle.sb_entry.specs.Fields.{EntryFits};
ghost use Rattle.sb_model.specs.Reading.{decode_entry};
ghost use Rattle.sb_model.specs.Spelling.{entry_bytes};
ghost use Rattle.sb_entry.specs.Values.{IsEntry};

use crate::entry_reading::read_entry;
use crate::entry_writing::put_entry;
use crate::refused::EntryRefused;
use crate::unread::Unread;
use sb_log::Entry;
use std::alloc::{AllocError, Global};

/// The one spelling of the entry.
pub fn encode(alloc: Global, entry: &Entry) -> Result<Vec<u8>, AllocError>
    requires { EntryFits entry.now }
    ensures { IfOk result (λ bytes. bytes.items ≡ entry_bytes entry.now) }
{
    let mut out = Vec::new(alloc);
    put_entry(&mut out, entry)?;
    Ok(out)
}

/// The refusal of the field that so many of the bytes are left from.
fn bad_entry(bytes: &[u8], left: usize) -> EntryRefused
    ensures { result ≡ EntryRefused.BadEntry (length bytes.now - left) }
{
    EntryRefused::BadEntry {
        at: bytes.len().saturating_sub(left) as u64,
    }
}

#[tactic(auto, unfolding(sb_fields::specs::Reading::whole))]
fn all_of(alloc: Global, bytes: &[u8]) -> Result<Entry, EntryRefused>
    ensures { Decodes result (decode_entry bytes.now) }
{
    match read_entry(alloc, bytes) {
        Ok((entry, rest)) => {
            if rest.is_empty() {
                Ok(entry)
            } else {
                Err(bad_entry(bytes, rest.len()))
            }
        }
        Err(Unread::Field { left }) => Err(bad_entry(bytes, left)),
        Err(Unread::OutOfMemory) => Err(EntryRefused::OutOfMemory),
    }
}

/// The entry that the bytes spell.
pub fn decode(alloc: Global, bytes: &[u8]) -> Result<Entry, EntryRefused>
    // What is decoded is spelled so.
    ensures spelled { IfOk result (λ entry. IsEntry entry × (bytes.now ≡ entry_bytes entry)) }
    // What is spelled so is decoded, unless memory runs out.
    ensures only { (entry : Entry) → IsEntry entry → bytes.now ≡ entry_bytes entry → Decodes result (Ok entry) }
    // Which place a refusal names.
    ensures exact { Decodes result (decode_entry bytes.now) }
{
    all_of(alloc, bytes)
}
