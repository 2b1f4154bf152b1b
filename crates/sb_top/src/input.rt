//! The whole of a source.

ghost use Rattle.std.specs.Prelude.{IfOk, IsErrOf};
ghost use Rattle.sb_outside.specs.Causes.{Rose};
ghost use Rattle.sb_top.specs.Ends.{IsRead};

use sb_outside::{Failed, Source};
use sb_script::LIMIT;
use std::alloc::Global;

/// Why a source wasn't read whole.
#[derive(Clone, Copy, Debug, PartialEq, Eq)]
pub enum Unread {
    Fault,
    OutOfMemory,
}

const PIECE: usize = 1024;

/// Reads a source to its end, or to one byte more than a script has.
pub fn read_all<S: Source>(alloc: Global, source: &mut S) -> Result<Vec<u8>, Unread>
    ensures read { IfOk result (λ v. IsRead (S.left source.old) (S.left source.new) v.items) }
    ensures fault { IsErrOf result Unread.Fault → Rose (S.faults source.old) (S.faults source.new) }
{
    let mut bytes = Vec::new(alloc);
    'reads: while bytes.len() <= LIMIT {
        let mut piece = [0u8; PIECE];
        let room = (LIMIT + 1 - bytes.len()).min(PIECE);
        let into = &mut piece[..room];
        match source.read(into) {
            Err(Failed) => return Err(Unread::Fault),
            Ok(0) => return Ok(bytes),
            Ok(count) => {
                if bytes.extend_from_slice(&into[..count]).is_err() {
                    return Err(Unread::OutOfMemory);
                }
            }
        }
    }
    Ok(bytes)
}
