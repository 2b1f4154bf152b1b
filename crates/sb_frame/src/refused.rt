//! Why bytes are no frame.

use thiserror::Error;

/// Why bytes were not decoded.
#[derive(Clone, Copy, Debug, PartialEq, Eq, Error)]
pub enum FrameRefused {
    /// The first field that can't be read begins here; where all can be read, the first byte left
    /// over stands here.
    #[error("no frame: byte {at}")]
    BadFrame { at: u64 },
    #[error("out of memory")]
    OutOfMemory,
}
