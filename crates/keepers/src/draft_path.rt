use std::io::{self, ErrorKind};
use std::str::from_utf8;

/// How long the path of a draft may be. The system takes none that is longer.
const LONGEST: usize = 4_096;

/// What a draft's name has behind the file's.
const END: &str = ".new";

/// The path of a draft. It is made without memory, so that a save neither fails for want of any nor
/// leaves the draft.
#[derive(Drop)]
pub(crate) struct DraftPath {
    bytes: [u8; LONGEST],
    length: usize,
}

impl DraftPath {
    /// The path of the draft of the file of a path. Refuses one that would be longer than the
    /// system takes.
    pub(crate) fn beside(path: &str) -> io::Result<DraftPath> {
        if path.len() > LONGEST - END.len() {
            return Err(ErrorKind::InvalidFilename.into());
        }
        let mut bytes = [0u8; LONGEST];
        let length = path.len() + END.len();
        bytes[..path.len()].copy_from_slice(path.as_bytes());
        bytes[path.len()..length].copy_from_slice(END.as_bytes());
        Ok(DraftPath { bytes, length })
    }

    /// It as a text.
    pub(crate) fn as_str(&self) -> &str {
        match self.bytes.get(..self.length) {
            Some(bytes) => from_utf8(bytes).unwrap_or(""),
            None => "",
        }
    }
}
