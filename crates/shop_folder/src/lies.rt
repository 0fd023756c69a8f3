use std::fs;
use std::rt::Files;

/// What lies under a path (our own).
#[derive(Clone, Copy, PartialEq, Eq)]
pub enum Lies {
    File,
    Folder,
    /// Nothing, or something else, as a link is.
    Nothing,
}

impl Lies {
    /// What the system says that lies under a path. No contract says more: others may make or
    /// remove it at any time.
    pub fn at<R: Files>(rt: &R, path: &str) -> Lies {
        match fs::symlink_metadata(rt, path) {
            Ok(there) if there.is_file() => Lies::File,
            Ok(there) if there.is_dir() => Lies::Folder,
            _ => Lies::Nothing,
        }
    }
}
