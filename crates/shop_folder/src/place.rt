use std::fs;
use std::rt::Files;

/// Where controllers lie: one, or many (our own).
#[derive(Clone, Copy)]
pub enum Place<'a> {
    /// The controller that is kept in the file of this path.
    File(&'a str),
    /// Those that are kept in the files of the folder of this path, each under its file's name.
    Folder(&'a str),
}

impl<'a> Place<'a> {
    ghost use Rattle.std.specs.Prelude.{◌≡◌};
    ghost use Rattle.shop_folder.specs.Place.{path_of};

    /// What lies at a path: a folder where the system says that it leads to one, also through
    /// a link, and a file where it says another thing or nothing.
    pub fn at<R: Files>(rt: &R, path: &'a str) -> Place<'a>
        // Proved: What lies at a path tells that path.
        // By `Place::path`.
        ensures { path_of result ≡ path.now }
    {
        match fs::metadata(rt, path) {
            Ok(there) if there.is_dir() => Place::Folder(path),
            _ => Place::File(path),
        }
    }

    /// The path at which they lie.
    pub fn path(&self) -> &'a str
        ensures { result.now ≡ path_of self.now }
    {
        match self {
            Place::File(path) => path,
            Place::Folder(path) => path,
        }
    }
}
