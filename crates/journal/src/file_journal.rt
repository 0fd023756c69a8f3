use crate::journal::Journal;
use crate::words::system_words;
use std::alloc::{AllocError, Global};
use std::fs::{self, OpenFile, OpenOptions};
use std::io::{self, ErrorKind, Read, Seek, SeekFrom, Write};
use std::path::Path;
use std::rt::Files;

/// A journal in the file of a path, or none at all (our own). The file is opened anew for each
/// append, so that one that was renamed meanwhile is left, and another is made under the path.
#[derive(Drop)]
pub struct FileJournal<'a, R: Files> {
    rt: &'a R,
    path: Option<&'a str>,
    /// Why lines that were to be in it aren't, as of the last of them.
    missed: Option<io::Error>,
}

impl<'a, R: Files> FileJournal<'a, R> {
    ghost use Rattle.std.specs.Prelude.{◌≡◌, ◌&&◌, IfOk, is_some};

    /// The journal in the file of this path, if there is one.
    pub fn at(rt: &'a R, path: Option<&'a str>) -> FileJournal<'a, R> {
        FileJournal {
            rt,
            path,
            missed: None,
        }
    }

    /// Sees whether the file can be opened, and makes it where it isn't there. Refuses a file that
    /// begins as no journal does, as the one of a controller, to which a line would do harm.
    pub fn check(&self) -> io::Result<()> {
        match self.path {
            Some(path) => {
                let mut file = open_file(self.rt, path)?;
                let length = file.metadata()?.len();
                check_front(&mut file, length)
            }
            None => Ok(()),
        }
    }

    /// The note that lines aren't in it, if there are such. A line.
    pub fn note(&self, alloc: Global) -> Result<Option<String>, AllocError>
        ensures { IfOk result (λ note.
            is_some note ≡ (is_some self.now.path && is_some self.now.missed)) }
    {
        match (self.path, &self.missed) {
            (Some(path), Some(error)) => Ok(Some(missed_note(alloc, path, error)?)),
            _ => Ok(None),
        }
    }

    /// Appends lines to the file, if there is one.
    fn append_lines(&self, lines: &[u8]) -> io::Result<()> {
        match self.path {
            Some(path) => append_to(self.rt, path, lines),
            None => Ok(()),
        }
    }
}

/// The note that lines aren't in the journal of a path, for this. A line.
fn missed_note(alloc: Global, path: &str, error: &io::Error) -> Result<String, AllocError> {
    let words = system_words(alloc, error)?;
    format!(in alloc; "Not in the journal {path}: {words}\n")
}

/// Opens a file to append to it, and makes it where it isn't there. Refuses what is no file; of a
/// folder the system tells that.
fn open_file<R: Files>(rt: &R, path: &str) -> io::Result<R::File> {
    if let Ok(there) = fs::metadata(rt, path)
        && !there.is_file()
        && !there.is_dir()
    {
        return Err(ErrorKind::InvalidInput.into());
    }
    OpenOptions::new()
        .read(true)
        .append(true)
        .create(true)
        .open(rt, path)
}

/// How many bytes of a journal are looked at, to know one.
const FRONT: usize = 15;

/// Whether a line of a journal begins so, or the front of one that was cut off.
fn is_front(bytes: &[u8]) -> bool {
    begins(bytes, b"{\"By\":\"") || begins(bytes, b"{\"Controller\":\"")
}

/// Whether bytes begin with these, or these with them.
fn begins(bytes: &[u8], word: &[u8]) -> bool {
    bytes.starts_with(word) || word.starts_with(bytes)
}

/// Refuses a file of so many bytes that begins as no journal does.
fn check_front<F: Read + Seek>(file: &mut F, length: u64) -> io::Result<()> {
    let mut front = [0; FRONT];
    let count = usize::min(FRONT, usize::try_from(length).unwrap_or(FRONT));
    file.seek(SeekFrom::Start(0))?;
    file.read_exact(&mut front[..count])?;
    if is_front(&front[..count]) {
        return Ok(());
    }
    Err(io::Error::other("it is no journal"))
}

/// Whether the last line of a file of so many bytes has no end.
fn lacks_end<F: Read + Seek>(file: &mut F, length: u64) -> io::Result<bool> {
    if length == 0 {
        return Ok(false);
    }
    let mut last = [0; 1];
    file.seek(SeekFrom::End(-1))?;
    file.read_exact(&mut last)?;
    Ok(last[0] != b'\n')
}

/// Appends lines to the file of a path, and waits until they are on the disk, with the name of a
/// file that may be new.
fn append_to<R: Files>(rt: &R, path: &str, lines: &[u8]) -> io::Result<()> {
    let mut file = open_file(rt, path)?;
    let length = file.metadata()?.len();
    if lacks_end(&mut file, length)? {
        file.write_all(b"\n")?;
    }
    file.write_all(lines)?;
    file.sync_data()?;
    if length == 0 {
        open_folder(rt, path)?.sync_all()?;
    }
    Ok(())
}

/// The folder of the file of this path.
fn open_folder<R: Files>(rt: &R, path: &str) -> io::Result<R::File> {
    match Path::new(path).parent() {
        Some(folder) if !folder.as_str().is_empty() => fs::open(rt, folder),
        _ => fs::open(rt, "."),
    }
}

impl<'a, R: Files> Journal for FileJournal<'a, R> {
    ghost use Rattle.std.specs.Prelude.{[], false, is_some};

    ghost is_honest = { λ _. false };

    ghost held = { λ _. [] };

    ghost is_missed = { λ journal. is_some journal.missed };

    fn is_wanted(&self) -> bool {
        self.path.is_some()
    }

    fn append(&mut self, lines: &[u8]) -> bool {
        match self.append_lines(lines) {
            Ok(()) => true,
            Err(error) => {
                self.missed = Some(error);
                false
            }
        }
    }

    fn miss(&mut self) {
        self.missed = Some(ErrorKind::OutOfMemory.into());
    }
}
