//! Inputs that come from a file.

ghost use Rattle.std.specs.Prelude.{◌≡◌, IfErr, codes, option_map};
ghost use Rattle.std.specs.Str.{bytes_eq};
ghost use Rattle.streams.specs.declared.refused.Refused.TheVariants.{ReadFailed};
ghost use Rattle.streams.specs.declared.fault.Fault.TheVariants.{Device};
ghost use Rattle.jdf_send.specs.InputFile as input_file;

use document_commands::CausedFault;
use std::alloc::Global;
use std::rt::Files;
use std::{fs, io};
use streams::{Fault, Refused};

/// Whether a path is `-`, which stands for standard input.
fn is_dash(path: &str) -> bool
    ensures { result ≡ bytes_eq path.now (codes "-") }
{
    path == "-"
}

/// The path of the file that is named, and not standard input.
pub fn file_of(path: Option<&str>) -> Option<&str>
    // Proved: A file is named where a path is there that isn't `-`; one that can't be opened is
    // refused as 55.
    // By `open_input`.
    ensures { option_map (λ p. p.now) result
        ≡ input_file.file_of (option_map (λ p. p.now) path.entry) }
{
    let path = path?;
    if is_dash(path) {
        return None;
    }
    Some(path)
}

/// The file of a path, open. A folder, which can't be read, isn't opened.
fn open_input_file<R: Files>(rt: &R, path: &str) -> io::Result<R::File> {
    if fs::metadata(rt, path)?.is_dir() {
        return Err(io::Error::other("it is a folder"));
    }
    fs::open(rt, path)
}

/// The file of a path, open. Refuses `ReadFailed` with what the system says of the path.
pub fn open_input<R: Files>(rt: &R, alloc: Global, path: &str) -> Result<R::File, CausedFault>
    ensures { IfErr result (λ caused. caused.fault ≡ Device ReadFailed) }
{
    match open_input_file(rt, path) {
        Ok(file) => Ok(file),
        Err(error) => {
            let fault = Fault::Device(Refused::ReadFailed);
            Err(CausedFault::of_error(alloc, fault, path, &error))
        }
    }
}
