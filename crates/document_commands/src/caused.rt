//! Telling a refusal with what it comes from: a path or an address, and the system's words.

ghost use Rattle.std.specs.Prelude.{◌≡◌, IfOk, IfSome, string_bytes};
ghost use Rattle.document_commands.specs.Caused as causes;
ghost use Rattle.document_commands.specs.Caused.{IsCausedLine, TellsCaused};
ghost use Rattle.streams.specs.Fault.{fault_status};
ghost use Rattle.streams.specs.Streams.{traffic};

use crate::told::tell_text;
use journal::system_words;
use std::alloc::{AllocError, Global};
use std::fs;
use std::io::{self, Write};
use std::rt::Files;
use streams::{Counted, Fault, Refused, tell};

/// Why a call gave up, and what that comes from, where that is known.
#[derive(Drop)]
pub struct CausedFault {
    /// The fault.
    pub fault: Fault,
    /// What it comes from. Nothing is proved of it.
    pub cause: Option<String>,
}

impl CausedFault {
    ghost use Rattle.std.specs.Prelude.{◌≡◌};

    /// A fault of which no more is known.
    pub fn without_cause(fault: Fault) -> CausedFault
        // Proved: A fault that is told with its cause is that fault, and has its status.
        // By `CausedFault::at`, `CausedFault::of_error`, `CausedFault::at_path`; `give_up_caused`:
        // `errors`, `status`.
        ensures { result.fault ≡ fault }
    {
        CausedFault { fault, cause: None }
    }

    /// A fault that comes from what has this name, if there is memory to say so.
    pub fn at(alloc: Global, fault: Fault, name: &str) -> CausedFault
        ensures { result.fault ≡ fault }
    {
        CausedFault {
            fault,
            cause: String::from_str(alloc, name).ok(),
        }
    }

    /// A fault that comes from what has this name, for this error, if there is memory to say so.
    pub fn of_error(alloc: Global, fault: Fault, name: &str, error: &io::Error) -> CausedFault
        ensures { result.fault ≡ fault }
    {
        CausedFault {
            fault,
            cause: name_with_words(alloc, name, system_words(alloc, error)),
        }
    }

    /// A fault; where that is one of a file that the program keeps something in, with what the
    /// system says of this path behind it, and else with these words.
    pub fn at_path<R: Files>(
        rt: &R,
        alloc: Global,
        fault: Fault,
        path: &str,
        otherwise: &str,
    ) -> CausedFault
        ensures { result.fault ≡ fault }
    {
        let cause = match fault {
            Fault::Device(Refused::LoadFailed | Refused::SaveFailed) => {
                name_with_words(alloc, path, trouble_at(rt, alloc, path, otherwise))
            }
            _ => None,
        };
        CausedFault { fault, cause }
    }
}

impl From<Fault> for CausedFault {
    ghost use Rattle.std.specs.Prelude.{◌≡◌};

    ghost from_gives = { λ fault caused. caused.fault ≡ fault };

    fn from(fault: Fault) -> CausedFault {
        CausedFault::without_cause(fault)
    }
}

impl From<AllocError> for CausedFault {
    ghost use Rattle.std.specs.Prelude.{◌≡◌};
    ghost use Rattle.ticket_items.specs.declared.refusal.Refusal.TheVariants.{Memory};
    ghost use Rattle.streams.specs.declared.refused.Refused.TheVariants.{Core};
    ghost use Rattle.streams.specs.declared.fault.Fault.TheVariants.{Input};

    ghost from_gives = { λ _ caused. caused.fault ≡ Input (Core Memory) };

    fn from(error: AllocError) -> CausedFault {
        CausedFault::without_cause(Fault::from(error))
    }
}

/// A name, and behind it these words, if there are any.
fn name_with_words(alloc: Global, name: &str, words: Result<String, AllocError>) -> Option<String> {
    match words {
        Ok(words) if !words.is_empty() => format!(in alloc; "{name}: {words}").ok(),
        _ => String::from_str(alloc, name).ok(),
    }
}

/// What is the matter with the file of a path, which is no link, as far as the system says when it
/// is asked once more; else these words.
fn trouble_at<R: Files>(
    rt: &R,
    alloc: Global,
    path: &str,
    otherwise: &str,
) -> Result<String, AllocError> {
    let there = match fs::symlink_metadata(rt, path) {
        Ok(there) => there,
        Err(error) => return system_words(alloc, &error),
    };
    if there.is_symlink() {
        return String::from_str(alloc, "it is a link");
    }
    if there.is_dir() {
        return String::from_str(alloc, "it is a folder");
    }
    if !there.is_file() {
        return String::from_str(alloc, "it is no file");
    }
    match fs::open(rt, path) {
        Ok(_) => String::from_str(alloc, otherwise),
        Err(error) => system_words(alloc, &error),
    }
}

/// Whether these words stand on one line.
fn is_one_line(words: &str) -> bool
    ensures { result ≡ causes.is_one_line words.now }
{
    !words.as_bytes().contains(&b'\n')
}

/// The refusal of a fault.
fn refused_in(fault: &Fault) -> &Refused
    ensures { result.now ≡ causes.refused_in fault.now }
{
    match fault {
        Fault::Input(refused) | Fault::Device(refused) => refused,
    }
}

/// The line of a refusal with a cause.
fn line_with(alloc: Global, refused: &Refused, cause: &str) -> Result<String, AllocError>
    ensures { IfOk result (λ line. string_bytes line ≡ causes.line_with refused.now cause.now) }
{
    let (number, name) = (refused.number(), refused.name());
    format!(in alloc; "Refused {number} {name}: {cause}\n")
}

/// The line of a fault with its cause, where that is known, stands on one line, and there is memory
/// for it.
fn line_with_cause(alloc: Global, caused: &CausedFault) -> Option<String>
    ensures { IfSome result (λ line. IsCausedLine caused.now.fault (string_bytes line)) }
{
    let cause = caused.cause.as_ref()?.as_str();
    if !is_one_line(cause) {
        return None;
    }
    line_with(alloc, refused_in(&caused.fault), cause).ok()
}

/// Tells a fault with its cause in one line, as far as `faults` takes it.
fn tell_caused<F: Write>(alloc: Global, caused: &CausedFault, faults: &mut Counted<F>)
    ensures { TellsCaused caused.now.fault (traffic F.contents faults.old faults.new) }
{
    match line_with_cause(alloc, caused) {
        Some(line) => tell_text(faults, line.as_str()),
        None => tell(faults, &caused.fault),
    }
}

/// Tells a fault with its cause in one line, as far as `faults` takes it. Answers the exit status.
pub fn give_up_caused<F: Write>(alloc: Global, caused: CausedFault, faults: &mut Counted<F>) -> u8
    ensures errors { TellsCaused caused.fault (traffic F.contents faults.old faults.new) }
    ensures status { result ≡ fault_status caused.fault }
{
    tell_caused(alloc, &caused, faults);
    caused.fault.status()
}
