//! `jdf_cli edit`, `jdf_cli world` and `jdf_cli loop` work on what comes on standard input;
//! `jdf_cli new`, `order`, `take` and `show` keep a controller in a file; `serve` and `send` are
//! for messages. `jdf_cli --help` shows each.
#![tactic(auto)]

mod prompt;

use crate::prompt::Prompt;
use jdf_net::{NO_CALL, run_words};
use std::alloc::AllocError;
use std::io::{ErrorKind, IsTerminal, Result, Write};
use std::process::ExitCode;
use std::{env, io};
use streams::{Counted, Fault, finish};

/// The words of the command line, without the program's name.
fn words_of(rt: &HostRuntime) -> Result<Vec<String>> {
    let mut words = Vec::new(rt.alloc());
    for word in env::args(rt)?.skip(1) {
        words.push(word)?;
    }
    Ok(words)
}

fn main(rt: HostRuntime) -> ExitCode {
    let mut writer = Counted::new(io::writer(&rt));
    let mut faults = Counted::new(rt.stderr());
    let input = rt.reader();
    let is_typed = input.is_terminal();
    let mut reader = Counted::new(Prompt::new(input, rt.stderr(), is_typed));
    let status = match words_of(&rt) {
        Ok(words) => run_words(
            &rt,
            rt.alloc(),
            words.as_slice(),
            &mut reader,
            &mut writer,
            &mut faults,
        ),
        Err(error) if error.kind() == ErrorKind::OutOfMemory => {
            finish(Err(Fault::from(AllocError)), &mut writer, &mut faults)
        }
        Err(_) => {
            let _ = faults.write_all(b"error: a word of the command line isn't UTF-8\n");
            NO_CALL
        }
    };
    ExitCode::from(status)
}
