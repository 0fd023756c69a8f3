//! Cases of the program, and what comes of each. A line of the input is a case: the words of a
//! command, with a space between two, and behind a tab what the command reads; behind another tab
//! may stand how many spaces it reads behind that. `%` and two digits stand for the byte of that
//! number to the base 16. The output has what the command writes, what it tells, and its exit
//! status on a line of its own. Files are those of the folder where this runs. Lines that are empty
//! or begin with `#` are written as they are; the latter say what the cases below them are about.
//!
//! A few words more call what the program never does by itself; `case_words` lists them. `cuts`
//! before the words of a case stands for that case with each cut of its input.
#![tactic(auto)]

mod answers;
mod cuts;
mod lines;
mod program;

use crate::lines::write_answers;
use std::io;

fn main(rt: HostRuntime) -> io::Result<()> {
    write_answers(&rt, rt.alloc(), &mut rt.reader(), &mut io::writer(&rt))
}
