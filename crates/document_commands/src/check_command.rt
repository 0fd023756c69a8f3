//! The command `check`.

mod kinds;
mod readers;
mod run;
mod verdict;

pub use run::run_check;
