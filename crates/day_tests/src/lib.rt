//! Tests of a day of command lines: a worked day, quiet and with saves that are cut off.
#![tactic(auto)]

#[cfg(test)]
mod tests;
