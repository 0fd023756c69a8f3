//! Tests of the commands on a controller that a cell keeps, over cells in memory: others' steps
//! come first, answers are lost, and swaps come late.
#![tactic(auto)]

#[cfg(test)]
mod tests;
