//! Tests of what stands between the controllers and the network and the files: clients and calls
//! that drip and break, the table of peers, deliveries over many moments, the files of a folder,
//! and the file of a journal. They call what the program calls.
#![tactic(auto)]

#[cfg(test)]
mod tests;
