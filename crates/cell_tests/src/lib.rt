//! Tests of cells and of what stands on them, and of the bytes of etcd's gateway: what is asked and
//! answered is what a cluster of three was seen to take and to give.
#![tactic(auto)]

#[cfg(test)]
mod tests;
