//! A shop as one ticket with one table of holders, in definitions alone: `specs/` is all of it.
//! `Shop` is the state, `Claim` what a spawn takes, `Acts` what the master and the workers do to
//! it, `Steps` what is answered, `Replay` a run of events; `SeenTicket` and `Marks` are what is
//! shown of it; `Once` and `MergeAudits` what is said of merges.
#![tactic(auto)]
