//! Where things stand in a ticket.

use json_profile::{ticket_of, value_of};
use std::alloc::Global;
use streams::Refused;
use ticket_tree::{Id, Refusal, Ticket};

/// `below ID ID`, `subtree ID` and `home ID` in the ticket that is read.
pub fn place(alloc: Global, word: &str, ids: &[String], text: &[u8]) -> Result<Vec<u8>, Refused> {
    let ticket = ticket_of(alloc, &value_of(alloc, text)?)?;
    let line = match (word, ids) {
        ("below", [lower, upper]) => below(alloc, &ticket, lower.as_str(), upper.as_str()),
        ("subtree", [id]) => subtree(alloc, &ticket, id.as_str()),
        ("home", [id]) => home(alloc, &ticket, id.as_str()),
        _ => Err(Refusal::NotProfile),
    };
    Ok(line?.into_bytes())
}

/// Whether the first node is the second or below it.
fn below(alloc: Global, ticket: &Ticket, lower: &str, upper: &str) -> Result<String, Refusal> {
    let lower = Id::new(alloc, lower)?;
    let upper = Id::new(alloc, upper)?;
    let answer = if ticket.is_below(&lower, &upper) {
        "Yes\n"
    } else {
        "No\n"
    };
    Ok(String::from_str(alloc, answer)?)
}

/// From which row and up to which the nodes below a node stand.
fn subtree(alloc: Global, ticket: &Ticket, id: &str) -> Result<String, Refusal> {
    match ticket.subtree(&Id::new(alloc, id)?) {
        Some((from, to)) => Ok(format!(in alloc; "{from} {to}\n")?),
        None => Ok(String::from_str(alloc, "None\n")?),
    }
}

/// The node in whose pool a resource is.
fn home(alloc: Global, ticket: &Ticket, id: &str) -> Result<String, Refusal> {
    match ticket.home_of(&Id::new(alloc, id)?) {
        Some(node) => {
            let node = node.as_str();
            Ok(format!(in alloc; "{node}\n")?)
        }
        None => Ok(String::from_str(alloc, "None\n")?),
    }
}
