//! From bytes to the table of peers.

ghost use Rattle.std.specs.Prelude.{Ok, IfOk, IfErr};
ghost use Rattle.json_items.specs.Validation.{Answers};
ghost use Rattle.json_profile.specs.ReadAs.{IsReadAs, IsRefusalOf};
ghost use Rattle.peers_file.specs.Table.{table_read};

use crate::rows::rows_of;
use crate::table::PeerTable;
use json_source::{Scratch, Source, tree_of};
use std::alloc::Global;
use ticket_items::Refusal;

/// The table that a value is.
fn table_in<S: Source>(alloc: Global, value: &S) -> Result<PeerTable, Refusal>
    ensures { Answers result (table_read (S.content value.now)) }
{
    let pairs = value.texts(alloc)?;
    let rows = rows_of(alloc, pairs.as_slice())?;
    Ok(PeerTable::of(rows))
}

/// The table of peers that bytes are (our own): a JSON object of URLs, each under a name, or under
/// a `*`, or a name with a `*` behind it, for what begins so. Refuses the first of `NotJson` and
/// `NotProfile`: where it is no object of texts, a member's name is none of these, or a text is no
/// URL that a message can be sent to; `Memory` may come before any.
pub fn peers_of(alloc: Global, bytes: &[u8]) -> Result<PeerTable, Refusal>
    // Proved: A table of peers is read just where the bytes are an object of patterns and of URLs
    // that a message can be sent to; what it holds is just that, and else the first refusal is
    // told.
    // By `ok`, `refused`.
    ensures ok { IfOk result (λ table. IsReadAs table_read bytes.now (Ok table)) }
    ensures refused { IfErr result (IsRefusalOf table_read bytes.now) }
{
    let mut scratch = Scratch::new(alloc);
    let tree = tree_of(alloc, bytes, &mut scratch)?;
    table_in(alloc, &tree)
}
