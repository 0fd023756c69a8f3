//! What a worker does with an order.

ghost use Rattle.std.specs.Prelude.{◌≡◌, false, None, Some, Ok, OnOk, OnErr, IfOk, IfErr, IfSome};
ghost use Rattle.std.specs.Prelude.{MatchResult};
ghost use Rattle.std.specs.List.{position};
ghost use Rattle.std.specs.Option.{option_map};
ghost use Rattle.ticket_items.specs.Edit.{is_structural};
ghost use Rattle.ticket_tree.specs.Part.{edited_part, refusal_of_part};
ghost use Rattle.controller.specs.Step.{Makes};
ghost use Rattle.worker_core.specs.Orders as orders;
ghost use Rattle.worker_core.specs.Worker as worker;

use crate::edits;
use crate::entries::Entries;
use crate::entry::Entry;
use crate::stage::Stage;
use controller::{Body, Done, Message, Reply};
use std::alloc::{AllocError, Global};
use ticket_tree::{Duplicate, Edit, Id, Name, Part, Refusal, SpawnId};
use world_items::End;
use world_items::worker_order::Order;

/// Why the part of an entry isn't given back once more: it is open, or was given up.
fn resend_refusal(entry: &Entry) -> Option<Refusal>
    ensures { result ≡ orders.resend_refusal entry.now }
{
    if entry.phase.is_open() {
        return Some(Refusal::NotDone);
    }
    if entry.phase.is_closed() {
        return Some(Refusal::Acknowledged);
    }
    None
}

/// Why an order on an entry whose part was taken is refused: the first reason that holds.
fn work_refusal(order: &Order, entry: &Entry) -> Option<Refusal>
    ensures { result ≡ orders.work_refusal order.now entry.now }
{
    match order {
        Order::Edit(_, edit) => edits::refusal_of(edit, entry),
        Order::Finish(_, _) => {
            if entry.open_part().is_some() {
                None
            } else {
                Some(Refusal::NotOpen)
            }
        }
        Order::Resend(_) => resend_refusal(entry),
    }
}

/// Why an order on an entry is refused: the first reason that holds.
fn entry_refusal(order: &Order, entry: &Entry) -> Option<Refusal>
    ensures { result ≡ orders.entry_refusal order.now entry.now }
{
    if entry.phase.is_declined() {
        return Some(Refusal::UnknownEntry);
    }
    work_refusal(order, entry)
}

/// Where the entry stands that an order is about, or why the order is refused: the first reason
/// that holds. Needs no memory.
fn open_to(order: &Order, entries: &Entries) -> Result<usize, Refusal>
    ensures place { MatchResult result
        (λ place. position (worker.is_of (orders.spawn_of_order order.now)) entries.now
        ≡ Some place) (λ _. Unit {0}) }
    ensures refusal { MatchResult result
        (λ _. orders.order_refusal order.now entries.now ≡ None)
        (λ e. orders.order_refusal order.now entries.now ≡ Some e) }
{
    match entries.place_of(order.spawn()) {
        None => Err(Refusal::UnknownEntry),
        Some(place) => match entry_refusal(order, &entries.list[place]) {
            None => Ok(place),
            Some(refusal) => Err(refusal),
        },
    }
}

/// The edit that gives the node of a part the Status of an end.
fn end_edit(alloc: Global, part: &Part, end: End) -> Result<Edit, Refusal>
    ensures edit { IfOk result (λ edit. edit ≡ orders.end_edit part.now end) }
    ensures free { OnOk result (refusal_of_part (orders.end_edit part.now end) part.now ≡ None) }
    ensures memory { IfErr result (λ e. e ≡ Refusal.Memory) }
{
    let status = Name::new(alloc, end.word())?;
    match part.rows().first() {
        None => unreachable!(),
        Some(root) => Ok(Edit::SetStatus {
            node: root.id.copy(alloc)?,
            status,
        }),
    }
}

/// Gives the node of a part the Status of an end.
fn end_part(alloc: Global, part: &mut Part, end: End, at: u64) -> Result<(), Refusal>
    ensures ok { OnOk result (part.new ≡ orders.ended_part end at part.old) }
    ensures err { OnErr result (part.new ≡ part.old) }
    ensures memory { IfErr result (λ e. e ≡ Refusal.Memory) }
{
    let edit = end_edit(alloc, part, end)?;
    part.apply(alloc, edit, at)
}

/// A copy of a part, whose node has the Status of an end.
fn ended_part(alloc: Global, part: &Part, end: End, at: u64) -> Result<Part, Refusal>
    ensures part { IfOk result (λ ended. ended ≡ orders.ended_part end at part.now) }
    ensures memory { IfErr result (λ e. e ≡ Refusal.Memory) }
{
    let mut ended = part.copy(alloc)?;
    end_part(alloc, &mut ended, end, at).and(Ok(ended))
}

/// Gives the node of the part that there is the Status of an end.
fn end_held(alloc: Global, part: &mut Option<Part>, end: End, at: u64) -> Result<(), Refusal>
    ensures ok { OnOk result (part.new ≡ option_map (orders.ended_part end at) part.old) }
    ensures err { OnErr result (part.new ≡ part.old) }
    ensures memory { IfErr result (λ e. e ≡ Refusal.Memory) }
{
    match part {
        None => Ok(()),
        Some(part) => end_part(alloc, part, end, at),
    }
}

/// A copy of the part that there is, whose node has the Status of an end.
fn ended_copy(
    alloc: Global,
    part: &Option<Part>,
    end: End,
    at: u64,
) -> Result<Option<Part>, Refusal>
    ensures part { IfOk result
        (λ ended. ended ≡ option_map (orders.ended_part end at) part.now) }
    ensures memory { IfErr result (λ e. e ≡ Refusal.Memory) }
{
    match part {
        None => Ok(None),
        Some(part) => Ok(Some(ended_part(alloc, part, end, at)?)),
    }
}

/// An equal copy of the part that there is.
fn copy_of(alloc: Global, part: &Option<Part>) -> Result<Option<Part>, AllocError>
    ensures { IfOk result (λ copied. copied ≡ part.now) }
{
    match part {
        None => Ok(None),
        Some(part) => Ok(Some(part.copy(alloc)?)),
    }
}

/// Ends the work on an entry.
pub fn end_entry(alloc: Global, entry: &mut Entry, end: End, at: u64) -> Result<(), Refusal>
    ensures ok { OnOk result (entry.new ≡ orders.finished_entry end at entry.old) }
    ensures err { OnErr result (entry.new ≡ entry.old) }
    ensures memory { IfErr result (λ e. e ≡ Refusal.Memory) }
{
    end_held(alloc, &mut entry.part, end, at)?;
    entry.phase = Stage::Done(end);
    entry.at = at;
    Ok(())
}

/// Ends the work on an entry, and answers its part as it is then.
fn finish(alloc: Global, entry: &mut Entry, end: End, at: u64) -> Result<Option<Part>, Refusal>
    ensures ok { OnOk result (entry.new ≡ orders.finished_entry end at entry.old) }
    ensures part { IfOk result
        (λ part. part ≡ option_map (orders.ended_part end at) entry.old.part) }
    ensures err { OnErr result (entry.new ≡ entry.old) }
    ensures memory { IfErr result (λ e. e ≡ Refusal.Memory) }
{
    let part = ended_copy(alloc, &entry.part, end, at)?;
    end_entry(alloc, entry, end, at).and(Ok(part))
}

/// The message that gives a part back at a time, from a name to another, where there is one.
fn part_return(sender: Id, receiver: Id, at: u64, part: Option<Part>) -> Option<Message>
    ensures { result ≡ option_map (orders.part_return sender receiver at) part }
{
    match part {
        None => None,
        Some(part) => Some(Message {
            sender,
            receiver,
            at,
            body: Body::Return(part),
        }),
    }
}

/// Ends the work on an entry, and gives its part back.
fn do_finish(
    alloc: Global,
    name: &Id,
    master: &Id,
    entry: &mut Entry,
    spawn: SpawnId,
    end: End,
    at: u64,
) -> Result<Done, Refusal>
    ensures { Makes (record {
      reply = Ok (Reply.Finished spawn);
      sent = orders.return_of name.now master.now (orders.finished_entry end at entry.old);
      next = orders.finished_entry end at entry.old;
    }) entry.old result entry.new }
{
    let sender = name.copy(alloc)?;
    let receiver = master.copy(alloc)?;
    let part = finish(alloc, entry, end, at)?;
    Ok(Done {
        reply: Reply::Finished(spawn),
        message: part_return(sender, receiver, at, part),
    })
}

/// Gives the part of an entry back once more.
fn do_resend(
    alloc: Global,
    name: &Id,
    master: &Id,
    entry: &Entry,
    spawn: SpawnId,
) -> Result<Done, Refusal>
    ensures { Makes (record {
      reply = Ok (Reply.Sent spawn);
      sent = orders.return_of name.now master.now entry.now;
      next = entry.now;
    }) entry.now result entry.now }
{
    let sender = name.copy(alloc)?;
    let receiver = master.copy(alloc)?;
    let part = copy_of(alloc, &entry.part)?;
    Ok(Done {
        reply: Reply::Sent(spawn),
        message: part_return(sender, receiver, entry.at, part),
    })
}

/// Does an edit of the part that there is, which doesn't refuse it.
fn edit_held(alloc: Global, part: &mut Option<Part>, edit: Edit, at: u64) -> Result<(), Refusal>
    requires plain { is_structural edit ≡ false }
    requires free { IfSome part.old (λ p. refusal_of_part edit p ≡ None) }
    ensures ok { OnOk result (part.new ≡ option_map (edited_part edit at) part.old) }
    ensures err { OnErr result (part.new ≡ part.old) }
    ensures memory { IfErr result (λ e. e ≡ Refusal.Memory) }
{
    match part {
        None => {
            drop(edit);
            Ok(())
        }
        Some(part) => part.apply(alloc, edit, at),
    }
}

/// Does an edit, that isn't refused, of the part of an entry.
fn do_edit(alloc: Global, entry: &mut Entry, edit: Edit, at: u64) -> Result<Done, Refusal>
    requires { orders.edit_refusal edit entry.old ≡ None }
    ensures { Makes (record {
      reply = Ok Reply.Edited;
      sent = None;
      next = orders.edited_entry edit at entry.old;
    }) entry.old result entry.new }
{
    edit_held(alloc, &mut entry.part, edit, at)?;
    Ok(Done {
        reply: Reply::Edited,
        message: None,
    })
}

/// Does what the worker of a name is told to do with the entries that it has of its master.
pub fn do_order(
    alloc: Global,
    name: &Id,
    master: &Id,
    entries: &mut Entries,
    order: Order,
    at: u64,
) -> Result<Done, Refusal>
    ensures { orders.Does order at (worker.state name.now master.now entries.old) result
        (worker.state name.now master.now entries.new) }
{
    match open_to(&order, entries) {
        Ok(place) => {
            let entry = &mut entries.list[place];
            match order {
                Order::Edit(_, edit) => do_edit(alloc, entry, edit, at),
                Order::Finish(spawn, end) => {
                    do_finish(alloc, name, master, entry, spawn, end, at)
                }
                Order::Resend(spawn) => do_resend(alloc, name, master, entry, spawn),
            }
        }
        Err(refusal) => {
            drop(order);
            Err(refusal)
        }
    }
}
