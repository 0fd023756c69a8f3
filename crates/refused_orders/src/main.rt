//! What controllers answer to orders that were read before. A line of the input is the state of a
//! controller; each line below it that begins with a tab is an order to a controller in that state.
//! Of each order the output has a line `Prepared` once both are read, and then the refusal's line,
//! or `Done`. `.ci/allocations.py` refuses all memory from the first of these lines to the second.
//!
//! A line that begins with `kept` and a tab is an order to that controller beside a keeper; with
//! `serve`, a message to it over HTTP; with `world`, a script. Of each the output has `Prepared`
//! and what comes of it; where that is that memory ran out, then what it left, and what comes of
//! the same once more.
#![tactic(auto)]

mod exchanges;
mod kept_orders;
mod ordered;
mod shops;

use crate::ordered::Ordered;
use controller::Controller;
use controller_form::StateForm;
use json_source::{Scratch, tree_of};
use master_core::Master;
use std::alloc::Global;
use std::io::{self, Read, Write};
use ticket_items::Refusal;
use worker_core::Worker;

/// The controller whose state a text is.
fn controller<C: StateForm>(alloc: Global, text: &[u8]) -> Result<C, Refusal> {
    let mut scratch = Scratch::new(alloc);
    C::state_of(alloc, &tree_of(alloc, text, &mut scratch)?)
}

/// A controller and an order to it, or what the first of them is refused for.
fn prepared<C: Controller>(
    controller: Result<C, Refusal>,
    order: Result<C::Order, Refusal>,
) -> Result<(C, C::Order), Refusal> {
    let controller = controller?;
    let order = order?;
    Ok((controller, order))
}

/// Writes the lines for an order to a controller, or the line of what one of them is refused for.
fn write_lines<C: Controller, W: Write>(
    alloc: Global,
    writer: &mut W,
    read: Result<(C, C::Order), Refusal>,
) -> io::Result<()> {
    match read {
        Ok((mut controller, order)) => {
            let prepared = writer.write_all(b"Prepared\n");
            let line = match controller.order(alloc, order, 200).err() {
                None => "Done\n",
                Some(refusal) => refusal.line(),
            };
            prepared.and(writer.write_all(line.as_bytes()))
        }
        Err(refusal) => writer.write_all(refusal.line().as_bytes()),
    }
}

/// Writes the lines for an order to a controller whose state is there.
fn write_order<C: Ordered, W: Write>(
    alloc: Global,
    writer: &mut W,
    state: &[u8],
    order: &[u8],
) -> io::Result<()> {
    let read = prepared(controller::<C>(alloc, state), C::order_in(alloc, order));
    write_lines(alloc, writer, read)
}

/// Writes the lines for an order to a controller alone, or beside a keeper.
fn write_ordered<C: Ordered, W: Write>(
    alloc: Global,
    writer: &mut W,
    state: &[u8],
    word: &[u8],
    order: &[u8],
) -> io::Result<()> {
    match word {
        b"kept" => kept_orders::write_lines::<C, W>(alloc, writer, state, order),
        _ => write_order::<C, W>(alloc, writer, state, order),
    }
}

/// Writes the lines for a call whose word stands first.
fn write_call<W: Write>(
    alloc: Global,
    writer: &mut W,
    state: &[u8],
    word: &[u8],
    given: &[u8],
) -> io::Result<()> {
    match word {
        b"serve" => exchanges::write_lines::<Worker, W>(alloc, writer, state, given),
        b"world" => shops::write_lines(alloc, writer, given),
        _ if state.starts_with(b"{\"Format\":2,\"Master\"") => {
            write_ordered::<Master, W>(alloc, writer, state, word, given)
        }
        _ => write_ordered::<Worker, W>(alloc, writer, state, word, given),
    }
}

fn main(rt: HostRuntime) -> io::Result<()> {
    let alloc = rt.alloc();
    let mut input = Vec::new(alloc);
    rt.reader().read_to_end(&mut input)?;
    let mut writer = io::writer(&rt);
    let mut state: &[u8] = &[];
    for line in input.as_slice().split(|byte| *byte == b'\n') {
        let mut parts = line.splitn(2, |byte| *byte == b'\t');
        let word = parts.next().unwrap_or(&[]);
        match parts.next() {
            None => state = line,
            Some(given) => write_call(alloc, &mut writer, state, word, given)?,
        }
    }
    Ok(())
}
