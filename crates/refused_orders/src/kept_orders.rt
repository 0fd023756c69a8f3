//! An order to a controller beside a keeper in memory.

use crate::ordered::Ordered;
use keepers::MemoryKeep;
use std::alloc::Global;
use std::io::{self, Write};
use stored_state::{Kept, OrderBytes, StoredController};
use streams::Refused;
use ticket_items::Refusal;

/// A controller beside a keeper in memory.
type Beside<C> = Kept<C, MemoryKeep>;

/// The line for what an order gives out.
fn given_line(given: OrderBytes) -> &'static str {
    let OrderBytes { reply, message } = given;
    drop(message);
    match reply {
        Err(refusal) => Refused::Core(refusal).line(),
        Ok(_) => "Done\n",
    }
}

/// The line for what comes of an order.
fn told_line(told: Result<OrderBytes, Refused>) -> &'static str {
    match told {
        Err(refused) => refused.line(),
        Ok(given) => given_line(given),
    }
}

/// The line for an order to a controller.
fn line_of<C: StoredController>(
    alloc: Global,
    kept: &mut Beside<C>,
    order: Result<C::Order, Refusal>,
) -> &'static str {
    match order {
        Err(refusal) => Refused::Core(refusal).line(),
        Ok(order) => told_line(kept.order(alloc, order, 200)),
    }
}

/// Writes the text of the state of the controller that is shown.
fn write_shown<C: StoredController, W: Write>(
    alloc: Global,
    writer: &mut W,
    kept: &Beside<C>,
) -> io::Result<()> {
    let text = kept.controller().state_text(alloc)?;
    writer.write_all(text.as_slice())?;
    writer.write_all(b"\n")
}

/// Writes the text of the state that is held, which is loaded for it.
fn write_held<C: StoredController, W: Write>(
    alloc: Global,
    writer: &mut W,
    kept: &mut Beside<C>,
) -> io::Result<()> {
    match kept.reload(alloc) {
        Ok(()) => write_shown(alloc, writer, kept),
        Err(refused) => writer.write_all(refused.line().as_bytes()),
    }
}

/// Writes what the want of memory left: whether the controller is stale, and if so, what it answers
/// to the order then, and the state that is held; else the one that is shown. Then what the order
/// comes to after that.
fn write_left<C: Ordered, W: Write>(
    alloc: Global,
    writer: &mut W,
    kept: &mut Beside<C>,
    text: &[u8],
) -> io::Result<()> {
    if kept.is_stale() {
        writer.write_all(b"Stale\n")?;
        writer.write_all(line_of(alloc, kept, C::order_in(alloc, text)).as_bytes())?;
        write_held(alloc, writer, kept)?;
    } else {
        writer.write_all(b"Fresh\n")?;
        write_shown(alloc, writer, kept)?;
    }
    writer.write_all(line_of(alloc, kept, C::order_in(alloc, text)).as_bytes())
}

/// Writes the lines for an order to the controller that is opened.
fn write_lines_of<C: Ordered, W: Write>(
    alloc: Global,
    writer: &mut W,
    kept: &mut Beside<C>,
    text: &[u8],
) -> io::Result<()> {
    let order = C::order_in(alloc, text);
    writer.write_all(b"Prepared\n")?;
    let line = line_of(alloc, kept, order);
    writer.write_all(line.as_bytes())?;
    if line == Refused::Core(Refusal::Memory).line() {
        write_left(alloc, writer, kept, text)?;
    }
    write_held(alloc, writer, kept)
}

/// Writes the lines for an order to a controller whose state is there.
pub fn write_lines<C: Ordered, W: Write>(
    alloc: Global,
    writer: &mut W,
    state: &[u8],
    text: &[u8],
) -> io::Result<()> {
    let keep = MemoryKeep::new(Vec::from_slice(alloc, state)?);
    let opened: Result<Beside<C>, Refused> = Kept::open(alloc, keep);
    match opened {
        Ok(mut kept) => write_lines_of(alloc, writer, &mut kept, text),
        Err(refused) => writer.write_all(refused.line().as_bytes()),
    }
}
