//! Events in a world.

use std::alloc::{AllocError, Global};
use std::io::{self, Write};
use ticket_items::{Id, Ids, Refusal};
use ticket_tree::Ticket;
use world::World;
use world_items::{Answer, Event};
use world_script::{Script, answer_text, script_of};

/// A shop in which events happen. Functions over any are proved once, and what they hold isn't
/// taken apart there.
trait Shop: Drop {
    /// What comes of an event.
    type Told: Drop;

    /// The shop in its beginning.
    fn begun(alloc: Global, master: Id, workers: Ids, ticket: Ticket) -> Result<Self, Refusal>;

    /// Lets events happen.
    fn run(&mut self, alloc: Global, events: Vec<Event>) -> Result<Vec<Self::Told>, AllocError>;

    /// Lets an event happen.
    fn step(&mut self, alloc: Global, event: Event) -> Result<Self::Told, AllocError>;

    /// The text of what comes of an event.
    fn told_text(alloc: Global, told: &Self::Told) -> Result<String, AllocError>;

    /// Whether as much was sent, and each controller is as it is in another.
    fn is_same(&self, other: &Self) -> bool;
}

impl Shop for World {
    type Told = Answer;

    fn begun(alloc: Global, master: Id, workers: Ids, ticket: Ticket) -> Result<World, Refusal> {
        World::new(alloc, master, workers, ticket)
    }

    fn run(&mut self, alloc: Global, events: Vec<Event>) -> Result<Vec<Answer>, AllocError> {
        World::run(self, alloc, events)
    }

    fn step(&mut self, alloc: Global, event: Event) -> Result<Answer, AllocError> {
        World::step(self, alloc, event)
    }

    fn told_text(alloc: Global, told: &Answer) -> Result<String, AllocError> {
        answer_text(alloc, told)
    }

    fn is_same(&self, other: &World) -> bool {
        let master = self.master();
        self.messages().len() == other.messages().len()
            && is_same_for(self, other, master.name())
            && master
                .workers()
                .iter()
                .all(|name| is_same_for(self, other, name))
    }
}

/// Whether the controller of a name has the same text in both.
fn is_same_for(world: &World, other: &World, name: &Id) -> bool {
    world.stored(name) == other.stored(name)
}

/// Appends the line of what comes of an event.
fn push_told<S: Shop>(
    alloc: Global,
    lines: &mut Vec<u8>,
    told: &S::Told,
) -> Result<(), AllocError> {
    lines.extend_from_slice(S::told_text(alloc, told)?.as_bytes())?;
    lines.push(b'\n').map_err(AllocError::from)
}

/// Lets an event happen, and appends the line of what comes of it.
fn step_to<S: Shop>(
    alloc: Global,
    shop: &mut S,
    event: Event,
    lines: &mut Vec<u8>,
) -> Result<(), AllocError> {
    let told = shop.step(alloc, event)?;
    push_told::<S>(alloc, lines, &told)
}

/// Lets events happen, and appends the lines of what comes of them.
fn run_to<S: Shop>(
    alloc: Global,
    shop: &mut S,
    events: Vec<Event>,
    lines: &mut Vec<u8>,
) -> Result<(), AllocError> {
    let all = shop.run(alloc, events)?;
    for told in all.as_slice() {
        push_told::<S>(alloc, lines, told)?;
    }
    Ok(())
}

/// A shop as a script begins, and its events.
fn begun<S: Shop>(alloc: Global, text: &[u8]) -> Result<(S, Vec<Event>), Refusal> {
    let Script {
        master,
        workers,
        ticket,
        events,
    } = script_of(alloc, text)?;
    match S::begun(alloc, master, workers, ticket) {
        Ok(shop) => Ok((shop, events.into_vec())),
        Err(refusal) => {
            drop(events);
            Err(refusal)
        }
    }
}

/// The lines of all events of which some happened: those, as another shop tells them up to where it
/// is the same, a line that tells where that is, and the others.
fn lines_of_all<S: Shop>(alloc: Global, shop: &mut S, text: &[u8]) -> Result<Vec<u8>, Refusal> {
    let (mut other, events) = begun::<S>(alloc, text)?;
    let mut lines = Vec::new(alloc);
    let pushed = push_all(alloc, shop, &mut other, events, &mut lines);
    drop(other);
    pushed?;
    Ok(lines)
}

/// Appends the lines of events, which happen in another shop until it is the same, and from then
/// on in the shop.
fn push_all<S: Shop>(
    alloc: Global,
    shop: &mut S,
    other: &mut S,
    events: Vec<Event>,
    lines: &mut Vec<u8>,
) -> Result<(), AllocError> {
    let mut is_met = false;
    for event in events {
        is_met = meets(shop, other, is_met, lines)?;
        if is_met {
            step_to(alloc, shop, event, lines)?;
        } else {
            step_to(alloc, other, event, lines)?;
        }
    }
    meets(shop, other, is_met, lines)?;
    Ok(())
}

/// Whether another shop was the same already, or is so now, of which a line tells then.
fn meets<S: Shop>(
    shop: &S,
    other: &S,
    was_met: bool,
    lines: &mut Vec<u8>,
) -> Result<bool, AllocError> {
    if was_met || !shop.is_same(other) {
        return Ok(was_met);
    }
    lines.extend_from_slice(b"From here\n")?;
    Ok(true)
}

/// Writes the lines for events in a shop.
fn write_run<S: Shop, W: Write>(
    alloc: Global,
    writer: &mut W,
    shop: &mut S,
    events: Vec<Event>,
    text: &[u8],
) -> io::Result<()> {
    let mut lines = Vec::with_capacity(alloc, ROOM)?;
    writer.write_all(b"Prepared\n")?;
    let ran = run_to(alloc, shop, events, &mut lines);
    if ran.is_ok() {
        writer.write_all(b"Ran\n")?;
        return writer.write_all(lines.as_slice());
    }
    writer.write_all(Refusal::Memory.line().as_bytes())?;
    write_rest(alloc, writer, shop, text)
}

/// Writes the lines for events of which some happened in a shop.
fn write_rest<S: Shop, W: Write>(
    alloc: Global,
    writer: &mut W,
    shop: &mut S,
    text: &[u8],
) -> io::Result<()> {
    match lines_of_all(alloc, shop, text) {
        Ok(lines) => writer.write_all(lines.as_slice()),
        Err(refusal) => writer.write_all(refusal.line().as_bytes()),
    }
}

/// How long the lines of a script may be.
const ROOM: usize = 65_536;

/// Writes the lines for a script, in a shop of this kind.
fn write_in<S: Shop, W: Write>(alloc: Global, writer: &mut W, text: &[u8]) -> io::Result<()> {
    match begun::<S>(alloc, text) {
        Ok((mut shop, events)) => write_run(alloc, writer, &mut shop, events, text),
        Err(refusal) => writer.write_all(refusal.line().as_bytes()),
    }
}

/// Writes the lines for a script.
pub fn write_lines<W: Write>(alloc: Global, writer: &mut W, text: &[u8]) -> io::Result<()> {
    write_in::<World, W>(alloc, writer, text)
}
