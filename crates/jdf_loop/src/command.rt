//! The command `loop`.

ghost use Rattle.std.specs.Prelude.{◌≡◌, IfErr, IfOk, OnOk};
ghost use Rattle.jdf_loop.specs.Losses as losses;
ghost use Rattle.jdf_loop.specs.Run as run;
ghost use Rattle.streams.specs.Ends.{IsFaultOf};
ghost use Rattle.streams.specs.Streams.{traffic};
ghost use Rattle.world_script.specs.Script.{IsRefusalOfRunning};

use crate::event_line::EventLine;
use crate::exchanges::Exchanges;
use crate::losses::is_lost;
use crate::pushing::push;
use crate::shop::{Shop, new_shop};
use crate::written::run_text;
use std::alloc::Global;
use std::io::{Read, Write};
use std::net::Net;
use streams::{Counted, Fault, Output, Refused, finish, read_input};
use world_items::Event;
use world_script::{Script, running_script_of};

/// Lets an event happen in a shop, unless its message is too large to be sent. Refuses what the run
/// ends with.
fn line_of<N: Net>(
    exchanges: &mut Exchanges<'_, N>,
    alloc: Global,
    shop: &mut Shop,
    event: Event,
) -> Result<EventLine, Refused>
    ensures line { IfOk result (λ line. line ≡ losses.line_to event shop.old) }
    ensures left { OnOk result (shop.new ≡ losses.left_by event shop.old) }
{
    if is_lost(shop, &event.what) {
        drop(event);
        return Ok(EventLine::TooLarge);
    }
    let answer = shop.step(exchanges, alloc, event)?;
    Ok(EventLine::Answered(answer))
}

/// Lets events happen in a shop, in turn. Refuses what the run ends with.
fn run_events<N: Net>(
    exchanges: &mut Exchanges<'_, N>,
    alloc: Global,
    shop: &mut Shop,
    events: Vec<Event>,
) -> Result<Vec<EventLine>, Refused>
    ensures lines { IfOk result (λ told. told.items ≡ losses.lines_to events.items shop.old) }
    ensures left { OnOk result (shop.new ≡ losses.left_by_all events.items shop.old) }
{
    let mut lines = Vec::with_capacity(alloc, events.len())?;
    for event in events {
        push(&mut lines, line_of(exchanges, alloc, shop, event)?)?;
    }
    Ok(lines)
}

/// What is written of a shop in which these events happen. Refuses what the run ends with.
fn run_output<N: Net>(
    exchanges: &mut Exchanges<'_, N>,
    alloc: Global,
    shop: &mut Shop,
    events: Vec<Event>,
) -> Result<Output, Refused>
    ensures { IfOk result (λ output. run.IsRunFrom shop.old events.items output.text.items
        output.refused) }
{
    let lines = run_events(exchanges, alloc, shop, events)?;
    match shop.master() {
        Some(master) => Ok(run_text(alloc, lines.as_slice(), master)?),
        None => Err(Refused::Stale),
    }
}

/// What is written for a script whose messages are handed over so. Refuses what the run ends with.
fn run_over<N: Net>(
    exchanges: &mut Exchanges<'_, N>,
    alloc: Global,
    script: Script,
) -> Result<Output, Refused>
    ensures { IfOk result (λ output. run.IsRunOf script output.text.items output.refused) }
{
    let Script {
        master,
        workers,
        ticket,
        events,
    } = script;
    match new_shop(alloc, master, workers, ticket) {
        Ok(mut shop) => {
            let written = run_output(exchanges, alloc, &mut shop, events.into_vec());
            drop(shop);
            written
        }
        Err(refused) => {
            drop(events);
            Err(refused)
        }
    }
}

/// What is written for a script. Refuses what the run ends with.
fn run_script<N: Net>(rt: &N, alloc: Global, script: Script) -> Result<Output, Refused>
    ensures { IfOk result (λ output. run.IsRunOf script output.text.items output.refused) }
{
    match Exchanges::open(rt) {
        Ok(mut exchanges) => run_over(&mut exchanges, alloc, script),
        Err(refused) => {
            drop(script);
            Err(refused)
        }
    }
}

/// The script that is read. Refuses as `Input` what it is refused for, `TooLarge` more bytes than
/// `MAX_INPUT_BYTES`, and `Memory`; as `Device` `ReadFailed`.
fn read_script<I: Read>(alloc: Global, reader: &mut Counted<I>) -> Result<Script, Fault>
    ensures ok { IfOk result (run.IsScript (traffic I.remaining reader.old reader.new)) }
    ensures refused { IfErr result
        (IsFaultOf IsRefusalOfRunning (traffic I.remaining reader.old reader.new)) }
{
    let input = read_input(alloc, reader)?;
    Ok(running_script_of(alloc, input.as_slice())?)
}

/// What `loop` writes for the script that is read.
fn loop_output<N: Net, I: Read>(
    rt: &N,
    alloc: Global,
    reader: &mut Counted<I>,
) -> Result<Output, Fault>
    ensures ok { IfOk result (λ output. run.IsOutput (traffic I.remaining reader.old reader.new)
        output.text.items output.refused) }
    ensures refused { IfErr result (run.IsFault (traffic I.remaining reader.old reader.new)) }
{
    let script = read_script(alloc, reader)?;
    match run_script(rt, alloc, script) {
        Ok(output) => Ok(output),
        Err(refused) => Err(Fault::Device(refused)),
    }
}

/// Reads a script in which no controller stops, lets its events happen one after another, and
/// writes what `world` writes for it.
pub fn run_loop<N: Net, I: Read, W: Write, F: Write>(
    rt: &N,
    alloc: Global,
    reader: &mut Counted<I>,
    writer: &mut Counted<W>,
    faults: &mut Counted<F>,
) -> u8
    // Proved: `loop` writes, for the script that was read, a line for each event, and the ticket
    // that the master shows behind the last; the status is 1 where a message was too large, else
    // 0; or it tells why the script is refused, or some fault of what it stands on.
    // Proved: **The answers that `loop` writes, and the ticket, are those of one ticket with one
    // table of holders**, to which all events happen but the deliveries of messages of more than
    // 16,384 bytes, each of which is told as too large.
    // Proved: In `loop` the part of each spawn is put in at most once, of which the audits of the
    // node above tell just as the answers do; and behind its last event each may change just what
    // it holds, so no two one node or resource.
    // Proved: `loop` writes nothing where the script is refused or its run is cut off.
    // Not proved: that what goes through a socket comes, which cases show; and that the run is cut
    // off where a text doesn't come as it was sent.
    ensures { run.EndsLoop (traffic I.remaining reader.old reader.new)
        (traffic W.contents writer.old writer.new)
        (traffic F.contents faults.old faults.new) result }
{
    finish(loop_output(rt, alloc, reader), writer, faults)
}
