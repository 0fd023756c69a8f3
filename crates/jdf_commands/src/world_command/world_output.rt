//! From the bytes of a script to the bytes of the output.

ghost use Rattle.std.specs.Prelude.{◌≡◌, ◌++◌, ◌∷◌, false, true, IfErr, IfOk, OnOk};
ghost use Rattle.ticket_items.specs.Ids.{are_distinct};
ghost use Rattle.ticket_items.specs.declared.refusal.Refusal.TheVariants.{Memory};
ghost use Rattle.world.specs.Showing.{shows};
ghost use Rattle.jdf_commands.specs.WorldCommand.Run as run;
ghost use Rattle.world_script.specs.Script.{IsRefusalOf};

use controller_form::push_shown;
use std::alloc::{AllocError, Global};
use ticket_tree::Refusal;
use world::World;
use world_items::{Answer, Event};
use world_script::{Script, answer_text, script_of};

/// Appends the line of an answer.
pub fn push_line(alloc: Global, text: &mut Vec<u8>, answer: &Answer) -> Result<(), AllocError>
    ensures { OnOk result (text.new.items ≡ text.old.items ++ run.line_of answer.now) }
{
    let words = answer_text(alloc, answer)?;
    text.extend_from_slice(words.as_bytes())?;
    text.push(b'\n')?;
    Ok(())
}

/// Appends a line for each answer.
fn push_lines(alloc: Global, text: &mut Vec<u8>, answers: &[Answer]) -> Result<(), AllocError>
    ensures { OnOk result (text.new.items ≡ text.old.items ++ run.lines answers.now) }
{
    for answer in answers {
        push_line(alloc, text, answer)?;
    }
    Ok(())
}

/// Lets events happen in a world, and tells what is written of that: the lines of the replay of the
/// events in the shop that the world shows, and the ticket of the shop at the end. Refuses `Memory`
/// alone.
fn run_text(alloc: Global, world: &mut World, events: Vec<Event>) -> Result<Vec<u8>, Refusal>
    ensures ok { IfOk result (λ text. text.items ≡ run.run_text events.items (shows world.old)) }
    ensures memory { IfErr result (λ e. e ≡ Memory) }
{
    let answers = world.run(alloc, events)?;
    let mut text = Vec::new(alloc);
    push_lines(alloc, &mut text, answers.as_slice())?;
    push_shown(alloc, &mut text, world.master())?;
    Ok(text)
}

/// What is written for a script. Refuses `Memory` alone.
fn script_output(alloc: Global, script: Script) -> Result<Vec<u8>, Refusal>
    requires names { are_distinct (script.master ∷ script.workers) ≡ true }
    ensures ok { IfOk result (λ text. text.items ≡ run.output_of script) }
    ensures memory { IfErr result (λ e. e ≡ Memory) }
{
    let Script {
        master,
        workers,
        ticket,
        events,
    } = script;
    let mut world = World::new(alloc, master, workers, ticket)?;
    run_text(alloc, &mut world, events.into_vec())
}

/// What `world` writes for an input, or the first refusal of it: `NotJson`, `NotProfile`, `BadId`,
/// `BadText`, `ReservedStatus`, `DuplicateId`, `TooDeep`, `UnresolvedLink`, `SameName`; `Memory`
/// may come before any.
#[tactic(auto, using(crate::proofs::Names::names_apart))]
pub fn world_output(alloc: Global, input: Vec<u8>) -> Result<Vec<u8>, Refusal>
    ensures done { IfOk result (λ text. run.IsOutput input.items text.items false) }
    ensures refused { IfErr result (IsRefusalOf input.items) }
{
    let script = script_of(alloc, input.as_slice())?;
    drop(input);
    script_output(alloc, script)
}
