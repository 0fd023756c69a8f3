//! A picture for a wall: what is out as cards, and below it nodes in columns.

ghost use Rattle.std.specs.Prelude.{◌≡◌, ◌≤◌, ◌++◌, length, map, string_bytes, take, IfOk, OnOk};
ghost use Rattle.std.specs.List.{filter};
ghost use Rattle.job_picture.specs.Rows.{line_of};
ghost use Rattle.job_picture.specs.Wall as wall;

use crate::moments::moment_text;
use crate::node_line::NodeLine;
use crate::progress::Progress;
use crate::style::STYLE;
use crate::svg::{label, placed_drawing, shape};
use std::alloc::{AllocError, Global};

/// How many cards there is room for.
const MOST_CARDS: usize = 24;

/// What stands in the row of each node behind its name.
const LEGEND: &str = "Status, spawn, and how many resources are available of how many";

/// How far down the nodes begin below so many cards.
fn nodes_top(cards: usize) -> u32
    ensures value { result ≡ wall.nodes_top cards }
    ensures most { result ≤ 928 }
{
    let cards = if cards <= MOST_CARDS {
        cards
    } else {
        MOST_CARDS
    };
    184 + 124 * ((cards as u32 + 3) / 4)
}

/// How many nodes there is room for below so many cards.
fn room_below(cards: usize) -> usize
    ensures { result ≡ wall.room_below cards }
{
    3 * ((1070 - nodes_top(cards)) / 27) as usize
}

/// How many nodes stand in a column of three in which so many are spread.
fn column_rows(count: usize) -> u64
    ensures value { result ≡ wall.column_rows count }
    ensures some { 1 ≤ result }
{
    count.saturating_sub(1) as u64 / 3 + 1
}

/// How many nodes are so far.
fn count_of(progress: Progress, lines: &[NodeLine]) -> usize
    ensures { result ≡ wall.count_of progress (map line_of lines.now) }
{
    let mut count = 0;
    for line in lines {
        if line.progress.shape() == progress.shape() {
            count += 1;
        }
    }
    count
}

/// How many nodes there is still work on.
fn count_undone(lines: &[NodeLine]) -> usize
    ensures { result ≡ length (filter wall.is_line_undone (map line_of lines.now)) }
{
    let mut count = 0;
    for line in lines {
        if line.progress.is_undone() {
            count += 1;
        }
    }
    count
}

/// How many nodes are so far, in words, with their shape.
fn tally(
    alloc: Global,
    progress: Progress,
    words: &str,
    x: u32,
    lines: &[NodeLine],
) -> Result<String, AllocError>
    ensures { IfOk result (λ made. string_bytes made
        ≡ wall.tally progress words.now x (wall.count_of progress (map line_of lines.now))) }
{
    let count = count_of(progress, lines);
    let x = u64::from(x);
    let mark = shape(alloc, progress.shape(), x, 76)?;
    let text = format!(in alloc; "{count} {words}")?;
    let text = label(alloc, "n", x + 28, 94, text.as_str())?;
    format!(in alloc; "{mark}{text}")
}

/// Those of nodes that wait, are in progress, are completed and were aborted.
fn tallies(alloc: Global, lines: &[NodeLine]) -> Result<String, AllocError>
    ensures { IfOk result (λ made. string_bytes made ≡ wall.tallies (map line_of lines.now)) }
{
    let waiting = tally(alloc, Progress::Waiting, "waiting", 30, lines)?;
    let begun = tally(alloc, Progress::InProgress, "in progress", 230, lines)?;
    let completed = tally(alloc, Progress::Completed, "completed", 460, lines)?;
    let aborted = tally(alloc, Progress::Aborted, "aborted", 690, lines)?;
    format!(in alloc; "{waiting}{begun}{completed}{aborted}")
}

/// How many are left out where there is room for so many, in words; nothing where none is.
#[tactic(auto, unfolding(crate::specs::Wall::count_left_out))]
fn count_left_out(
    alloc: Global,
    room: usize,
    count: usize,
    words: &str,
) -> Result<String, AllocError>
    ensures { IfOk result (λ made. string_bytes made ≡ wall.count_left_out room count words.now) }
{
    if count <= room {
        return Ok(String::new(alloc));
    }
    let others = count - room;
    format!(in alloc; ", {others} {words}")
}

/// What stands above the cards.
fn cards_heading(alloc: Global, words: &str, count: usize) -> Result<String, AllocError>
    ensures { IfOk result (λ made. string_bytes made ≡ wall.cards_heading words.now count) }
{
    let others = count_left_out(alloc, MOST_CARDS, count, "without room here")?;
    let text = format!(in alloc; "{words}: {count}{others}")?;
    label(alloc, "h", 30, 136, text.as_str())
}

/// How many nodes are folded, since they are done and there is no room for all, in words.
#[tactic(auto, unfolding(crate::specs::Wall::folded_words))]
fn folded_words(
    alloc: Global,
    room: usize,
    count: usize,
    undone: usize,
) -> Result<String, AllocError>
    ensures { IfOk result (λ made. string_bytes made ≡ wall.folded_words room count undone) }
{
    if count <= room {
        return Ok(String::new(alloc));
    }
    let done = count.saturating_sub(undone);
    format!(in alloc; ", {done} folded (completed or aborted)")
}

/// How many nodes there are, how many of them are done and so are folded, and how many others have
/// no room, in words.
fn nodes_words(
    alloc: Global,
    room: usize,
    count: usize,
    undone: usize,
) -> Result<String, AllocError>
    ensures { IfOk result (λ made. string_bytes made ≡ wall.nodes_words room count undone) }
{
    let folded = folded_words(alloc, room, count, undone)?;
    let others = count_left_out(alloc, room, undone, "more without room here")?;
    format!(in alloc; "Nodes: {count}{folded}{others}")
}

/// What stands above the nodes: these words, and what is told of each.
fn nodes_heading(alloc: Global, top: u32, words: &str) -> Result<String, AllocError>
    ensures { IfOk result (λ made. string_bytes made ≡ wall.nodes_heading top words.now) }
{
    let y = u64::from(top.saturating_sub(14));
    let heading = label(alloc, "h", 30, y, words)?;
    let legend = label(alloc, "s e", 1890, y, LEGEND)?;
    format!(in alloc; "{heading}{legend}")
}

/// The moment when it was drawn.
fn drawn_text(alloc: Global, now: u64) -> Result<String, AllocError>
    ensures { IfOk result (λ made. string_bytes made ≡ wall.drawn_text now) }
{
    let moment = moment_text(alloc, now)?;
    let text = format!(in alloc; "Drawn {moment}")?;
    label(alloc, "n e", 1890, 52, text.as_str())
}

/// What stands in front.
fn head(alloc: Global, title: &str, drawn: &str) -> Result<String, AllocError>
    ensures { IfOk result (λ made. string_bytes made ≡ wall.head title.now drawn.now) }
{
    let text = label(alloc, "t", 30, 52, title)?;
    format!(in alloc;
        "<svg xmlns='http://www.w3.org/2000/svg' viewBox='0 0 1920 1080'>\n\
        <title>{title}</title>\n{STYLE}<rect width='1920' height='1080' fill='#fff'/>\n\
        {text}{drawn}\n"
    )
}

/// Appends cards, each in its place.
fn push_placed_cards(alloc: Global, text: &mut Vec<u8>, cards: &[String]) -> Result<(), AllocError>
    ensures { OnOk result (text.new.items
        ≡ text.old.items ++ wall.placed_cards (map string_bytes cards.now)) }
{
    for (number, card) in cards.iter().enumerate() {
        let number = number as u64;
        let x = 30 + 470 * (number % 4);
        let y = 148 + 124 * (number / 4);
        text.extend_from_slice(placed_drawing(alloc, x, y, card.as_str())?.as_bytes())?;
    }
    Ok(())
}

/// The cards that there is room for.
fn first_cards(cards: &[String]) -> &[String]
    ensures { result.now ≡ take wall.most_cards cards.now }
{
    if cards.len() <= MOST_CARDS {
        cards
    } else {
        &cards[..MOST_CARDS]
    }
}

/// Appends the cards that there is room for, each in its place.
fn push_first_cards(alloc: Global, text: &mut Vec<u8>, cards: &[String]) -> Result<(), AllocError>
    ensures { OnOk result (text.new.items ≡ text.old.items
        ++ wall.placed_cards (take wall.most_cards (map string_bytes cards.now))) }
{
    push_placed_cards(alloc, text, first_cards(cards))
}

/// Appends the cards below their heading.
#[tactic(auto, unfolding(crate::specs::Wall::cards_part))]
fn push_cards(
    alloc: Global,
    text: &mut Vec<u8>,
    words: &str,
    cards: &[String],
) -> Result<(), AllocError>
    ensures { OnOk result (text.new.items
        ≡ text.old.items ++ wall.cards_part words.now (map string_bytes cards.now)) }
{
    text.extend_from_slice(cards_heading(alloc, words, cards.len())?.as_bytes())?;
    text.push(b'\n')?;
    push_first_cards(alloc, text, cards)
}

/// Leaves the lines of what isn't done alone.
fn fold_done(lines: &mut Vec<NodeLine>)
    ensures { map line_of lines.new.items
        ≡ filter wall.is_line_undone (map line_of lines.old.items) }
{
    lines.retain(|line| line.progress.is_undone());
}

/// The lines of what isn't done that there is room for.
fn undone_lines(mut lines: Vec<NodeLine>, room: usize) -> Vec<NodeLine>
    ensures { map line_of result.items
        ≡ take room (filter wall.is_line_undone (map line_of lines.items)) }
{
    fold_done(&mut lines);
    lines.truncate(room);
    lines
}

/// The lines that are drawn where there is room for so many: all, or those of what isn't done.
fn drawn_lines(lines: Vec<NodeLine>, room: usize) -> Vec<NodeLine>
    ensures { map line_of result.items ≡ wall.drawn_lines room (map line_of lines.items) }
{
    if lines.as_slice().len() <= room {
        return lines;
    }
    undone_lines(lines, room)
}

/// Appends lines, each in its place, from a height on.
fn push_placed_lines(
    alloc: Global,
    text: &mut Vec<u8>,
    top: u32,
    lines: &[NodeLine],
) -> Result<(), AllocError>
    ensures { OnOk result (text.new.items
        ≡ text.old.items ++ wall.placed_lines top (map line_of lines.now)) }
{
    let rows = column_rows(lines.len());
    for (number, line) in lines.iter().enumerate() {
        let number = number as u64;
        let x = 30 + 627 * (number / rows);
        let y = u64::from(top) + 27 * (number % rows);
        text.extend_from_slice(placed_drawing(alloc, x, y, line.text.as_str())?.as_bytes())?;
    }
    Ok(())
}

/// Appends the nodes below their heading, from a height on, where there is room for so many.
#[tactic(auto, unfolding(crate::specs::Wall::nodes_part))]
fn push_nodes(
    alloc: Global,
    text: &mut Vec<u8>,
    top: u32,
    room: usize,
    lines: Vec<NodeLine>,
) -> Result<(), AllocError>
    ensures { OnOk result (text.new.items
        ≡ text.old.items ++ wall.nodes_part top room (map line_of lines.items)) }
{
    let count = lines.as_slice().len();
    let undone = count_undone(lines.as_slice());
    let words = nodes_words(alloc, room, count, undone)?;
    let heading = nodes_heading(alloc, top, words.as_str())?;
    text.extend_from_slice(heading.as_bytes())?;
    text.push(b'\n')?;
    push_placed_lines(alloc, text, top, drawn_lines(lines, room).as_slice())
}

/// What stands above the cards and the nodes.
fn wall_head(
    alloc: Global,
    now: u64,
    title: &str,
    closed: &str,
    lines: &[NodeLine],
) -> Result<String, AllocError>
    ensures { IfOk result (λ made. string_bytes made
        ≡ wall.wall_head now title.now closed.now (map line_of lines.now)) }
{
    let drawn = drawn_text(alloc, now)?;
    let head = head(alloc, title, drawn.as_str())?;
    let tallies = tallies(alloc, lines)?;
    let closed = label(alloc, "n e", 1890, 94, closed)?;
    format!(in alloc; "{head}{tallies}{closed}\n")
}

/// Appends a picture of a title at a moment, in seconds since 1970: what is closed, in words; what
/// is open, in words and as cards; and nodes. It is 1,920 by 1,080 whatever there is to be drawn:
/// where there isn't room for all nodes, those that are done are left out and counted, and so are
/// others that have no room then.
#[tactic(auto, unfolding(crate::specs::Wall::wall))]
pub fn push_wall(
    alloc: Global,
    text: &mut Vec<u8>,
    now: u64,
    title: &str,
    closed: &str,
    words: &str,
    cards: &[String],
    lines: Vec<NodeLine>,
) -> Result<(), AllocError>
    ensures { OnOk result (text.new.items ≡ text.old.items
        ++ wall.wall now title.now closed.now words.now (map string_bytes cards.now)
        (map line_of lines.items)) }
{
    let upper = wall_head(alloc, now, title, closed, lines.as_slice())?;
    text.extend_from_slice(upper.as_bytes())?;
    push_cards(alloc, text, words, cards)?;
    let top = nodes_top(cards.len());
    push_nodes(alloc, text, top, room_below(cards.len()), lines)?;
    text.extend_from_slice(b"</svg>\n")
}
