//! What a server counts, in the text that Prometheus reads.

ghost use Rattle.std.specs.Prelude.{◌≡◌, ◌≤◌, length, string_bytes, IfOk};
ghost use Rattle.shop_page.specs.Metrics as metrics;

use crate::counts::{Counts, STATUSES};
use crate::of_controllers::{OfController, of_controllers};
use std::alloc::{AllocError, Global};

/// What stands now.
#[derive(Clone, Copy)]
pub struct Gauges {
    /// The clients that are held.
    pub clients: usize,
    /// The controllers that were read.
    pub controllers: usize,
    /// The files that hold no controller of their name.
    pub unread: usize,
    /// What is out, waits without an answer, and was refused.
    pub out: usize,
    pub waiting: usize,
    pub refused: usize,
}

/// What a measure is, and its kind.
pub(crate) fn help(alloc: Global, name: &str, kind: &str, text: &str) -> Result<String, AllocError>
    ensures { IfOk result (λ lines. string_bytes lines
        ≡ metrics.help name.now kind.now text.now) }
{
    format!(in alloc; "# HELP {name} {text}\n# TYPE {name} {kind}\n")
}

/// A measure with one value.
fn measure(
    alloc: Global,
    name: &str,
    kind: &str,
    text: &str,
    value: u64,
) -> Result<String, AllocError>
    ensures { IfOk result (λ lines. string_bytes lines
        ≡ metrics.measure name.now kind.now text.now value) }
{
    let help = help(alloc, name, kind, text)?;
    format!(in alloc; "{help}{name} {value}\n")
}

/// How many requests were answered with a status.
fn status_line(alloc: Global, status: u16, count: u64) -> Result<String, AllocError>
    ensures { IfOk result (λ line. string_bytes line ≡ metrics.status_line status count) }
{
    format!(in alloc; "jdf_requests_total{{code=\"{status}\"}} {count}\n")
}

/// A line for each status, with the count in its place.
fn status_lines(alloc: Global, statuses: &[u16], counts: &[u64]) -> Result<String, AllocError>
    requires { length statuses.now ≤ length counts.now }
    ensures { IfOk result (λ made. string_bytes made
        ≡ metrics.status_lines statuses.now counts.now) }
{
    let mut lines = String::new(alloc);
    for (place, status) in statuses.iter().enumerate() {
        let line = status_line(alloc, *status, counts[place])?;
        lines.push_str(line.as_str())?;
    }
    Ok(lines)
}

/// The requests by their statuses.
fn requests_text(alloc: Global, counts: &Counts) -> Result<String, AllocError>
    ensures { IfOk result (λ made. string_bytes made ≡ metrics.requests_text counts.now) }
{
    let help = help(
        alloc,
        "jdf_requests_total",
        "counter",
        "Requests that were answered, by status.",
    )?;
    let lines = status_lines(alloc, &STATUSES, &counts.requests)?;
    format!(in alloc; "{help}{lines}")
}

/// A number of milliseconds, in seconds.
fn seconds(alloc: Global, time: u64) -> Result<String, AllocError>
    ensures { IfOk result (λ made. string_bytes made ≡ metrics.seconds time) }
{
    let whole = time / 1_000;
    let rest = time % 1_000;
    let hundreds = rest / 100;
    let tens = rest / 10 % 10;
    let ones = rest % 10;
    format!(in alloc; "{whole}.{hundreds}{tens}{ones}")
}

/// How long the turns took, and how many there were.
fn turns_text(alloc: Global, counts: &Counts) -> Result<String, AllocError>
    ensures { IfOk result (λ made. string_bytes made ≡ metrics.turns_text counts.now) }
{
    let help = help(
        alloc,
        "jdf_turn_seconds",
        "summary",
        "Turns of a controller, in which its steps are made and saved.",
    )?;
    let seconds = seconds(alloc, counts.turns_time)?;
    let turns = counts.turns;
    format!(in alloc; "{help}jdf_turn_seconds_sum {seconds}\njdf_turn_seconds_count {turns}\n")
}

/// A measure of what stands now.
fn gauge(alloc: Global, name: &str, help: &str, value: usize) -> Result<String, AllocError>
    ensures { IfOk result (λ made. string_bytes made ≡ metrics.gauge name.now help.now value) }
{
    measure(alloc, name, "gauge", help, value as u64)
}

/// How many clients, controllers and other files there are.
fn holdings_text(alloc: Global, gauges: &Gauges) -> Result<String, AllocError>
    ensures { IfOk result (λ made. string_bytes made ≡ metrics.holdings_text gauges.now) }
{
    let held = "Clients that are held.";
    let read = "Controllers that were read.";
    let unread = "Files that hold no controller of their name.";
    let held = gauge(alloc, "jdf_clients", held, gauges.clients)?;
    let read = gauge(alloc, "jdf_controllers", read, gauges.controllers)?;
    let unread = gauge(alloc, "jdf_unread_files", unread, gauges.unread)?;
    format!(in alloc; "{held}{read}{unread}")
}

/// How much work is open, and how its messages fare.
fn works_text(alloc: Global, gauges: &Gauges) -> Result<String, AllocError>
    ensures { IfOk result (λ made. string_bytes made ≡ metrics.works_text gauges.now) }
{
    let open = "Spawns and entries that are open.";
    let waiting = "Messages that wait a minute or longer.";
    let refused = "Messages that were refused.";
    let open = gauge(alloc, "jdf_open", open, gauges.out)?;
    let waiting = gauge(alloc, "jdf_waiting", waiting, gauges.waiting)?;
    let refused = gauge(alloc, "jdf_refused", refused, gauges.refused)?;
    format!(in alloc; "{open}{waiting}{refused}")
}

/// What a server counts and what stands now, in all and of each controller where these are few, in
/// the text form of Prometheus (0.0.4).
pub fn metrics_text(
    alloc: Global,
    counts: &Counts,
    gauges: &Gauges,
    each: &[OfController<'_>],
) -> Result<String, AllocError>
    // Proved: What is counted is told in Prometheus's text, byte by byte. A count goes as far as
    // 64 bits do, and stays there; a request counts under its own status, where that is one that
    // is counted, and no other count changes.
    // By `Counts::new`, `Counts::note_status`, `Counts::note_turn`, `Counts::note_save`.
    ensures { IfOk result (λ made. string_bytes made
        ≡ metrics.metrics_text counts.now gauges.now each.now) }
{
    let help = "Saves of a controller's state.";
    let requests = requests_text(alloc, counts)?;
    let turns = turns_text(alloc, counts)?;
    let saves = measure(alloc, "jdf_saves_total", "counter", help, counts.saves)?;
    let holdings = holdings_text(alloc, gauges)?;
    let works = works_text(alloc, gauges)?;
    let each = of_controllers(alloc, each)?;
    format!(in alloc; "{requests}{turns}{saves}{holdings}{works}{each}")
}
