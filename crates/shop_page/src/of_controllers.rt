//! What stands now of each controller, in the text that Prometheus reads.

ghost use Rattle.std.specs.Prelude.{◌≡◌, string_bytes, IfOk};
ghost use Rattle.shop_page.specs.Metrics as metrics;

use crate::label::label;
use crate::metrics::help;
use std::alloc::{AllocError, Global};

/// Of how many controllers it is told at most, one by one.
pub const MOST_CONTROLLERS: usize = 100;

/// How much work of a controller is open, and how its messages fare.
#[derive(Clone, Copy)]
pub struct OfController<'a> {
    /// The controller, as its file is named in what is served.
    pub controller: &'a str,
    /// What is out, waits without an answer, and was refused.
    pub out: usize,
    pub waiting: usize,
    pub refused: usize,
}

/// One of those.
#[derive(Clone, Copy)]
enum Gauge {
    Open,
    Waiting,
    Refused,
}

/// What stands of a controller.
fn value_of(gauge: Gauge, one: &OfController<'_>) -> usize
    ensures { result ≡ metrics.value_of gauge one.now }
{
    match gauge {
        Gauge::Open => one.out,
        Gauge::Waiting => one.waiting,
        Gauge::Refused => one.refused,
    }
}

/// The line of a controller.
fn line_of(alloc: Global, name: &str, controller: &str, value: u64) -> Result<String, AllocError>
    ensures { IfOk result (λ line. string_bytes line
        ≡ metrics.line_of name.now controller.now value) }
{
    let label = label(alloc, controller)?;
    format!(in alloc; "{name}{{controller=\"{label}\"}} {value}\n")
}

/// The lines of all.
fn lines_of(
    alloc: Global,
    name: &str,
    gauge: Gauge,
    all: &[OfController<'_>],
) -> Result<String, AllocError>
    ensures { IfOk result (λ made. string_bytes made
        ≡ metrics.lines_of name.now gauge all.now) }
{
    let mut lines = String::new(alloc);
    for one in all {
        let line = line_of(alloc, name, one.controller, value_of(gauge, one) as u64)?;
        lines.push_str(line.as_str())?;
    }
    Ok(lines)
}

/// A measure of all.
fn measure_of(
    alloc: Global,
    name: &str,
    text: &str,
    gauge: Gauge,
    all: &[OfController<'_>],
) -> Result<String, AllocError>
    ensures { IfOk result (λ made. string_bytes made
        ≡ metrics.measure_of name.now text.now gauge all.now) }
{
    let help = help(alloc, name, "gauge", text)?;
    let lines = lines_of(alloc, name, gauge, all)?;
    format!(in alloc; "{help}{lines}")
}

/// All measures of all.
fn measures_of(alloc: Global, all: &[OfController<'_>]) -> Result<String, AllocError>
    ensures { IfOk result (λ made. string_bytes made ≡ metrics.measures_of all.now) }
{
    let (out, waiting, refused) = (
        "Spawns and entries of a controller that are open.",
        "Messages of a controller that wait a minute or longer.",
        "Messages of a controller that were refused.",
    );
    let out = measure_of(alloc, "jdf_controller_open", out, Gauge::Open, all)?;
    let waiting = measure_of(
        alloc,
        "jdf_controller_waiting",
        waiting,
        Gauge::Waiting,
        all,
    )?;
    let refused = measure_of(
        alloc,
        "jdf_controller_refused",
        refused,
        Gauge::Refused,
        all,
    )?;
    format!(in alloc; "{out}{waiting}{refused}")
}

/// All measures of all, where these are few.
pub fn of_controllers(alloc: Global, all: &[OfController<'_>]) -> Result<String, AllocError>
    ensures { IfOk result (λ made. string_bytes made ≡ metrics.of_controllers all.now) }
{
    if all.len() <= MOST_CONTROLLERS {
        measures_of(alloc, all)
    } else {
        Ok(String::new(alloc))
    }
}
