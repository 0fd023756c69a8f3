//! A walk through a document, which tells the places of one refusal.

use crate::lines::Lines;
use crate::place::Place;
use crate::quoted::QuotedText;
use std::alloc::{AllocError, Global};
use std::fmt;
use ticket_items::{Refusal, is_name};

/// A step from a value to one in it.
#[derive(Clone, Copy)]
pub(crate) enum Step<'a> {
    /// To what stands under a name.
    Member(&'a str),
    /// To an item.
    Item(usize),
}

/// What the rules are about, beside a ticket.
#[derive(Clone, Copy, PartialEq, Eq)]
pub(crate) enum Setting {
    /// A ticket, and what stands beside it.
    Ticket,
    /// A part.
    Part,
    /// A JMF object.
    Message,
}

/// A walk.
#[derive(Drop)]
pub(crate) struct Walk<'a> {
    pub alloc: Global,
    /// The refusal whose places are told.
    wanted: Refusal,
    /// How many places are told at most.
    limit: usize,
    /// The steps from the whole to the value at hand.
    pub steps: Vec<Step<'a>>,
    pub setting: Setting,
    lines: Lines,
    places: Vec<Place>,
}

/// Steps, as a path is written.
#[derive(Clone, Copy)]
struct Path<'w, 'a>(&'w [Step<'a>]);

impl fmt::Display for Path<'_, '_> {
    fn fmt<W: fmt::Write>(&self, f: &mut fmt::Formatter<W>) -> fmt::Result {
        let mut is_first = true;
        for step in self.0 {
            match step {
                Step::Item(index) => write!(f, "[{index}]")?,
                Step::Member(name) => {
                    if !is_first {
                        f.write_str(".")?;
                    }
                    write_name(f, name)?;
                }
            }
            is_first = false;
        }
        if is_first { f.write_str(".") } else { Ok(()) }
    }
}

/// Writes a name, between quotes where it isn't one.
fn write_name<W: fmt::Write>(f: &mut fmt::Formatter<W>, name: &str) -> fmt::Result {
    if is_name(name) {
        f.write_str(name)
    } else {
        write!(f, "{}", QuotedText(name))
    }
}

impl<'a> Walk<'a> {
    /// A walk that begins at the whole, and tells at most so many places of a refusal.
    pub(crate) fn new(alloc: Global, wanted: Refusal, limit: usize, lines: Lines) -> Walk<'a> {
        Walk {
            alloc,
            wanted,
            limit,
            steps: Vec::new(alloc),
            setting: Setting::Ticket,
            lines,
            places: Vec::new(alloc),
        }
    }

    /// Whether the places of a refusal are told, and one more may be.
    pub(crate) fn seeks(&self, refusal: Refusal) -> bool {
        self.wanted == refusal && self.places.len() < self.limit
    }

    /// The steps to the value at hand, as a path is written.
    pub(crate) fn path(&self) -> Result<String, AllocError> {
        format!(in self.alloc; "{}", Path(self.steps.as_slice()))
    }

    /// Tells that this is wrong with the value at hand, which begins at a byte.
    pub(crate) fn tell(&mut self, at: usize, what: &str) -> Result<(), AllocError> {
        let text = format!(in self.alloc; "{}: {what}", Path(self.steps.as_slice()))?;
        self.tell_text(at, text)
    }

    /// The same, of no value.
    pub(crate) fn tell_text(&mut self, at: usize, text: String) -> Result<(), AllocError> {
        let (line, column) = self.lines.place_of(at);
        self.places.push(Place { line, column, text })?;
        Ok(())
    }

    /// Steps to what stands under a name.
    pub(crate) fn enter(&mut self, name: &'a str) -> Result<(), AllocError> {
        self.steps.push(Step::Member(name))?;
        Ok(())
    }

    /// Steps to an item.
    pub(crate) fn enter_item(&mut self, index: usize) -> Result<(), AllocError> {
        self.steps.push(Step::Item(index))?;
        Ok(())
    }

    /// Steps back.
    pub(crate) fn leave(&mut self) {
        self.steps.pop();
    }

    /// The places that were told.
    pub(crate) fn into_places(self) -> Vec<Place> {
        self.places
    }
}
