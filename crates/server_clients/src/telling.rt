//! The lines of the log.

ghost use Rattle.std.specs.Prelude.{◌≡◌, true};
ghost use Rattle.std.specs.Option.{option_map};
ghost use Rattle.slab.specs.Slab.{get};
ghost use Rattle.server_clients.specs.Clients.{Changes};

use crate::clients::Clients;
use crate::entry::Entry;
use crate::note::Note;
use http_edge::Served;
use journal::{FileJournal, seconds};
use mio::net::UnixStream;
use rounds::{AnsweredOperator, Receipt};
use shop_folder::{Place, name_of};
use std::alloc::{AllocError, Global};
use std::io::Write;
use std::mem;
use std::rt::Files;
use std::time::Clock;
use streams::Refused;
use ticket_items::SpawnId;
use world_items::{Answer, Word};
use world_script::answer_text;

/// The status that is told of a request whose client went before the response (our own, as nginx
/// tells it). No response has it.
pub(crate) const GONE: u16 = 499;

/// What a message was taken as and from whom, or the refusal that was met, behind a space; nothing
/// of neither.
fn what_text(
    alloc: Global,
    taken: &Option<Receipt>,
    refusal: Option<Refused>,
) -> Result<String, AllocError> {
    if let Some(refused) = &refusal {
        let name = refused.name();
        let number = refused.number();
        return format!(in alloc; " {number} {name}");
    }
    match taken {
        Some(taken) => {
            let answer = Answer {
                word: Word::of(Ok(taken.reply)),
                number: None,
            };
            let text = answer_text(alloc, &answer)?;
            let sender = taken.sender.as_str();
            format!(in alloc; " {text} from {sender}")
        }
        None => Ok(String::new(alloc)),
    }
}

/// What is told of a request: its controller, the status of its response, and what came of it.
fn note_text(
    alloc: Global,
    place: &Place<'_>,
    note: &Note,
    is_written: bool,
) -> Result<String, AllocError> {
    let name = match &note.path {
        Some(path) => name_of(place, path.as_str()),
        None => "-",
    };
    let Served { status, refusal } = note.told;
    if !is_written && status != GONE {
        return format!(in alloc; "{name} no response");
    }
    let what = what_text(alloc, &note.taken, refusal)?;
    format!(in alloc; "{name} {status}{what}")
}

/// What is told of a client.
fn entry_text(
    alloc: Global,
    place: &Place<'_>,
    entry: &Entry,
    is_written: bool,
) -> Result<String, AllocError> {
    match &entry.note {
        Some(note) => note_text(alloc, place, note, is_written),
        None => format!(in alloc; "- no request"),
    }
}

/// The line of a client: the time in seconds since 1970, its address, what is told of it, and how
/// many milliseconds it was there.
fn line_of(
    alloc: Global,
    at: Option<u64>,
    place: &Place<'_>,
    entry: &Entry,
    is_written: bool,
    now: u64,
) -> Result<String, AllocError> {
    let text = entry_text(alloc, place, entry, is_written)?;
    let address = &entry.address;
    let time = now.saturating_sub(entry.since);
    match at {
        Some(seconds) => format!(in alloc; "{seconds} {address} {text} {time} ms\n"),
        None => format!(in alloc; "- {address} {text} {time} ms\n"),
    }
}

/// The line of an order.
fn order_line(
    alloc: Global,
    at: u64,
    name: &str,
    ordered: &AnsweredOperator<UnixStream>,
) -> Result<String, AllocError> {
    let Served { status, refusal } = ordered.told;
    if let Some(refused) = &refusal {
        let number = refused.number();
        let refused = refused.name();
        return format!(in alloc; "{at} order {name} {status} {number} {refused}\n");
    }
    match ordered.reply {
        Some(reply) => {
            let answer = Answer {
                word: Word::of(Ok(reply)),
                number: None,
            };
            let text = answer_text(alloc, &answer)?;
            format!(in alloc; "{at} order {name} {status} {text}\n")
        }
        None => format!(in alloc; "{at} order {name} {status}\n"),
    }
}

impl<'a, R: Clock, F: Write + Drop> Clients<'a, R, F> {
    /// Writes the line of a client, once: as its response was written whole, or as it is let go.
    pub(crate) fn tell(&mut self, key: usize, is_written: bool)
        ensures clients { Changes (λ e. record e { is_told = true }) key self.old.all
            self.new.all }
        ensures kept { option_map (λ e. e.held) (get self.new.all key)
            ≡ option_map (λ e. e.held) (get self.old.all key) }
        ensures held { self.new.held ≡ self.old.held }
        ensures moment { self.new.now ≡ self.old.now }
    {
        let at = seconds(self.rt);
        let Some(entry) = self.all.get_mut(key) else {
            return;
        };
        if mem::replace(&mut entry.is_told, true) {
            return;
        }
        if let Some(note) = &entry.note {
            self.counts.note_status(note.told.status);
        }
        match line_of(self.alloc, at, &self.place, entry, is_written, self.now) {
            Ok(line) => self.log.push(line.as_str()),
            Err(_) => self.log.drop_line(),
        }
    }

    /// Writes the line of an order: the time, `order`, its controller, the status of the response,
    /// and what it was taken as or the refusal that was met.
    pub fn tell_order(&mut self, path: &str, ordered: &AnsweredOperator<UnixStream>)
        // Proved: A line of the log changes no client.
        // By `clients`, `moment`; `Clients::tell_missed`, `Clients::tell_parcel`: `clients`,
        // `moment`.
        ensures clients { self.new.all ≡ self.old.all }
        ensures moment { self.new.now ≡ self.old.now }
    {
        let at = seconds(self.rt).unwrap_or(0);
        self.counts.note_status(ordered.told.status);
        let name = name_of(&self.place, path);
        match order_line(self.alloc, at, name, ordered) {
            Ok(line) => self.log.push(line.as_str()),
            Err(AllocError) => self.log.drop_line(),
        }
    }

    /// Writes that lines aren't in the journal, if there are such.
    pub fn tell_missed<T: Files>(&mut self, journal: &FileJournal<'_, T>)
        ensures clients { self.new.all ≡ self.old.all }
        ensures moment { self.new.now ≡ self.old.now }
    {
        match journal.note(self.alloc) {
            Ok(Some(note)) => self.log.push(note.as_str()),
            Ok(None) => {}
            Err(AllocError) => self.log.drop_line(),
        }
    }

    /// Writes the line of something that went out by itself: the time, its controller, its spawn,
    /// its destination, and what came of it.
    pub fn tell_parcel(&mut self, path: &str, url: &str, spawn: SpawnId, what: &str)
        ensures clients { self.new.all ≡ self.old.all }
        ensures moment { self.new.now ≡ self.old.now }
    {
        let at = seconds(self.rt).unwrap_or(0);
        let name = name_of(&self.place, path);
        let number = spawn.number();
        match format!(in self.alloc; "{at} {name} S{number} to http://{url} {what}\n") {
            Ok(line) => self.log.push(line.as_str()),
            Err(_) => self.log.drop_line(),
        }
    }
}
