//! What those who wait in lines are told.

ghost use Rattle.std.specs.Prelude.{◌≡◌, None, Some, IfOk, OnOk};
ghost use Rattle.rounds.specs.Parted.{IsParted};
ghost use Rattle.slab.specs.Slab.{Updates, get};
ghost use Rattle.server_clients.specs.Clients.{AreGivenBack, AreLetGo, AreMissed};
ghost use Rattle.server_clients.specs.Clients.{IsMissed, TellsMissing};
ghost use Rattle.server_clients.specs.Waiting.{RefusesLate, is_broken, is_gone as is_gone_in};

use crate::clients::Clients;
use crate::entry::Entry;
use crate::note::Note;
use crate::telling::GONE;
use http_edge::Served;
use http_message::missing_bytes;
use mio::net::TcpStream;
use rounds::{
    AnsweredClient, Errand, Parted, Room, WaitingClient, late_and_waiting, refuse_errands,
};
use slab::Slab;
use std::alloc::{AllocError, Global};
use std::io::Write;
use std::time::Clock;
use streams::Refused;

/// Whether a client's connection is broken.
fn is_gone(clients: &Slab<Entry>, key: usize) -> bool
    ensures { result ≡ is_broken (get clients.now key) }
{
    match clients.get(key) {
        Some(entry) => entry.is_gone,
        None => true,
    }
}

/// Those of a line who are there still, and those whose connections are broken.
pub fn gone_and_there(
    alloc: Global,
    errands: Vec<Errand<TcpStream>>,
    clients: &Slab<Entry>,
) -> Result<Parted<TcpStream>, AllocError>
    // Proved: Those of a line whose connections are broken are told from the others, both in their
    // order.
    ensures { IfOk result (λ parted. IsParted (is_gone_in clients.now) errands.items parted.0.items
        parted.1.items) }
{
    let mut there = Vec::with_capacity(alloc, errands.len())?;
    let mut gone = Vec::new(alloc);
    for one in errands {
        if is_gone(clients, one.waiting.key) {
            gone.push(one)?;
        } else {
            there.push(one)?;
        }
    }
    Ok((there, gone))
}

/// The number of the client with an errand.
fn key_of(errand: Errand<TcpStream>) -> usize
    ensures { result ≡ errand.waiting.key }
{
    errand.waiting.key
}

/// Who waits with an errand.
fn waiting_of(errand: Errand<TcpStream>) -> WaitingClient<TcpStream>
    ensures { result ≡ errand.waiting }
{
    errand.waiting
}

/// A client with the response that no such controller is there.
fn missing_response(
    alloc: Global,
    waiting: WaitingClient<TcpStream>,
    now: u64,
) -> Result<AnsweredClient<TcpStream>, AllocError>
    ensures { IfOk result (TellsMissing now waiting) }
{
    let WaitingClient { key, asked } = waiting;
    let response = missing_bytes(alloc)?;
    Ok(AnsweredClient {
        key,
        client: asked.answer(response.as_slice(), now).ok(),
        told: Served {
            status: 404,
            refusal: None,
        },
        taken: None,
    })
}

impl<'a, R: Clock, F: Write + Drop> Clients<'a, R, F> {
    /// Answers a client whose request is for no controller that is there.
    pub fn miss(&mut self, waiting: WaitingClient<TcpStream>) -> Result<(), AllocError>
        ensures clients { OnOk result (IsMissed self.old.now waiting self.old.all
            self.new.all) }
        ensures moment { self.new.now ≡ self.old.now }
    {
        let answered = missing_response(self.alloc, waiting, self.now)?;
        self.give_back(answered, None)
    }

    /// Answers each of these so.
    pub fn miss_all(&mut self, errands: Vec<Errand<TcpStream>>) -> Result<(), AllocError>
        ensures clients { OnOk result (AreMissed self.old.now errands.items self.old.all
            self.new.all) }
        ensures moment { self.new.now ≡ self.old.now }
    {
        for one in errands {
            self.miss(waiting_of(one))?;
        }
        Ok(())
    }

    /// Lets go of a client that went before its response.
    fn pass_over(&mut self, key: usize, path: String)
        ensures clients { Updates self.old.all self.new.all key None }
        ensures moment { self.new.now ≡ self.old.now }
    {
        let note = Note {
            path: Some(path),
            told: Served {
                status: GONE,
                refusal: None,
            },
            taken: None,
        };
        self.note_down(key, note);
        self.let_go(key);
    }

    /// Lets go of each of these clients.
    pub fn pass_over_all(
        &mut self,
        gone: Vec<Errand<TcpStream>>,
        path: &str,
    ) -> Result<(), AllocError>
        ensures clients { OnOk result (AreLetGo gone.items self.old.all self.new.all) }
        ensures moment { self.new.now ≡ self.old.now }
    {
        for one in gone {
            self.pass_over(key_of(one), String::from_str(self.alloc, path)?);
        }
        Ok(())
    }

    /// Refuses those of a line who waited as long as they may, and gives the rest.
    pub fn refuse_late(
        &mut self,
        errands: Vec<Errand<TcpStream>>,
        path: &str,
    ) -> Result<Vec<Errand<TcpStream>>, AllocError>
        // Proved: Those of a line who waited as long as they may are put back with 503, and the
        // others are told, both in their order.
        // By `clients`, `moment`.
        ensures clients { IfOk result (λ left. RefusesLate path.now self.old.now errands.items
            left.items self.old.all self.new.all) }
        ensures moment { self.new.now ≡ self.old.now }
    {
        let (left, late) = late_and_waiting(self.alloc, errands, self.now)?;
        let room = Room::new(self.alloc, late.len())?;
        let answered = refuse_errands(self.alloc, late, room, Refused::LoadFailed, self.now);
        self.give_back_all(answered, path)?;
        Ok(left)
    }

    /// Puts clients back that have their responses.
    pub fn give_back_all(
        &mut self,
        answered: Vec<AnsweredClient<TcpStream>>,
        path: &str,
    ) -> Result<(), AllocError>
        // Proved: In turn, each who was answered is put back with its response; each whose request
        // is for no controller that is there is put back with 404; and each who went is let go:
        // under its own number, and no other client changes.
        // By `clients`, `moment`; `Clients::miss`, `Clients::miss_all`, `Clients::pass_over_all`:
        // `clients`, `moment`.
        ensures clients { OnOk result (AreGivenBack (Some path.now) answered.items self.old.all
            self.new.all) }
        ensures moment { self.new.now ≡ self.old.now }
    {
        for one in answered {
            self.give_back(one, Some(String::from_str(self.alloc, path)?))?;
        }
        Ok(())
    }
}
