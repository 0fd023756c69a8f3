//! Texts that go over HTTP, from this program to itself.

use crate::loopback::Loopback;
use http_edge::{read_request, receive, respond, send};
use std::alloc::Global;
use std::io::{Read, Write};
use std::net::{Net, OpenStream};
use stored_state::{OrderBytes, TakenBytes};
use streams::{Counted, Refused};
use world::Carrier;

/// What takes each text to its receiver by a request over HTTP, from this program to itself, and
/// what comes of it back by the response. A text counts as come only where it is the one that was
/// sent.
#[derive(Drop)]
pub struct Exchanges<'a, N: Net> {
    loopback: Loopback<'a, N>,
    open: Option<(N::Stream, N::Stream)>,
}

impl<'a, N: Net> Exchanges<'a, N> {
    ghost use Rattle.std.specs.Prelude.{◌≡◌, IfErr};
    ghost use Rattle.streams.specs.declared.refused.Refused.TheVariants.{NoConnection};

    /// Those over a listener of this program. Refuses `NoConnection`.
    pub fn open(rt: &'a N) -> Result<Exchanges<'a, N>, Refused>
        ensures { IfErr result (λ e. e ≡ NoConnection) }
    {
        match Loopback::open(rt) {
            Ok(loopback) => Ok(Exchanges {
                loopback,
                open: None,
            }),
            Err(refused) => Err(refused),
        }
    }
}

/// Sends a text through a connection, and tells whether just that came through it.
fn sends<S: OpenStream + Read + Write + Drop>(
    alloc: Global,
    client: &mut S,
    server: &S,
    text: &[u8],
) -> Result<bool, Refused> {
    send(&mut Counted::new(client), text)?;
    let Ok(reader) = server.try_clone() else {
        return Err(Refused::NoConnection);
    };
    let request = read_request(alloc, &mut Counted::new(reader))?;
    Ok(request.body.as_slice() == text)
}

/// What a step gave out, as it is told by a response.
fn told_of(alloc: Global, given: &OrderBytes) -> Result<TakenBytes, Refused> {
    let answer = match &given.message {
        None => None,
        Some(text) => Some(Vec::from_slice(alloc, text.as_slice())?),
    };
    Ok(TakenBytes {
        sender: None,
        reply: given.reply,
        answer,
    })
}

/// Responds through a connection, closes its end, and tells whether just that came through it.
fn responds<S: Read + Write + Drop>(
    alloc: Global,
    mut client: S,
    server: S,
    given: &OrderBytes,
) -> Result<bool, Refused> {
    let came = Ok(told_of(alloc, given)?);
    let told = respond(&mut Counted::new(server), &came);
    drop(came);
    if told.is_err() {
        return Err(Refused::WriteFailed);
    }
    let response = receive(alloc, &mut Counted::new(&mut client))?;
    match &given.message {
        None => Ok(response.body.as_slice().is_empty()),
        Some(text) => Ok(response.body.as_slice() == text.as_slice()),
    }
}

impl<'a, N: Net> Carrier for Exchanges<'a, N> {
    ghost use Rattle.std.specs.Prelude.{⊤, false};

    ghost is_direct = { false };

    ghost loses = { λ _. ⊤ };

    fn carry(&mut self, alloc: Global, text: &[u8]) -> Result<(), Refused> {
        let (mut client, server) = self.loopback.connect()?;
        if !sends(alloc, &mut client, &server, text)? {
            return Err(Refused::ReadFailed);
        }
        self.open = Some((client, server));
        Ok(())
    }

    fn carry_back(&mut self, alloc: Global, given: &OrderBytes) -> Result<(), Refused> {
        match self.open.take() {
            None => Err(Refused::NoConnection),
            Some((client, server)) => {
                if responds(alloc, client, server, given)? {
                    Ok(())
                } else {
                    Err(Refused::ReadFailed)
                }
            }
        }
    }
}
