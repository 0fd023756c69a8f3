ghost use Rattle.std.specs.Prelude.{◌≡◌};
ghost use Rattle.listeners.specs.Limits.{guest_limits};

use crate::listener::{GuestListener, Listener};
use http_message::Methods;
use mio::net::{UnixListener, UnixStream};
use mio::{Interest, Registry, Token};
use peers::Limits;
use std::fs::{self, Permissions};
use std::io::{self, ErrorKind};
use std::net::Net;
use std::os::unix::fs::{FileTypeExt, PermissionsExt};
use std::rt::Files;

/// How many bytes an order has at most.
const MOST_BYTES: u32 = 4_194_304;

/// Who may open the socket: its owner.
const MODE: u32 = 0o600;

/// Where orders come over a local socket, from those who may open it; they may look, too.
#[derive(Drop)]
pub struct OrderListener {
    pub listener: UnixListener,
}

/// Removes a socket on which nobody listens any more. Refuses where somebody does, and where
/// something else lies there.
fn remove_left<R: Files + Net>(rt: &R, path: &str) -> io::Result<()> {
    match fs::symlink_metadata(rt, path) {
        Ok(there) if there.file_type().is_socket() => {}
        Ok(_) => return Err(io::Error::from(ErrorKind::AlreadyExists)),
        Err(error) if error.kind() == ErrorKind::NotFound => return Ok(()),
        Err(error) => return Err(error),
    }
    match UnixStream::connect(rt, path) {
        Err(error) if error.kind() == ErrorKind::ConnectionRefused => fs::remove_file(rt, path),
        Err(error) => Err(error),
        Ok(_) => Err(io::Error::from(ErrorKind::AddrInUse)),
    }
}

/// Lets go of those who came before the socket was its owner's alone.
fn empty(listener: &UnixListener) {
    for _ in 0..u16::MAX {
        if listener.accept().is_err() {
            return;
        }
    }
}

impl OrderListener {
    /// One on a local socket of this path that its owner alone may open, in place of one that was
    /// left there. Refuses where somebody listens there, and where something else lies there.
    pub fn at<R: Files + Net>(rt: &R, path: &str) -> io::Result<OrderListener> {
        remove_left(rt, path)?;
        let listener = UnixListener::bind(rt, path)?;
        fs::set_permissions(rt, path, Permissions::from_mode(MODE))?;
        empty(&listener);
        Ok(OrderListener { listener })
    }
}

impl Listener for OrderListener {
    ghost use Rattle.http_message.specs.declared.methods.Methods.TheVariants.{PostOrGet};

    ghost methods = { PostOrGet };

    fn limits(&self) -> Limits
        ensures { result ≡ guest_limits PostOrGet 4_194_304 }
    {
        Limits {
            methods: Methods::PostOrGet,
            request: 5_000,
            step: 30_000,
            write: 10_000,
            linger: 1_000,
            spare: 16_384,
            body: MOST_BYTES,
        }
    }

    fn register(&mut self, registry: &Registry, token: usize) -> io::Result<()> {
        registry.register(&mut self.listener, Token(token), Interest::READABLE)
    }
}

impl GuestListener for OrderListener {
    type Stream = UnixStream;

    fn accept(&self) -> io::Result<UnixStream> {
        let (stream, _) = self.listener.accept()?;
        Ok(stream)
    }
}
