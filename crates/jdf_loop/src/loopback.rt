use std::net::{Net, OpenListener, OpenStream, SocketAddr, TcpListener, TcpStream};
use streams::Refused;

/// How many connections are accepted in search of one: more than may wait to be.
const MAX_ACCEPTED: u32 = 1_024;

/// A listener of this program on the loopback address, where it connects to itself.
#[derive(Drop)]
pub struct Loopback<'a, N: Net> {
    rt: &'a N,
    listener: N::Listener,
    address: SocketAddr,
}

impl<'a, N: Net> Loopback<'a, N> {
    ghost use Rattle.std.specs.Prelude.{◌≡◌, IfErr};
    ghost use Rattle.streams.specs.declared.refused.Refused.TheVariants.{NoConnection};

    /// A listener on a port of 127.0.0.1 that the system picks. Refuses `NoConnection`.
    pub fn open(rt: &'a N) -> Result<Loopback<'a, N>, Refused>
        ensures { IfErr result (λ e. e ≡ NoConnection) }
    {
        let Ok(listener) = TcpListener::bind(rt, "127.0.0.1:0") else {
            return Err(Refused::NoConnection);
        };
        match listener.local_addr() {
            Ok(address) => Ok(Loopback {
                rt,
                listener,
                address,
            }),
            Err(_) => Err(Refused::NoConnection),
        }
    }

    /// Both ends of a connection from this program to itself, the one that was made first. Refuses
    /// `NoConnection`.
    pub fn connect(&self) -> Result<(N::Stream, N::Stream), Refused>
        ensures { IfErr result (λ e. e ≡ NoConnection) }
    {
        let Ok(client) = TcpStream::connect(self.rt, self.address) else {
            return Err(Refused::NoConnection);
        };
        let Ok(own) = client.local_addr() else {
            return Err(Refused::NoConnection);
        };
        let server = self.accept_from(own)?;
        Ok((client, server))
    }

    /// The end of the connection from this address. Others that wait are closed: another program of
    /// the machine made them. Refuses `NoConnection`.
    fn accept_from(&self, own: SocketAddr) -> Result<N::Stream, Refused>
        ensures { IfErr result (λ e. e ≡ NoConnection) }
    {
        for _ in 0..MAX_ACCEPTED {
            match self.listener.accept() {
                Ok((server, peer)) if peer == own => return Ok(server),
                Ok(_) => {}
                Err(_) => return Err(Refused::NoConnection),
            }
        }
        Err(Refused::NoConnection)
    }
}
