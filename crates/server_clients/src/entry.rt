use crate::note::Note;
use mio::net::TcpStream;
use peers::Client;
use std::net::SocketAddr;

/// One client of a server.
#[derive(Drop)]
pub struct Entry {
    pub address: SocketAddr,
    /// When it was accepted, in milliseconds.
    pub since: u64,
    /// Nothing while it waits for its response.
    pub client: Option<Client<TcpStream>>,
    /// Whether its connection is broken.
    pub is_gone: bool,
    /// What is told of its request, once it has its response.
    pub note: Option<Note>,
    /// Whether its line was written.
    pub is_told: bool,
    /// How many bytes are kept of it.
    pub held: usize,
}
