use mio::event::Source;
use mio::net::{TcpStream, UnixStream};
use std::io::{Read, Write};
use std::net::Shutdown;

/// The stream of somebody who comes.
pub trait Wire: Read + Write + Source + Drop {
    /// Nothing more is written.
    fn end(&self);
}

impl Wire for TcpStream {
    fn end(&self) {
        let _ = self.shutdown(Shutdown::Write);
    }
}

impl Wire for UnixStream {
    fn end(&self) {
        let _ = self.shutdown(Shutdown::Write);
    }
}
