ghost use Rattle.std.specs.Prelude.{◌≡◌};

use crate::listener::Listener;
use http_message::Methods;
use mio::net::TcpListener;
use mio::{Interest, Registry, Token};
use peers::Limits;
use std::io;

/// Where messages come from other controllers.
#[derive(Drop)]
pub struct MessageListener {
    pub listener: TcpListener,
    /// The limits of each connection, which takes no other method.
    pub limits: Limits,
}

impl Listener for MessageListener {
    ghost use Rattle.http_message.specs.declared.methods.Methods.TheVariants.{Post};

    ghost methods = { Post };

    fn limits(&self) -> Limits
        // Proved: The limits of the connections that carry messages are those that were given.
        ensures { result ≡ record self.now.limits { methods = Post } }
    {
        let mut limits = self.limits;
        limits.methods = Methods::Post;
        limits
    }

    fn register(&mut self, registry: &Registry, token: usize) -> io::Result<()> {
        registry.register(&mut self.listener, Token(token), Interest::READABLE)
    }
}
