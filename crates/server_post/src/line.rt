ghost use Rattle.std.specs.Prelude.{◌≡◌, []};

use crate::own::Own;
use mio::net::{TcpStream, UnixStream};
use rounds::Errand;
use shop_folder::Owner;
use std::alloc::Global;

/// What waits for one controller.
#[derive(Drop)]
pub struct Line {
    /// The controller.
    pub to: Owner,
    /// The errands of clients.
    pub errands: Vec<Errand<TcpStream>>,
    /// The orders that came over the local socket.
    pub orders: Vec<Errand<UnixStream>>,
    /// What is to be done for what goes out from it by itself.
    pub own: Vec<Own>,
}

impl Line {
    /// An empty line.
    pub fn new(alloc: Global, to: Owner) -> Line
        // Proved: A line begins for its controller, with nobody and nothing in it.
        // By `items`, `owner`, `orders`, `own`.
        ensures items { result.errands.items ≡ [] }
        ensures owner { result.to ≡ to }
        ensures orders { result.orders.items ≡ [] }
        ensures own { result.own.items ≡ [] }
    {
        Line {
            to,
            errands: Vec::new(alloc),
            orders: Vec::new(alloc),
            own: Vec::new(alloc),
        }
    }
}
