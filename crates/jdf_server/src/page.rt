//! The readers of the page: those who look, and change nothing.

ghost use Rattle.std.specs.Prelude.{◌≡◌};
ghost use Rattle.jdf_server.specs.Beginning.{ServesOn};

use crate::server::Server;
use http_message::{Method, path_of};
use keepers::Locks;
use listeners::GuestRequest;
use mio::net::TcpStream;
use std::alloc::{Alloc, AllocError};
use std::io::Write;
use std::net::Net;
use std::time::Clock;

/// The token of the page's listener. That of a reader is one more than its number. Calls have lower
/// ones.
pub(crate) const PAGE: usize = 8_589_934_592;

/// For how many milliseconds pages are made in one round, so that messages have their turn between
/// them: the one that is begun is made to its end.
pub(crate) const PAGES_TIME: u64 = 10;

impl<'a, R: Locks + Net + Clock + Alloc + Clone + Drop, F: Write + Drop> Server<'a, R, F> {
    /// Answers a reader.
    fn serve_page(&mut self, wanted: GuestRequest<TcpStream>) -> Result<(), AllocError>
        ensures serves { ServesOn self.old self.new }
        ensures post { self.new.post ≡ self.old.post }
    {
        let GuestRequest {
            key,
            asked,
            request,
        } = wanted;
        let method = request.method.unwrap_or(Method::Get);
        let response = self.page_response(method, path_of(request.target.as_slice()))?;
        let (response, now) = (response.as_slice(), self.clients.now);
        self.readers.answer(key, asked, response, now)
    }

    /// Answers the readers that wait, as long as there is time.
    pub(crate) fn serve_pages(&mut self) -> Result<(), AllocError>
        // Proved: Who looks at the page changes no client who sends messages, no line, and nothing
        // that goes out by itself.
        // By `serves`, `post`.
        ensures serves { ServesOn self.old self.new }
        ensures post { self.new.post ≡ self.old.post }
    {
        let wanted = self.readers.take_wanted(self.alloc);
        let mut last = self.moments.now(self.rt, self.clients.now);
        let until = last.saturating_add(PAGES_TIME);
        for one in wanted {
            if last < until {
                self.serve_page(one)?;
                last = self.moments.now(self.rt, last);
            } else {
                self.readers.put_off(one)?;
            }
        }
        Ok(())
    }
}
