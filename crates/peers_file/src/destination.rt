//! Where a message is sent.

ghost use Rattle.std.specs.Prelude.{◌≡◌};
ghost use Rattle.peers_file.specs.Destination as destinations;

use http_message::is_word;
use std::alloc::{AllocError, Global};
use std::marker::Model;
use url::{Host, ParseError, Url};

/// The port where a URL names none (RFC 9110).
const HTTP_PORT: u16 = 80;

/// A URL that a message can be sent to: `http://host[:port]/path`, with no user, query or fragment,
/// whose host and path can stand in a head.
#[derive(Drop)]
pub struct Destination {
    url: Url,
}

impl Model for Destination {
    ghost use Rattle.std.specs.Prelude.{◌≡◌, true};
    ghost use Rattle.url.specs.Parts.{Parts};
    ghost use Rattle.peers_file.specs.Destination.{is_destination};

    ghost Value = { Parts };

    ghost view = { λ d. d.url };

    ghost invariant = { λ d. is_destination d.url ≡ true };
}

/// Whether a URL names a host, a port and a path over HTTP, and nothing else.
fn is_plain(url: &Url) -> bool
    ensures { result ≡ destinations.is_plain url.now }
{
    url.scheme() == "http"
        && url.username().is_empty()
        && url.password().is_none()
        && url.query().is_none()
        && url.fragment().is_none()
}

/// Whether its host and its path can stand in a head.
fn fits_head(url: &Url) -> bool
    ensures { result ≡ destinations.fits_head url.now }
{
    is_word(url.authority()) && is_word(url.path())
}

impl Destination {
    ghost use Rattle.std.specs.Prelude.{◌≡◌, option_map, IfOk};
    ghost use Rattle.url.specs.Host.{borrowed_host};
    ghost use Rattle.url.specs.Parts as parts;
    ghost use Rattle.peers_file.specs.Destination as destinations;

    /// The URL that a text is, by the URL Standard, if a message can be sent there.
    pub fn of(alloc: Global, text: &str) -> Result<Option<Destination>, AllocError>
        // Proved: A text is a URL that a message can be sent to just where it is one by the URL
        // Standard, of HTTP, with no user, query or fragment, whose host and path can stand in a
        // head; these, and its port, are told.
        // By `Destination::host`, `Destination::port`; `Destination::authority`,
        // `Destination::path`: `value`, `fits`.
        ensures { IfOk result (λ found. found ≡ destinations.destination_in text.now) }
    {
        match Url::parse(alloc, text) {
            Ok(url) => {
                if is_plain(&url) && fits_head(&url) {
                    return Ok(Some(Destination { url }));
                }
                Ok(None)
            }
            Err(ParseError::OutOfMemory | ParseError::Overflow) => Err(AllocError),
            Err(_) => Ok(None),
        }
    }

    /// What stands between `//` and its path: what a head's `Host` is.
    pub fn authority(&self) -> &str
        ensures value { result.now ≡ destinations.authority_of self.now }
        ensures fits { destinations.FitsHead self.now }
    {
        self.url.authority()
    }

    /// Its path: what the target of a request is.
    pub fn path(&self) -> &str
        ensures value { result.now ≡ self.now.path }
        ensures fits { destinations.FitsHead self.now }
    {
        self.url.path()
    }

    /// Its host.
    pub fn host(&self) -> Option<Host<&str>>
        ensures { option_map borrowed_host result ≡ parts.nonempty_host self.now }
    {
        self.url.host()
    }

    /// Its port, 80 where it names none.
    pub fn port(&self) -> u16
        ensures { result ≡ destinations.port_of self.now }
    {
        self.url.port().unwrap_or(HTTP_PORT)
    }
}
