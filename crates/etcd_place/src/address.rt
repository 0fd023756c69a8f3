//! Where a node of etcd serves its clients, as a text.

ghost use Rattle.std.specs.Prelude.{◌≡◌};
ghost use Rattle.std.specs.List.{list_all};
ghost use Rattle.etcd_place.specs.Place as places;
ghost use Rattle.std.specs.Char.{is_ascii_digit};

use http_message::is_word;

fn are_digits(text: &[u8]) -> bool
    ensures { result ≡ list_all is_ascii_digit text.now }
{
    text.iter().all(|byte| byte.is_ascii_digit())
}

fn has_no_user(text: &[u8]) -> bool
    ensures { result ≡ places.has_no_user text.now }
{
    text.iter().all(|byte| *byte != b'@')
}

/// Whether a text is a port of 1 to 65,535, in digits.
fn is_port(text: &str) -> bool
    ensures { result ≡ places.is_port text.now }
{
    if !are_digits(text.as_bytes()) {
        return false;
    }
    match text.parse::<u16>() {
        Ok(port) => port > 0,
        Err(_) => false,
    }
}

/// Whether a text is a `:` and a port.
fn is_port_behind_colon(text: &str) -> bool
    ensures { result ≡ places.is_port_behind_colon text.now }
{
    match text.strip_prefix(":") {
        Some(port) => is_port(port),
        None => false,
    }
}

/// Whether a text is a host, a `:` and a port, with no other `:`.
fn is_named_address(text: &str) -> bool
    ensures { result ≡ places.is_named_address text.now }
{
    match text.split_once(':') {
        Some((host, port)) => !host.is_empty() && is_port(port),
        None => false,
    }
}

/// Whether a text is what stands behind the `[` of an address whose host stands in brackets.
fn is_bracketed_address(text: &str) -> bool
    ensures { result ≡ places.is_bracketed_address text.now }
{
    match text.split_once(']') {
        Some((host, port)) => !host.is_empty() && is_port_behind_colon(port),
        None => false,
    }
}

/// Whether a text is a host, which stands in brackets or has no `:`, a `:` and a port.
fn is_address(text: &str) -> bool
    ensures { result ≡ places.is_address text.now }
{
    match text.strip_prefix("[") {
        Some(rest) => is_bracketed_address(rest),
        None => is_named_address(text),
    }
}

/// Whether a text is HOST:PORT, and names no user.
pub(crate) fn is_gateway(text: &str) -> bool
    ensures { result ≡ places.is_gateway text.now }
{
    is_word(text) && has_no_user(text.as_bytes()) && is_address(text)
}
