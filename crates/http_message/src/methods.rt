//! Which methods a listener takes.

ghost use Rattle.std.specs.Prelude.{◌≡◌};
ghost use Rattle.http_message.specs.Methods as rules;

use crate::method::Method;

/// The methods that a listener takes.
#[derive(Clone, Copy, PartialEq, Eq)]
pub enum Methods {
    /// `POST` alone.
    Post,
    /// `POST` and `GET`.
    PostOrGet,
    /// `GET` and `HEAD`.
    GetOrHead,
}

/// The method of this name, in its case (RFC 9110, 9.1).
fn method_named(name: &[u8]) -> Option<Method>
    ensures { result ≡ rules.method_named name.now }
{
    match name {
        b"POST" => Some(Method::Post),
        b"GET" => Some(Method::Get),
        b"HEAD" => Some(Method::Head),
        _ => None,
    }
}

/// Whether a method is among them.
pub(crate) fn takes(methods: Methods, method: Method) -> bool
    ensures { result ≡ rules.takes methods method }
{
    match methods {
        Methods::Post => matches!(method, Method::Post),
        Methods::PostOrGet => matches!(method, Method::Post | Method::Get),
        Methods::GetOrHead => matches!(method, Method::Get | Method::Head),
    }
}

/// The method of this name, if it is among them.
pub(crate) fn method_of(methods: Methods, name: &[u8]) -> Option<Method>
    ensures { result ≡ rules.method_of methods name.now }
{
    match method_named(name) {
        Some(method) if takes(methods, method) => Some(method),
        Some(_) | None => None,
    }
}

/// The line that names them, which a response has where another method came (RFC 9110, 15.5.6).
pub(crate) fn allow_line(methods: Methods) -> &'static [u8]
    ensures { result.now ≡ rules.allow_line methods }
{
    match methods {
        Methods::Post => b"Allow: POST\r\n",
        Methods::PostOrGet => b"Allow: POST, GET\r\n",
        Methods::GetOrHead => b"Allow: GET, HEAD\r\n",
    }
}
