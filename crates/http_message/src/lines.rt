//! The lines that requests and responses share.

/// The line that tells what a body is.
pub(crate) const TYPE_LINE: &[u8] = b"Content-Type: application/json\r\n";

/// The line that tells of one that is a text for a reader.
pub(crate) const PLAIN_LINE: &[u8] = b"Content-Type: text/plain\r\n";

/// What stands before what the body of a page is.
pub(crate) const BEFORE_KIND: &[u8] = b"Content-Type: ";

/// What stands behind it: that a page is neither stored nor taken for anything else, and that it
/// loads nothing, runs nothing, sends nothing and stands in no other page.
pub(crate) const BEHIND_KIND: &[u8] = b"\r\nCache-Control: no-store\r\n\
    X-Content-Type-Options: nosniff\r\n\
    Content-Security-Policy: default-src 'none'; style-src 'unsafe-inline'; \
    frame-ancestors 'none'; base-uri 'none'; form-action 'none'\r\n";

/// What stands before the length of a body.
pub(crate) const BEFORE_LENGTH: &[u8] = b"Content-Length: ";

/// What stands between the length of a body and the body.
pub(crate) const BEHIND_LENGTH: &[u8] = b"\r\nConnection: close\r\n\r\n";

/// No line, and a body of no byte.
pub(crate) const NOTHING: &[u8] = b"";
