//! The target of a request.

ghost use Rattle.std.specs.Prelude.{◌≡◌, ◌≤◌, ◌==◌, length, drop};
ghost use Rattle.std.specs.List.{position, position_or_len};
ghost use Rattle.http_message.specs.Target as targets;

/// Where the query of a target begins, if it has one.
fn query_place(target: &[u8]) -> Option<usize>
    ensures { result ≡ position (λ c. c == 63) target.now }
{
    target.iter().position(|byte| *byte == b'?')
}

/// How many bytes stand before it.
#[tactic(auto, using(ticket_items::proofs::Places::unwrap_or_position))]
fn path_length(target: &[u8]) -> usize
    ensures { result ≡ position_or_len (λ c. c == 63) target.now }
{
    query_place(target).unwrap_or(target.len())
}

/// A target without its query: what stands before a `?`. Nothing of it is decoded: a name that is
/// written with `%` is another name.
pub fn path_of(target: &[u8]) -> &[u8]
    // Proved: The path of a target is found, and its last segment, none of a target with a `#`.
    // By `last_segment`.
    ensures { result.now ≡ targets.path_of target.now }
{
    &target[..path_length(target)]
}

/// Where the last segment of a path begins.
#[tactic(auto, using(crate::proofs::Segments::whole, crate::proofs::Segments::behind))]
fn segment_start(path: &[u8]) -> usize
    ensures value { drop result path.now ≡ targets.segment_of path.now }
    ensures bound { result ≤ length path.now }
{
    let mut start = path.len();
    while start > 0 {
        if path[start - 1] == b'/' {
            return start;
        }
        start -= 1;
    }
    0
}

/// Whether a `#` stands in a target.
fn has_fragment(target: &[u8]) -> bool
    ensures { result ≡ targets.has_fragment target.now }
{
    target.iter().any(|byte| *byte == b'#')
}

/// The last segment of a target (RFC 3986): what stands behind the last slash of its path, which
/// ends before a `?`. Nothing of it is decoded. A target with a `#` has none: a fragment is no part
/// of a request (RFC 9112).
pub fn last_segment(target: &[u8]) -> &[u8]
    ensures { result.now ≡ targets.last_segment target.now }
{
    if has_fragment(target) {
        return &target[..0];
    }
    let path = path_of(target);
    &path[segment_start(path)..]
}
