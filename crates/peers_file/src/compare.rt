ghost use Rattle.std.specs.Prelude.{◌≡◌, ◌++◌};
ghost use Rattle.std.specs.Cmp.Lexicographic.{slice_cmp};
ghost use Rattle.std.specs.Ordering.{nat_cmp};

use std::cmp::Ordering;

/// How a text compares with one that stands in two pieces.
pub(crate) fn compare(text: &[u8], front: &[u8], end: &[u8]) -> Ordering
    ensures { result ≡ slice_cmp nat_cmp text.now (front.now ++ end.now) }
{
    let shared = usize::min(text.len(), front.len());
    text[..shared].cmp(front).then(text[shared..].cmp(end))
}
