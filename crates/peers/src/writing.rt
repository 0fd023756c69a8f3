//! One write.

ghost use Rattle.std.specs.Prelude.{◌≡◌, ◌⊎◌, ◌<◌, length, IfErr, IfOk};
ghost use Rattle.std.specs.Io.{WritesAtMost};
ghost use Rattle.std.specs.Io.KnownBytes.{WriteAppends};
ghost use Rattle.peers.specs.Peer as peers;

use std::io::{ErrorKind, Write};
use streams::Counted;

/// Makes one write, and answers how many bytes were taken, one or more.
pub(crate) fn write_some<T: Write>(
    stream: &mut Counted<T>,
    bytes: &[u8],
) -> Result<usize, ErrorKind>
    requires { 0 < length bytes.now }
    ensures some { IfOk result (λ n. 0 < n) }
    ensures bound { WritesAtMost result bytes.now }
    ensures bytes { WriteAppends (T.contents stream.old.inner) (T.contents stream.new.inner) result
        bytes.now }
    ensures blocked { IfErr result (λ kind. (kind ≡ ErrorKind.WriteZero)
        ⊎ peers.HasNotWritten stream.old stream.new kind) }
{
    match stream.write(bytes) {
        Ok(0) => Err(ErrorKind::WriteZero),
        Ok(count) => Ok(count),
        Err(error) => Err(error.kind()),
    }
}
