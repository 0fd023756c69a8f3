ghost use Rattle.std.specs.Prelude.{◌≡◌};
ghost use Rattle.jmf_message.specs.Refused as refused;

use controller::{Body, Command, Message};

/// The number of the refusal that a message is an answer with, but for that by which a withdrawn
/// spawn is declined: `AbortQueueEntry` asks for that.
pub fn refusal_told(message: &Message) -> Option<u16>
    // Proved: The refusal that an answer tells of is told, if it tells of one.
    ensures { result ≡ refused.refusal_told message.now.body }
{
    match &message.body {
        Body::Answer { result: Ok(_), .. } => None,
        Body::Answer {
            of: Command::Abort,
            result: Err(38),
            ..
        } => None,
        Body::Answer {
            result: Err(number),
            ..
        } => Some(*number),
        Body::Submit(_) | Body::Return(_) | Body::Abort(_) => None,
    }
}
