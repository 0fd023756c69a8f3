//! Laws of the words that the contracts of this crate use. Each function does nothing: its contract
//! is the law.

ghost use Rattle.jmf_message.specs.Laws as law;

/// The IDs of two messages are equal just if both are commands or both answers, of the same command
/// and the same spawn.
pub fn ids_tell_messages_apart()
    ensures { law.IdsTellApart }
{}
