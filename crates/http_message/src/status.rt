//! The status that answers a refusal, and its phrase.

ghost use Rattle.std.specs.Prelude.{◌≡◌};
ghost use Rattle.http_message.specs.Status as statuses;

use http::StatusCode;
use streams::Refused;
use ticket_items::Refusal;

/// The status that answers a refusal. The statuses are those of RFC 9110; which of them answers a
/// refusal is our own. A read or a write that failed, a state that isn't loaded and a connection
/// that isn't made are never answered; theirs is 503.
pub fn status_of(refused: Refused) -> StatusCode
    // Proved: Each refusal has its status.
    ensures { result ≡ statuses.status_of refused }
{
    match refused {
        Refused::Core(Refusal::Memory) => StatusCode::SERVICE_UNAVAILABLE,
        Refused::Core(_) | Refused::BadHead | Refused::CutShort => StatusCode::BAD_REQUEST,
        Refused::Forbidden => StatusCode::FORBIDDEN,
        Refused::NotPost => StatusCode::METHOD_NOT_ALLOWED,
        Refused::NoLength => StatusCode::LENGTH_REQUIRED,
        Refused::TooLarge => StatusCode::PAYLOAD_TOO_LARGE,
        Refused::Coding => StatusCode::NOT_IMPLEMENTED,
        Refused::SaveFailed
        | Refused::Stale
        | Refused::ReadFailed
        | Refused::WriteFailed
        | Refused::LoadFailed
        | Refused::NoConnection
        | Refused::OtherName => StatusCode::SERVICE_UNAVAILABLE,
    }
}

/// The phrase that stands behind a status.
pub(crate) fn phrase_of(status: StatusCode) -> &'static str
    ensures { result.now ≡ statuses.phrase_of status }
{
    status.canonical_reason().unwrap_or("")
}
