//! Where a controller stops, by its word.

ghost use Rattle.std.specs.Prelude.{◌≡◌, codes};
ghost use Rattle.serde_json.specs.Find.{get};
ghost use Rattle.world_script.specs.EventForm as form;

use json_source::Source;
use world_items::Stop;

/// The stop that a word names.
fn stop_named(word: &str) -> Option<Stop>
    ensures { result ≡ form.stop_named word.now }
{
    match word {
        "Run" => Some(Stop::Run),
        "BeforeSave" => Some(Stop::BeforeSave),
        "BeforeSend" => Some(Stop::BeforeSend),
        _ => None,
    }
}

/// The stop under `Stop`; `Run` where nothing stands there, and none where something else does.
pub fn stop_under<S: Source>(value: &S) -> Option<Stop>
    ensures { result ≡ form.stop_of (get (codes "Stop") (S.content value.now)) }
{
    match value.member("Stop") {
        Some(stop) => stop_named(stop.text()?),
        None => Some(Stop::Run),
    }
}
