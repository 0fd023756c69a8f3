ghost use Rattle.json_items.specs.Audits as audits;

use crate::members::{print_member, print_text};
use crate::printed::PrintForm;
use json::Writer;
use std::alloc::AllocError;
use ticket_items::Audit;

impl PrintForm for Audit {
    ghost written = { audits.audit_data };

    #[tactic(auto, unfolding(json_items::specs::Audits::audit_has_names, json_items::specs::Audits::audit_has_texts))]
    fn print(&self, out: &mut Writer) -> Result<(), AllocError> {
        out.begin_object()?;
        match self {
            Audit::Notification { at, text } => {
                print_text(out, "Name", "Notification")?;
                print_member(out, "Text", text)?;
                print_member(out, "TimeStamp", at)?;
            }
            Audit::Spawned {
                at,
                jref,
                spawn_id,
                ro,
                rw,
                status,
            } => {
                print_text(out, "Name", "Spawned")?;
                print_member(out, "NewSpawnID", spawn_id)?;
                print_member(out, "Status", status)?;
                print_member(out, "TimeStamp", at)?;
                print_member(out, "jRef", jref)?;
                print_member(out, "rRefsROCopied", ro)?;
                print_member(out, "rRefsRWCopied", rw)?;
            }
            Audit::Merged {
                at,
                jref,
                merge_id,
                overwritten,
            } => {
                print_member(out, "MergeID", merge_id)?;
                print_text(out, "Name", "Merged")?;
                print_member(out, "TimeStamp", at)?;
                print_member(out, "jRef", jref)?;
                print_member(out, "rRefsOverwritten", overwritten)?;
            }
        }
        out.end_object()
    }
}
