//! Audits (JDF 1.5, 3.11), by the kind that their `Name` names.

ghost use Rattle.json_items.specs.Audits as audits;
ghost use Rattle.json_items.specs.Validation.{Reads};

use crate::members::found_members::find_five;
use crate::{Form, Validation, check_members, find_three, find_two, find_under, text_under};
use json_source::Source;
use std::alloc::Global;
use ticket_items::{Audit, Refusal};

/// The members of an audit of a spawn.
const SPAWNED_MEMBERS: &[&str] = &[
    "Name",
    "NewSpawnID",
    "Status",
    "TimeStamp",
    "jRef",
    "rRefsROCopied",
    "rRefsRWCopied",
];

/// The members of an audit of a merge.
const MERGED_MEMBERS: &[&str] = &["MergeID", "Name", "TimeStamp", "jRef", "rRefsOverwritten"];

/// A note.
#[tactic(auto, unfolding(crate::specs::Audits::notification_form, crate::specs::Audits::audit_has_names, crate::specs::Audits::audit_has_texts))]
fn notification<S: Source>(alloc: Global, value: &S) -> Result<Validation<Audit>, Refusal>
    ensures { Reads audits.audit_has_names audits.audit_has_texts result
        (audits.notification_form (S.content value.now)) }
{
    check_members(value, &["Name", "Text", "TimeStamp"])?;
    let found = find_two(alloc, value, "TimeStamp", "Text")?;
    Ok(found.map(|(at, text)| Audit::Notification { at, text }))
}

/// The audit of a spawn.
#[tactic(auto, unfolding(crate::specs::Audits::spawn_audit_form, crate::specs::Audits::audit_has_names, crate::specs::Audits::audit_has_texts), using(crate::proofs::Tests::all_true))]
fn spawn_audit<S: Source>(alloc: Global, value: &S) -> Result<Validation<Audit>, Refusal>
    ensures { Reads audits.audit_has_names audits.audit_has_texts result
        (audits.spawn_audit_form (S.content value.now)) }
{
    check_members(value, SPAWNED_MEMBERS)?;
    let at = find_under::<u64, _>(alloc, value, "TimeStamp")??;
    let found = find_five(
        alloc,
        value,
        "NewSpawnID",
        "Status",
        "jRef",
        "rRefsROCopied",
        "rRefsRWCopied",
    )?;
    let ((((spawn_id, status), jref), ro), rw) = match found {
        Ok(found) => found,
        Err(refusal) => return Ok(Err(refusal)),
    };
    Ok(Ok(Audit::Spawned {
        at,
        jref,
        spawn_id,
        ro,
        rw,
        status,
    }))
}

/// The audit of a merge.
#[tactic(auto, unfolding(crate::specs::Audits::merge_audit_form, crate::specs::Audits::audit_has_names, crate::specs::Audits::audit_has_texts), using(crate::proofs::Tests::all_true))]
fn merge_audit<S: Source>(alloc: Global, value: &S) -> Result<Validation<Audit>, Refusal>
    ensures { Reads audits.audit_has_names audits.audit_has_texts result
        (audits.merge_audit_form (S.content value.now)) }
{
    check_members(value, MERGED_MEMBERS)?;
    let at = find_under::<u64, _>(alloc, value, "TimeStamp")??;
    let found = find_three(alloc, value, "MergeID", "jRef", "rRefsOverwritten")?;
    Ok(found.map(|((merge_id, jref), overwritten)| Audit::Merged {
        at,
        jref,
        merge_id,
        overwritten,
    }))
}

impl Form for Audit {
    ghost form = { audits.audit_form };

    ghost has_names = { audits.audit_has_names };

    ghost has_texts = { audits.audit_has_texts };

    #[tactic(auto, unfolding(crate::specs::Audits::audit_form))]
    fn find<S: Source>(alloc: Global, value: &S) -> Result<Validation<Audit>, Refusal> {
        match text_under(value, "Name").ok_or(Refusal::NotProfile)? {
            "Notification" => notification(alloc, value),
            "Spawned" => spawn_audit(alloc, value),
            "Merged" => merge_audit(alloc, value),
            _ => Err(Refusal::NotProfile),
        }
    }
}
