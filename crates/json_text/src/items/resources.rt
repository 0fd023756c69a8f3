ghost use Rattle.std.specs.Prelude.{◌≡◌, true, OnOk};
ghost use Rattle.json_items.specs.Resources as resources;
ghost use Rattle.json_text.specs.Printed.{IsPrinted};

use crate::members::print_member;
use json::Writer;
use json_items::Showing;
use std::alloc::AllocError;
use ticket_items::Resource;

/// Prints a resource that shows this of spawns. Its names and texts are valid.
#[tactic(auto, unfolding(json_items::specs::Resources::resource_has_names, json_items::specs::Resources::resource_has_texts))]
pub fn print_marked(
    out: &mut Writer,
    resource: &Resource,
    shown: &Showing,
) -> Result<(), AllocError>
    ensures printed { OnOk result
        (IsPrinted (resources.resource_data shown.now resource.now) out.old out.new) }
    ensures names { OnOk result (resources.resource_has_names resource.now ≡ true) }
    ensures texts { OnOk result (resources.resource_has_texts resource.now ≡ true) }
{
    out.begin_object()?;
    print_member(out, "Attr", &resource.attrs)?;
    print_member(out, "Class", &resource.class)?;
    print_member(out, "ID", &resource.id)?;
    print_member(out, "Locked", &shown.locked)?;
    print_member(out, "Name", &resource.name)?;
    print_member(out, "SpawnIDs", &shown.spawn_ids)?;
    print_member(out, "SpawnStatus", &shown.spawn_status)?;
    print_member(out, "Status", &resource.status)?;
    out.end_object()
}
