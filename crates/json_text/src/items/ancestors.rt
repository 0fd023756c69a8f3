ghost use Rattle.json_items.specs.Ancestors as ancestors;

use crate::members::print_member;
use crate::printed::PrintForm;
use json::Writer;
use std::alloc::AllocError;
use ticket_items::Ancestor;

impl PrintForm for Ancestor {
    ghost written = { ancestors.ancestor_data };

    #[tactic(auto, unfolding(json_items::specs::Ancestors::ancestor_has_names))]
    fn print(&self, out: &mut Writer) -> Result<(), AllocError> {
        out.begin_object()?;
        print_member(out, "JobPartID", &self.job_part)?;
        print_member(out, "NodeID", &self.node_id)?;
        out.end_object()
    }
}
