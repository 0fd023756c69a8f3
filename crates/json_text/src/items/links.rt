ghost use Rattle.json_items.specs.Links as links;

use crate::members::print_member;
use crate::printed::PrintForm;
use json::Writer;
use std::alloc::AllocError;
use ticket_items::Link;

impl PrintForm for Link {
    ghost written = { links.link_data };

    fn print(&self, out: &mut Writer) -> Result<(), AllocError> {
        out.begin_object()?;
        print_member(out, "Usage", &self.usage)?;
        print_member(out, "rRef", &self.rref)?;
        out.end_object()
    }
}
