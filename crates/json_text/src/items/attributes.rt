ghost use Rattle.json_items.specs.Attributes as attributes;

use crate::members::print_text;
use crate::printed::PrintForm;
use json::Writer;
use std::alloc::AllocError;
use ticket_items::Attrs;

impl PrintForm for Attrs {
    ghost written = { attributes.attrs_data };

    fn print(&self, out: &mut Writer) -> Result<(), AllocError> {
        out.begin_object()?;
        for (name, text) in self.iter() {
            print_text(out, name.as_str(), text.as_str())?;
        }
        out.end_object()
    }
}
