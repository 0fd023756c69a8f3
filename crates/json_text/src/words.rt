//! Printing names, texts, numbers and words.

ghost use Rattle.serde_json.specs.Data.{boolean, number, string, unsigned};
ghost use Rattle.json_items.specs.Links as links;
ghost use Rattle.json_items.specs.Shown as shown;

use crate::printed::PrintForm;
use json::Writer;
use json_items::AnyText;
use std::alloc::AllocError;
use ticket_items::{Id, Name, SpawnStatus, Text, Usage};

impl PrintForm for Id {
    ghost written = { string };

    fn print(&self, out: &mut Writer) -> Result<(), AllocError> {
        out.string(self.as_str())
    }
}

impl PrintForm for Name {
    ghost written = { string };

    fn print(&self, out: &mut Writer) -> Result<(), AllocError> {
        out.string(self.as_str())
    }
}

impl PrintForm for Text {
    ghost written = { string };

    fn print(&self, out: &mut Writer) -> Result<(), AllocError> {
        out.string(self.as_str())
    }
}

impl PrintForm for AnyText {
    ghost written = { string };

    fn print(&self, out: &mut Writer) -> Result<(), AllocError> {
        out.string(self.as_str())
    }
}

impl PrintForm for u64 {
    ghost written = { λ n. number (unsigned n) };

    fn print(&self, out: &mut Writer) -> Result<(), AllocError> {
        out.u64(*self)
    }
}

impl PrintForm for bool {
    ghost written = { boolean };

    fn print(&self, out: &mut Writer) -> Result<(), AllocError> {
        out.boolean(*self)
    }
}

impl PrintForm for SpawnStatus {
    ghost written = { shown.spawn_status_data };

    fn print(&self, out: &mut Writer) -> Result<(), AllocError> {
        out.string(self.word())
    }
}

impl PrintForm for Usage {
    ghost written = { links.usage_data };

    fn print(&self, out: &mut Writer) -> Result<(), AllocError> {
        match self {
            Usage::Input => out.string("Input"),
            Usage::Output => out.string("Output"),
        }
    }
}
