//! What a master does with a spawn that its worker declines.

ghost use Rattle.std.specs.Prelude.{◌≡◌, false, IsOk, OnErr, OnOk};
ghost use Rattle.master_core.specs.Master as masters;
ghost use Rattle.master_core.specs.Messages as messages;

use crate::master::Master;
use crate::records::{is_spawn_out, place_of};
use merge::withdraw;
use std::alloc::{AllocError, Global};
use ticket_tree::SpawnId;

impl Master {
    /// Frees a spawn that its worker declines: where it is out it is withdrawn, at a time, and the
    /// master then holds what it claimed.
    pub(crate) fn free(&mut self, alloc: Global, spawn: SpawnId, at: u64) -> Result<(), AllocError>
        ensures ok { OnOk result (self.new ≡ (messages.on_decline spawn at self.old).next) }
        ensures err { OnErr result (self.new ≡ self.old) }
        ensures idle { masters.is_spawn_out self.old.records spawn ≡ false → IsOk result }
    {
        if !is_spawn_out(self.records.as_slice(), spawn) {
            return Ok(());
        }
        let record = &mut self.records[place_of(spawn)];
        withdraw(alloc, &mut self.ticket, record, at).or(Err(AllocError))?;
        self.holders.free(&self.ticket, record);
        Ok(())
    }
}
