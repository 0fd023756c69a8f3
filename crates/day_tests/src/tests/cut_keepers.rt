use keepers::{Cut, CutKeep};
use std::alloc::Global;
use streams::Refused;
use ticket_tree::Id;
use world::Keepers;

/// Where the saves of the controller of a name are cut off, the first by the first: that is the one
/// in which its file is made.
#[derive(Drop)]
pub struct NamedCuts {
    pub name: Id,
    pub cuts: Vec<Cut>,
}

/// What gives each controller a keeper in a file of disks in memory, whose saves are cut off as
/// is told by its name, for tests (our own). No save of a controller that isn't named is.
#[derive(Drop)]
pub struct CutKeepers {
    named: Vec<NamedCuts>,
}

impl CutKeepers {
    /// That of these cuts.
    pub fn new(named: Vec<NamedCuts>) -> CutKeepers {
        CutKeepers { named }
    }

    /// The cuts of a name, which are given once.
    fn cuts_of(&mut self, alloc: Global, name: &Id) -> Vec<Cut> {
        let place = self.named.iter().position(|named| named.name == *name);
        match place {
            Some(place) if place < self.named.len() => {
                let NamedCuts { cuts, .. } = self.named.swap_remove(place);
                cuts
            }
            _ => Vec::new(alloc),
        }
    }
}

impl Keepers<CutKeep> for CutKeepers {
    fn keeper_of(&mut self, alloc: Global, name: &Id) -> Result<CutKeep, Refused> {
        let cuts = self.cuts_of(alloc, name);
        Ok(CutKeep::new(Vec::new(alloc), cuts))
    }
}
