//! Laws of the words that the contracts of this crate use. Each function does nothing: its contract
//! is the law.

ghost use Rattle.job_list.specs.Laws as law;

/// What is open of a master and then all other has each of its spawns once; the same of a worker
/// and its entries.
pub fn each_work_stands_once()
    ensures spawns { law.EachSpawnOnce }
    ensures entries { law.EachEntryOnce }
{}
