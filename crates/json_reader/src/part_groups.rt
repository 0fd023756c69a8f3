//! The resources of a part's root, by what they show: its own, and the copies behind them.

ghost use Rattle.std.specs.Prelude.{◌≡◌, IfErr, IfOk};
ghost use Rattle.std.specs.List.{list_all, prefix_len};
ghost use Rattle.json_items.specs.Shown as shown;
ghost use Rattle.json_source.specs.Read.{Gives};
ghost use Rattle.json_reader.specs.Groups as groups;

use json_items::Showing;
use std::alloc::Global;
use std::mem;
use ticket_tree::{Items, NodeRow, Refusal, Resources};

/// How many resources of a part's root are its own, and how many behind them are copies that may be
/// changed (JDF 1.5, 4.4). All others are copies that may be read alone.
#[derive(Clone, Copy)]
pub struct GroupSizes {
    pub own: usize,
    pub rw: usize,
}

/// How many resources in front show nothing of spawns.
fn own_len(pool: &[Showing]) -> usize
    ensures { result ≡ prefix_len shown.shows_nothing pool.now }
{
    pool.iter().take_while(|one| one.shows_nothing()).count()
}

/// How many resources in front show that they are copies to change, of the spawn of this text.
fn change_len(pool: &[Showing], spawn: &str) -> usize
    ensures { result ≡ prefix_len (shown.shows_change spawn.now) pool.now }
{
    pool.iter().take_while(|one| one.is_change(spawn)).count()
}

/// Whether all show that they are copies to read alone, of the spawn of this text.
fn are_read(pool: &[Showing], spawn: &str) -> bool
    ensures { result ≡ list_all (shown.shows_read spawn.now) pool.now }
{
    pool.iter().all(|one| one.is_read(spawn))
}

/// How many resources of a part's root stand in each group, by what they show. Refuses `NotProfile`
/// where they don't stand in their groups.
pub fn group_sizes(pool: &[Showing], spawn: &str) -> Result<GroupSizes, Refusal>
    ensures read { Gives (λ s. s) result (groups.group_sizes spawn.now pool.now) }
    ensures refused { IfErr result (λ e. e ≡ Refusal.NotProfile) }
{
    let own = own_len(pool);
    let (_, copies) = pool.split_at(own);
    let rw = change_len(copies, spawn);
    let (_, reads) = copies.split_at(rw);
    if !are_read(reads, spawn) {
        return Err(Refusal::NotProfile);
    }
    Ok(GroupSizes { own, rw })
}

/// Takes the copies out of the pool of the root, those to change and those to read. Refuses
/// `Memory` alone.
pub fn take_copies(
    alloc: Global,
    rows: &mut Vec<NodeRow>,
    sizes: GroupSizes,
) -> Result<(Resources, Resources), Refusal>
    ensures ok { IfOk result (λ c.
        groups.with_taken rows.new.items c.0 c.1 ≡ groups.split_rows sizes rows.old.items) }
    ensures memory { IfErr result (λ e. e ≡ Refusal.Memory) }
{
    let none = Items::new(Vec::new(alloc));
    if rows.is_empty() {
        return Ok((none, Items::new(Vec::new(alloc))));
    }
    let mut own = mem::replace(&mut rows[0].resources, none).into_vec();
    let at = sizes.own.min(own.len());
    let mut rw = own.split_off(at)?;
    let at = sizes.rw.min(rw.len());
    let ro = rw.split_off(at)?;
    rows[0].resources = Items::new(own);
    Ok((Items::new(rw), Items::new(ro)))
}
