//! One group of a region's segments.
ghost use Rattle.std.specs.Prelude.{◌≡◌, ℕ, ◌+◌, ◌-◌, ◌<◌, ◌≤◌, true, false, cond, length, slice_index, slice_set, replicate, map, IfOk, IfSome};
ghost use Rattle.std.specs.List.{count_by};
ghost use Rattle.layout.specs.Sizes as sizes;
ghost use Rattle.regions.specs.Shapes.{is_number, most_guards};
ghost use Rattle.regions.specs.inside.Consistent.{GroupFields, not_closed, with_closed, is_sparse, unused, begun, lost, cleared};

use crate::live_table::{LiveTable, NOT_CLOSED};
use std::alloc::{AllocError, Global};
use std::marker::Model;

// Which segment of the group is active and how many of its bytes are live, how many guards stand, and how many bytes of each
// closed segment are live.
#[derive(Drop)]
pub(crate) struct Group {
    active: Option<u32>,
    guards: u32,
    active_live: u32,
    table: LiveTable,
}

impl Model for Group {
    ghost use Rattle.regions.specs.inside.Consistent.{GroupFields, fields_code};

    ghost Value = { GroupFields };

    ghost coded = { fields_code };

    ghost view = { λ g. record {
      state = record { active = g.active; guards = g.guards };
      live = g.active_live;
      table = g.table;
    } };
}

impl Group {
    // No segment is of the group.
    pub(crate) fn new(alloc: Global, most: u32) -> Result<Group, AllocError>
        requires { most ≤ sizes.most_segments }
        ensures { IfOk result (λ g. g ≡ unused most) }
    {
        Ok(Group {
            active: None,
            guards: 0,
            active_live: 0,
            table: LiveTable::new(alloc, most)?,
        })
    }

    pub(crate) fn active(&self) -> Option<u32>
        ensures { result ≡ self.now.state.active }
    {
        self.active
    }

    pub(crate) fn is_active(&self, number: u32) -> bool
        ensures { result ≡ is_number self.now.state.active number }
    {
        is_number(self.active, number)
    }

    pub(crate) fn guards(&self) -> u32
        ensures { result ≡ self.now.state.guards }
    {
        self.guards
    }

    pub(crate) fn guard(&mut self)
        requires { self.old.state.guards < most_guards }
        ensures { self.new ≡ record self.old { state = record self.old.state { guards = self.old.state.guards + 1 } } }
    {
        self.guards += 1;
    }

    pub(crate) fn unguard(&mut self)
        requires { 1 ≤ self.old.state.guards }
        ensures { self.new ≡ record self.old { state = record self.old.state { guards = self.old.state.guards - 1 } } }
    {
        self.guards -= 1;
    }

    // The segment is active from now on, in which nothing is live, and the one before is closed.
    pub(crate) fn begin(&mut self, number: u32)
        requires { IfSome self.old.state.active (λ n. n < length self.old.table) }
        ensures { self.new ≡ begun number self.old }
    {
        close(&mut self.table, self.active, self.active_live);
        self.active = Some(number);
        self.active_live = 0;
    }

    // So many bytes more of the active segment are live.
    pub(crate) fn gain(&mut self, size: u32)
        requires { self.old.live + size ≤ sizes.segment }
        ensures { self.new ≡ record self.old { live = self.old.live + size } }
    {
        self.active_live += size;
    }

    // An object of the size is dead, in the active segment or in a closed one.
    pub(crate) fn lose(&mut self, number: u32, size: u32)
        requires active { is_number self.old.state.active number ≡ true → size ≤ self.old.live }
        requires closed { is_number self.old.state.active number ≡ false
            → (number < length self.old.table) × (size ≤ slice_index self.old.table number) }
        ensures { self.new ≡ lost number size self.old }
    {
        let active = is_number(self.active, number);
        lose(&mut self.table, &mut self.active_live, active, number, size);
    }

    // The segment is closed no more.
    pub(crate) fn free(&mut self, number: u32)
        requires { number < length self.old.table }
        ensures { self.new ≡ record self.old { table = slice_set self.old.table number not_closed } }
    {
        self.table.set(number, NOT_CLOSED);
    }

    // The live bytes of the active segment or of a closed one.
    pub(crate) fn live_in(&self, number: u32) -> u32
        requires { number < length self.now.table }
        ensures { result ≡ cond (is_number self.now.state.active number) self.now.live (slice_index self.now.table number) }
    {
        if is_number(self.active, number) {
            return self.active_live;
        }
        self.table.bytes()[number as usize]
    }

    // How many closed segments are sparse.
    pub(crate) fn sparse(&self) -> u32
        ensures { result ≡ count_by is_sparse self.now.table }
    {
        self.table.sparse()
    }

    pub(crate) fn closed_live(&self) -> &[u32]
        ensures { result.now ≡ self.now.table }
    {
        self.table.bytes()
    }

    // No segment is of the group any more.
    pub(crate) fn clear(&mut self)
        ensures { self.new ≡ cleared self.old }
    {
        self.active = None;
        self.active_live = 0;
        self.table.clear();
    }
}

// So many groups without segments.
pub(crate) fn new_groups(alloc: Global, most: u32, count: u32) -> Result<Vec<Group>, AllocError>
    requires { most ≤ sizes.most_segments }
    ensures { IfOk result (λ groups. groups.items ≡ replicate count (unused most)) }
{
    let mut groups = Vec::with_capacity(alloc, count as usize)?;
    for _group in 0..count {
        groups.push(Group::new(alloc, most)?)?;
    }
    Ok(groups)
}

pub(crate) fn clear_groups(groups: &mut [Group])
    ensures { groups.new ≡ map cleared groups.old }
{
    for group in 0..groups.len() {
        groups[group].clear();
    }
}

fn is_number(active: Option<u32>, number: u32) -> bool
    ensures { result ≡ is_number active number }
{
    match active {
        Some(active) => number == active,
        None => false,
    }
}

// The active segment is closed, which has that many live bytes.
fn close(table: &mut LiveTable, active: Option<u32>, live: u32)
    requires { IfSome active (λ n. n < length table.old) }
    ensures { table.new ≡ with_closed active live table.old }
{
    if let Some(number) = active {
        table.set(number, live);
    }
}

// An object of the size is dead, in the active segment or in a closed one.
fn lose(table: &mut LiveTable, active_live: &mut u32, is_active: bool, number: u32, size: u32)
    requires active { is_active ≡ true → size ≤ active_live.old }
    requires closed { is_active ≡ false → (number < length table.old) × (size ≤ slice_index table.old number) }
    ensures active { active_live.new ≡ cond is_active (active_live.old - size) active_live.old }
    ensures closed { table.new ≡ cond is_active table.old (slice_set table.old number (slice_index table.old number - size)) }
{
    if is_active {
        *active_live -= size;
    } else {
        let live = table.bytes()[number as usize] - size;
        table.set(number, live);
    }
}
