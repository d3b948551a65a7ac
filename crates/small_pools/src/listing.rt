//! Lists on which spans stand.
ghost use Rattle.std.specs.Prelude.{◌≡◌, ◌≢◌, ℕ, ◌<◌, length, IfSome, Some};
ghost use Rattle.index_lists.specs.Lists.{list_at};
ghost use Rattle.common_lemmas.specs.Lists.{times};
ghost use Rattle.small_pools.specs.inside.Tables.{list_of, stands_on};

use index_lists::IndexLists;

/// The list on which a span of the class stands that has these free slots.
pub fn list_for(class: u8, mask: u128) -> Option<u32>
    requires { class < 37 }
    ensures value { result ≡ list_of (Some class) mask }
    ensures within { IfSome result (λ list. list < 37) }
{
    if mask == 0 {
        return None;
    }
    Some(class as u32)
}

/// Moves an index from one list to another.
pub fn relist(lists: &mut IndexLists, index: u32, from: Option<u32>, to: Option<u32>)
    requires index { index < lists.old.indices }
    requires from { IfSome from (λ list. list < length lists.old.lists) }
    requires to { IfSome to (λ list. list < length lists.old.lists) }
    requires stands { (list : ℕ) → list < length lists.old.lists → times index (list_at lists.old list) ≡ stands_on from list }

    // The index stands on the other list, and no other index moves.
    ensures stands { (list : ℕ) → list < length lists.new.lists → times index (list_at lists.new list) ≡ stands_on to list }
    ensures others { (list other : ℕ) → other ≢ index
        → times other (list_at lists.new list) ≡ times other (list_at lists.old list) }

    // There are as many indices and lists.
    ensures indices { lists.new.indices ≡ lists.old.indices }
    ensures lists { length lists.new.lists ≡ length lists.old.lists }
{
    if from == to {
        return;
    }
    unlist(lists, index, from);
    enlist(lists, index, to);
}

/// Takes an index off the list that it is on.
fn unlist(lists: &mut IndexLists, index: u32, from: Option<u32>)
    requires from { IfSome from (λ list. list < length lists.old.lists) }
    requires stands { (list : ℕ) → list < length lists.old.lists → times index (list_at lists.old list) ≡ stands_on from list }
    ensures gone { (list : ℕ) → list < length lists.new.lists → times index (list_at lists.new list) ≡ 0 }
    ensures others { (list other : ℕ) → other ≢ index
        → times other (list_at lists.new list) ≡ times other (list_at lists.old list) }
    ensures indices { lists.new.indices ≡ lists.old.indices }
    ensures lists { length lists.new.lists ≡ length lists.old.lists }
{
    if let Some(list) = from {
        lists.remove(list, index);
    }
}

/// Puts an index that is on no list on one.
fn enlist(lists: &mut IndexLists, index: u32, to: Option<u32>)
    requires index { index < lists.old.indices }
    requires to { IfSome to (λ list. list < length lists.old.lists) }
    requires gone { (list : ℕ) → list < length lists.old.lists → times index (list_at lists.old list) ≡ 0 }
    ensures stands { (list : ℕ) → list < length lists.new.lists → times index (list_at lists.new list) ≡ stands_on to list }
    ensures others { (list other : ℕ) → other ≢ index
        → times other (list_at lists.new list) ≡ times other (list_at lists.old list) }
    ensures indices { lists.new.indices ≡ lists.old.indices }
    ensures lists { length lists.new.lists ≡ length lists.old.lists }
{
    if let Some(list) = to {
        lists.push_front(list, index);
    }
}
