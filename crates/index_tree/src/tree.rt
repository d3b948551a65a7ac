//! The index: an ordered map from keys to numbers.
ghost use Rattle.std.specs.Prelude.{◌≡◌, ◌↔◌, ℕ, ◌+◌, ◌-◌, ◌*◌, ◌<◌, ◌≤◌, All, [], length, take, drop, replicate, true, false, Some, None, IfErr, IfOk, IfSome, IsErr, IsNone, IsSome};
ghost use Rattle.layout.specs.Sizes as sizes;
ghost use Rattle.regions.specs.Segments.{segment_at, with_segment, with_guards, fresh, all_emptied, idle};
ghost use Rattle.regions.specs.Shapes.{shape, group_count, active_of, guards_of, most_guards, pieces, held_count, free_count, IsGreatestHeld, IsLeastUnused};
ghost use Rattle.regions.specs.Contents.{Item, Keeps, live_at};
ghost use Rattle.regions.specs.declared.place.Place.{Place};
ghost use Rattle.tree_nodes.specs.Nodes.{IsEntry};
ghost use Rattle.layout.specs.Kinds.{node_kind};
ghost use Rattle.index_tree.specs.Sizes.{most};
ghost use Rattle.index_tree.specs.Limits.{most_levels, most_run_levels, most_spares};
ghost use Rattle.index_tree.specs.Indexes as indexes;
ghost use Rattle.segmented_store.specs.Segments.{HoldsSegments};
ghost use Rattle.index_tree.specs.Store.{index_in, levels, AreNodes, Stay};
ghost use Rattle.index_tree.specs.Scans as scans;

use crate::filling::fill_spares;
use crate::placing::{GROUP, most_keys};
use crate::pruning::remove_at_root;
use crate::roots::Roots;
use crate::scanning::range;
use crate::search::get;
use raw_range::Piece;
use regions::Region;
use row_bytes::Scanned;
use segmented_store::Segmented;
use std::alloc::{AllocError, Global};
use std::marker::Model;

/// As many keys are held as the segments surely have room for.
///
/// # Examples
/// ```
/// let had = tree.insert(b"apple", 7);
/// let full = had == Err(Full); // then nothing changed
/// ```
#[derive(Debug, Clone, Copy, PartialEq, Eq)]
pub struct Full;

/// An ordered map from keys of 1 to 256 bytes to numbers, and the segments in which its nodes stand. Nodes may move whenever a
/// key is inserted, and never while a guard stands. The pieces of an index that is dropped stay allocated for good:
/// [`IndexTree::give_up`] hands them out.
///
/// # Examples
/// ```
/// let tree = IndexTree::new(alloc, 1280 / SEGMENT_PAGES)?;
/// let mut ranged = Ranged::open(alloc, tree, 1280)?;
/// let had = ranged.store.insert(b"apple", 7); // Ok(None)
/// let number = ranged.store.get(b"apple"); // Some(7)
/// let mut keys = [0u8; 516]; // room for two keys of the greatest length
/// let scanned = ranged.store.range(b"a", 2, &mut keys); // Scanned { keys: 1, bytes: 7 }
/// let gone = ranged.store.remove(b"apple"); // Some(7)
/// ranged.close(); // gives the memory back
/// ```
#[derive(Drop)]
pub struct IndexTree {
    region: Region,
    roots: Roots,
    keys: u32,
    segments: u32,
}

impl Model for IndexTree {
    ghost use Rattle.index_tree.specs.Store.{IndexState};
    ghost use Rattle.index_tree.specs.inside.Consistent.{IsConsistent};

    ghost Value = { IndexState };

    ghost view = { λ t. record { tree = t.roots.tree; region = t.region } };

    ghost invariant = { λ t. IsConsistent t.roots t.region t.keys t.segments };
}

impl IndexTree {
    /// An index without keys and segments, with numbers of segments below `segments`.
    ///
    /// # Errors
    /// `AllocError` where memory is not found. No other call takes memory.
    pub fn new(alloc: Global, segments: u32) -> Result<IndexTree, AllocError>
        requires { segments ≤ sizes.most_segments }
        ensures index { IfOk result (λ t. index_in t ≡ []) }
        ensures held { IfOk result (λ t. held_count t.region ≡ 0) }
        ensures region { IfOk result (λ t. t.region ≡ record {
          most = segments;
          groups = replicate 1 idle;
          segments = replicate segments None;
        }) }
    {
        Ok(IndexTree {
            region: Region::new(alloc, segments, 1)?,
            roots: Roots::new(),
            keys: 0,
            segments: 0,
        })
    }

    /// What holds of the index at each time: its nodes are a tree, of one kind and few of them spare, its keys rise, and there are
    /// no more than there is room for.
    pub fn facts(&self)
        ensures nodes { AreNodes self.now }
        ensures kinds { (p : Place) (item : Item) → live_at self.now.region p ≡ Some item → item.kind ≡ node_kind }
        ensures spares { length self.now.tree.spares ≤ most_spares }
        ensures index { indexes.IsIndex (index_in self.now) }
        ensures entries { All IsEntry (index_in self.now) }
        ensures room { length (index_in self.now) ≤ most (held_count self.now.region) }
        ensures levels { levels self.now.tree ≤ most_levels }
        ensures run_levels { sizes.segment_pages * held_count self.now.region ≤ sizes.most_run_pages
            → levels self.now.tree ≤ most_run_levels }
        ensures one { group_count self.now.region ≡ 1 }
    {
        let _ = &self.keys;
    }

    /// The piece becomes a free segment, with the least number that no segment has. Where no segment is active it becomes the
    /// active one, or the least free one does.
    pub fn add_segment(&mut self, piece: Piece)
        requires room { held_count self.old.region < (shape self.old.region).most }
        requires segment { length piece.bytes ≡ sizes.segment }
        ensures index { index_in self.new ≡ index_in self.old }
        ensures tree { self.new.tree ≡ self.old.tree }
        ensures objects { Keeps self.old.region self.new.region }
        ensures added { (n : ℕ) × IsLeastUnused self.old.region n
            × (pieces self.new.region ≡ pieces (with_segment self.old.region n (Some (fresh piece)))) }
        ensures held { held_count self.new.region ≡ held_count self.old.region + 1 }
        ensures most { (shape self.new.region).most ≡ (shape self.old.region).most }
        ensures active { IsSome (active_of self.new.region 0) }
        ensures same { IsSome (active_of self.old.region 0) → active_of self.new.region 0 ≡ active_of self.old.region 0 }
        ensures guards { guards_of self.new.region 0 ≡ guards_of self.old.region 0 }
    {
        let active = self.region.active(GROUP);
        self.region.add_segment(piece);
        self.segments += 1;
        if active.is_none() {
            self.region.next_active(GROUP);
        }
    }

    // Places the spare nodes that an insertion takes: one for each level, and one for a new root. Nodes may move meanwhile.
    fn make_ready(&mut self)
        requires held { 3 ≤ held_count self.old.region }
        requires guards { guards_of self.old.region 0 ≡ 0 }
        requires some { 1 ≤ most (held_count self.old.region) }
        ensures index { index_in self.new ≡ index_in self.old }
        ensures levels { levels self.new.tree ≡ levels self.old.tree }
        ensures spares { levels self.new.tree < length self.new.tree.spares }
        ensures segments { HoldsSegments self.old.region self.new.region }
    {
        let wanted = self.roots.height() as usize + 1;
        fill_spares(&mut self.region, &mut self.roots, wanted);
    }

    // Whether as many keys are held as there is surely room for.
    fn is_full(&self) -> bool
        ensures full { result ≡ true → most (held_count self.now.region) ≤ length (index_in self.now) }
        ensures room { result ≡ false → length (index_in self.now) < most (held_count self.now.region) }
    {
        u64::from(self.keys) >= most_keys(self.segments)
    }

    // Sets the number of a key, where spare nodes are ready.
    fn put_in(&mut self, key: &[u8], number: u32, had: Option<u32>)
        requires some_key { 1 ≤ length key.now }
        requires short_key { length key.now ≤ sizes.greatest_key }
        requires spares { levels self.old.tree < length self.old.tree.spares }
        requires had { had ≡ indexes.number_of key.now (index_in self.old) }
        requires room { had ≡ None → length (index_in self.old) < most (held_count self.old.region) }
        ensures index { index_in self.new ≡ indexes.with_number key.now number (index_in self.old) }
        ensures segments { HoldsSegments self.old.region self.new.region }
    {
        let planted = self.roots.plant(&mut self.region, key, number);
        self.roots.settle(
            &self.region,
            Some(planted.root),
            planted.level,
            planted.left,
        );
        self.keys += u32::from(had.is_none());
    }

    /// Sets the number of a key, and gives the one that it had. Nodes may move meanwhile.
    ///
    /// # Errors
    /// `Full` where the key is not there and as many keys are held as the segments surely have room for. Nothing changed.
    pub fn insert(&mut self, key: &[u8], number: u32) -> Result<Option<u32>, Full>
        requires some_key { 1 ≤ length key.now }
        requires short_key { length key.now ≤ sizes.greatest_key }
        requires held { 3 ≤ held_count self.old.region }
        requires guards { guards_of self.old.region 0 ≡ 0 }

        // When it is refused, and that nothing changed then.
        ensures full { IsErr result ↔ ((indexes.number_of key.now (index_in self.old) ≡ None)
            × (most (held_count self.old.region) ≤ length (index_in self.old))) }
        ensures unchanged { IfErr result (λ _. self.new ≡ self.old) }

        // The index, and the segments in which it stands.
        ensures had { IfOk result (λ had. had ≡ indexes.number_of key.now (index_in self.old)) }
        ensures index { IfOk result (λ _. index_in self.new ≡ indexes.with_number key.now number (index_in self.old)) }
        ensures segments { HoldsSegments self.old.region self.new.region }
    {
        let had = self.get(key);
        if had.is_none() && self.is_full() {
            return Err(Full);
        }
        self.make_ready();
        self.put_in(key, number, had);
        Ok(had)
    }

    /// The number of a key. None where it is not there.
    pub fn get(&self, key: &[u8]) -> Option<u32>
        ensures { result ≡ indexes.number_of key.now (index_in self.now) }
    {
        get(&self.region, self.roots.root(), self.roots.level(), key)
    }

    /// Takes a key away, and gives its number. None where it is not there. No node moves: each that stays keeps its place, its level
    /// and its order among the nodes of the level.
    pub fn remove(&mut self, key: &[u8]) -> Option<u32>
        ensures had { result ≡ indexes.number_of key.now (index_in self.old) }
        ensures unchanged { IsNone result → self.new ≡ self.old }
        ensures index { index_in self.new ≡ indexes.without key.now (index_in self.old) }
        ensures stay { Stay self.old self.new }
        ensures segments { HoldsSegments self.old.region self.new.region }
    {
        let root = self.roots.root()?;
        let (number, pruned) = remove_at_root(&mut self.region, root, self.roots.level(), key)?;
        self.roots.release(
            &self.region,
            pruned.root,
            pruned.level,
            pruned.freed.as_slice(),
        );
        self.roots.trim(&mut self.region);
        self.keys -= 1;
        Some(number)
    }

    /// Writes the first `count` keys at or above one, each behind its length in two bytes. Every key of the index has 1 to 256.
    pub fn range(&self, lo: &[u8], count: u32, into: &mut [u8]) -> Scanned
        requires some { 1 ≤ count }
        requires most { count ≤ sizes.most_keys }
        requires room { sizes.key_room * count ≤ length into.old }
        ensures keys { result.keys ≡ length (take count (indexes.from lo.now (index_in self.now))) }
        ensures bytes { take result.bytes into.new ≡ scans.scanned lo.now count (index_in self.now) }
        ensures within { result.bytes ≤ length into.old }
        ensures behind { drop result.bytes into.new ≡ drop result.bytes into.old }
        ensures entries { All IsEntry (index_in self.now) }
    {
        range(
            &self.region,
            self.roots.root(),
            self.roots.level(),
            lo,
            count,
            into,
        )
    }

    /// How many keys there are.
    pub fn len(&self) -> u32
        ensures { result ≡ length (index_in self.now) }
    {
        self.keys
    }

    /// How many levels the tree has, at most 7, and in segments of 65,536 pages at most 6; none where there is no key.
    pub fn height(&self) -> u32
        ensures levels { result ≡ levels self.now.tree }
        ensures most { result ≤ most_levels }
        ensures most_of_run { sizes.segment_pages * held_count self.now.region ≤ sizes.most_run_pages
            → result ≤ most_run_levels }
        ensures none { (result ≡ 0) ↔ (index_in self.now ≡ []) }
    {
        self.roots.height()
    }

    /// One guard more. While one stands, no node is moved. Guards nest.
    pub fn guard(&mut self)
        requires { guards_of self.old.region 0 < most_guards }
        ensures guards { self.new ≡ record self.old { region = with_guards self.old.region 0 (guards_of self.old.region 0 + 1) } }
        ensures index { index_in self.new ≡ index_in self.old }
    {
        self.region.guard(GROUP);
    }

    /// One guard less.
    pub fn unguard(&mut self)
        requires { 1 ≤ guards_of self.old.region 0 }
        ensures guards { self.new ≡ record self.old { region = with_guards self.old.region 0 (guards_of self.old.region 0 - 1) } }
        ensures index { index_in self.new ≡ index_in self.old }
    {
        self.region.unguard(GROUP);
    }

    /// Drops all keys, makes every segment free, and takes the one with the greatest number out. None where no segment is held.
    pub fn give_up(&mut self) -> Option<Piece>
        requires { guards_of self.old.region 0 ≡ 0 }
        ensures index { index_in self.new ≡ [] }
        ensures none { IsNone result ↔ (held_count self.old.region ≡ 0) }
        ensures emptied { IsNone result → self.new.region ≡ all_emptied self.old.region }
        ensures given { IfSome result (λ piece. (n : ℕ) × IsGreatestHeld self.old.region n
            × (segment_at (all_emptied self.old.region) n ≡ Some (fresh piece))
            × (self.new.region ≡ with_segment (all_emptied self.old.region) n None)) }
        ensures held { IsSome result → held_count self.new.region + 1 ≡ held_count self.old.region }
        ensures free { free_count self.new.region ≡ held_count self.new.region }
    {
        let given = self.region.give_up();
        self.roots = Roots::new();
        self.keys = 0;
        self.segments = self.segments.saturating_sub(1);
        given
    }
}

impl Segmented for IndexTree {
    ghost region = { λ t. t.region };

    ghost Content = { indexes.Index };

    ghost content = { index_in };

    fn take_piece(&mut self, piece: Piece) {
        self.add_segment(piece);
    }

    fn give_piece(&mut self) -> Option<Piece> {
        self.give_up()
    }
}
