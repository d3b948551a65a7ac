//! Where the fragments stand.
ghost use Rattle.std.specs.Prelude.{◌≡◌, ◌≢◌, ◌+◌, ◌-◌, ◌<◌, ◌≤◌, ◌^◌, ℕ, List, [], ◌∷◌, length, drop, replicate, map, Some, None, IfOk, slice_set, slice_get};
ghost use Rattle.regions.specs.Shapes.{shape, group_count};
ghost use Rattle.regions.specs.Counts.{left, live_total};
ghost use Rattle.regions.specs.Contents.{Item, live_at};
ghost use Rattle.regions.specs.Stores.{Live, renamed};
ghost use Rattle.fragments.specs.Sizes.{fragment_bytes, most_fragments, object_size};
ghost use Rattle.fragments.specs.Chains as chains;
ghost use Rattle.fragments.specs.Store.{Stay};
ghost use Rattle.fragments.specs.inside.Consistent.{AreEntries};
ghost use Rattle.fragments.specs.inside.Linking as linking;

use crate::chains::Chains;
use crate::links::{
    back_of, kill_fragment, lead_around, lead_back, name_of, next_of, place_fragment,
};
use regions::{Movers, Place, Region};
use std::alloc::{AllocError, Global};
use std::marker::Model;

// Where the first fragment of each value stands: the mover of the region. The value that is being written has an entry of its
// own, behind those of the names.
#[derive(Drop)]
pub(crate) struct Tables {
    names: u32,
    grows: u32,
    firsts: Vec<Option<Place>>,
    chains: Chains,
}

impl Model for Tables {
    ghost use Rattle.fragments.specs.Chains.{TableState};
    ghost use Rattle.fragments.specs.inside.Consistent.{AreEntries};

    ghost Value = { TableState };

    ghost view = { λ t. record { names = t.names; grows = t.grows; firsts = t.firsts.items; chains = t.chains.places } };

    ghost invariant = { λ t. AreEntries (record { names = t.names; grows = t.grows; firsts = t.firsts.items; chains = t.chains.places }) };
}

impl Tables {
    // Tables of so many names, none of which has a value. No other call takes memory.
    pub(crate) fn new(alloc: Global, names: u32) -> Result<Tables, AllocError>
        requires { names < 2 ^ 32 - 1 }
        ensures { IfOk result (λ t. t ≡ record {
          names = names;
          grows = 0;
          firsts = replicate (names + 1) None;
          chains = replicate (names + 1) [];
        }) }
    {
        Ok(Tables {
            names,
            grows: 0,
            firsts: no_firsts(alloc, names + 1)?,
            chains: Chains::empty(&names),
        })
    }

    // How many names there are.
    pub(crate) fn names(&self) -> u32
        ensures { result ≡ self.now.names }
    {
        self.names
    }

    // Where the first fragment of an entry stands. Each entry has one and a chain.
    pub(crate) fn first(&self, entry: u32) -> Option<Place>
        requires { entry ≤ self.now.names }
        ensures place { result ≡ chains.first_at self.now.firsts entry }
        ensures entries { AreEntries self.now }
    {
        self.firsts[entry as usize]
    }

    // The value that is written next is of the name.
    pub(crate) fn begin(&mut self, name: u32)
        ensures state { self.new ≡ record self.old { grows = name } }
        ensures entries { AreEntries self.old }
    {
        self.grows = name;
    }

    // Places a fragment in front of those of the value that is being written.
    pub(crate) fn grow(&mut self, region: &mut Region, bytes: &[u8])
        requires chains { chains.AreChains self.old (live_at region.old) }
        requires one { group_count region.old ≡ 1 }
        requires short { length bytes.now ≤ fragment_bytes }
        requires left { object_size (length bytes.now) ≤ left region.old 0 }
        requires few { length (chains.chain_at self.old.chains self.old.names) < most_fragments }
        requires name { self.old.grows < self.old.names }

        // The chains, and what they hold.
        ensures chains { chains.AreChains self.new (live_at region.new) }
        ensures parts { (all more : chains.Parts) → chains.HoldParts self.old (live_at region.old) all
            → more self.old.names ≡ bytes.now ∷ all self.old.names → ((e : ℕ) → e ≢ self.old.names → more e ≡ all e)
            → chains.HoldParts self.new (live_at region.new) more }
        ensures names { self.new.names ≡ self.old.names }
        ensures grows { self.new.grows ≡ self.old.grows }
        ensures longer { length (chains.chain_at self.new.chains self.old.names)
            ≡ length (chains.chain_at self.old.chains self.old.names) + 1 }

        // Counted: its bytes are live. The segments are as they were.
        ensures live_total { live_total region.new ≡ live_total region.old + object_size (length bytes.now) }
        ensures shape { shape region.new ≡ shape region.old }
    {
        let entry = self.names;
        let first = self.first(entry);
        let place = place_fragment(region, first, self.grows, bytes);
        lead_back(region, first, Some(place));
        self.put_front(entry, place);
    }

    // The fragment at a place is the first of an entry.
    fn put_front(&mut self, entry: u32, place: Place)
        requires { entry ≤ self.old.names }
        ensures { self.new ≡ record self.old {
          firsts = slice_set self.old.firsts entry (Some place);
          chains = slice_set self.old.chains entry (place ∷ chains.chain_at self.old.chains entry);
        } }
    {
        self.firsts[entry as usize] = Some(place);
        self.chains = self.chains.with_front(&entry, &place);
    }

    // The first fragment of an entry, at the place, is dead from now on, and the next one is the first.
    pub(crate) fn drop_front(&mut self, region: &mut Region, entry: u32, place: Place)
        requires chains { chains.AreChains self.old (live_at region.old) }
        requires entry { entry ≤ self.old.names }
        requires first { chains.first_at self.old.firsts entry ≡ Some place }

        // The chains, and what they hold.
        ensures chains { chains.AreChains self.new (live_at region.new) }
        ensures parts { (all fewer : chains.Parts) (part : List ℕ) → chains.HoldParts self.old (live_at region.old) all
            → all entry ≡ part ∷ fewer entry → ((e : ℕ) → e ≢ entry → fewer e ≡ all e)
            → chains.HoldParts self.new (live_at region.new) fewer }
        ensures names { self.new.names ≡ self.old.names }
        ensures grows { self.new.grows ≡ self.old.grows }
        ensures shorter { chains.chain_at self.old.chains entry ≡ place ∷ chains.chain_at self.new.chains entry }
        ensures others { (e : ℕ) → e ≢ entry → chains.chain_at self.new.chains e ≡ chains.chain_at self.old.chains e }

        // Counted: its bytes are live no more. The segments are as they were.
        ensures live_total { (all : chains.Parts) (part : List ℕ) (rest : List (List ℕ))
            → chains.HoldParts self.old (live_at region.old) all → all entry ≡ part ∷ rest
            → live_total region.new + object_size (length part) ≡ live_total region.old }
        ensures stay { Stay region.old region.new }
        ensures shape { shape region.new ≡ shape region.old }
    {
        let next = next_of(region, place);
        lead_back(region, next, None);
        kill_fragment(region, place);
        self.take_front(entry, next);
    }

    // The first fragment of an entry is gone, and the next one is the first.
    fn take_front(&mut self, entry: u32, next: Option<Place>)
        requires { entry ≤ self.old.names }
        ensures state { self.new ≡ record self.old {
          firsts = slice_set self.old.firsts entry next;
          chains = slice_set self.old.chains entry (drop 1 (chains.chain_at self.old.chains entry));
        } }
        ensures entries { AreEntries self.old }
    {
        self.firsts[entry as usize] = next;
        self.chains = self.chains.without_front(&entry);
    }

    // The value that was written is the name's, which has no fragment yet.
    pub(crate) fn settle(&mut self, name: u32)
        requires name { name < self.old.names }
        requires grows { self.old.grows ≡ name }
        requires none { chains.chain_at self.old.chains name ≡ [] }
        ensures chains { (live : Live) → chains.AreChains self.old live → chains.AreChains self.new live }
        ensures parts { (live : Live) (all settled : chains.Parts) → chains.HoldParts self.old live all
            → settled name ≡ all self.old.names → settled self.old.names ≡ []
            → ((e : ℕ) → e ≢ name → e ≢ self.old.names → settled e ≡ all e) → chains.HoldParts self.new live settled }
        ensures names { self.new.names ≡ self.old.names }
        ensures empty { chains.chain_at self.new.chains self.old.names ≡ [] }
        ensures entries { AreEntries self.new }
    {
        self.hand_over(name);
    }

    // The entry behind those of the names has no fragment, and the name has its chain.
    fn hand_over(&mut self, name: u32)
        requires { name < self.old.names }
        ensures state { self.new ≡ record self.old {
          firsts = slice_set (slice_set self.old.firsts name (chains.first_at self.old.firsts self.old.names)) self.old.names None;
          chains = slice_set (slice_set self.old.chains name (chains.chain_at self.old.chains self.old.names)) self.old.names [];
        } }
        ensures were { AreEntries self.old }
        ensures entries { AreEntries self.new }
    {
        let entry = self.names;
        self.firsts[name as usize] = self.firsts[entry as usize];
        self.firsts[entry as usize] = None;
        self.chains = self.chains.handed_over(&entry, &name);
    }

    // No entry has a fragment.
    pub(crate) fn clear(&mut self)
        ensures { self.new ≡ record self.old {
          firsts = replicate (self.old.names + 1) None;
          chains = replicate (self.old.names + 1) [];
        } }
    {
        self.firsts.fill(None);
        let names = self.names;
        self.chains = Chains::empty(&names);
    }

    // What stood at one place, behind another fragment or as the first one of its chain, stands at another place.
    fn relocate(&mut self, back: Option<Place>, name: u32, from: Place, to: Place)
        requires { (back ≡ None) → name < self.old.names }
        ensures names { self.new.names ≡ self.old.names }
        ensures grows { self.new.grows ≡ self.old.grows }
        ensures chains { self.new.chains ≡ map (map (renamed from to)) self.old.chains }
        ensures first { (back ≡ None) → linking.IsMended self.old name from to self.new.firsts }
        ensures behind { (back ≢ None) → self.new.firsts ≡ self.old.firsts }
    {
        if back.is_none() {
            self.mend_first(name, from, to);
        }
        self.rename(from, to);
    }

    // The first fragment of the name's value, or of the value that is being written, stands at another place.
    fn mend_first(&mut self, name: u32, from: Place, to: Place)
        requires { name < self.old.names }
        ensures state { self.new ≡ record self.old { firsts = self.new.firsts } }
        ensures first { linking.IsMended self.old name from to self.new.firsts }
    {
        let entry = self.entry_of(name, from);
        self.firsts[entry as usize] = Some(to);
    }

    // What stood at one place stands at another, in no table but the one that only contracts know.
    fn rename(&mut self, from: Place, to: Place)
        ensures { self.new ≡ record self.old { chains = map (map (renamed from to)) self.old.chains } }
    {
        self.chains = self.chains.moved(&from, &to);
    }

    // The entry whose first fragment, of the name, stands at the place.
    fn entry_of(&self, name: u32, place: Place) -> u32
        requires { name < self.now.names }
        ensures there { chains.first_at self.now.firsts name ≡ Some place → result ≡ name }
        ensures elsewhere { chains.first_at self.now.firsts name ≢ Some place → result ≡ self.now.names }
    {
        if self.firsts[name as usize] == Some(place) {
            name
        } else {
            self.names
        }
    }
}

// So many entries without a first fragment.
fn no_firsts(alloc: Global, entries: u32) -> Result<Vec<Option<Place>>, AllocError>
    ensures { IfOk result (λ firsts. firsts.items ≡ replicate entries None) }
{
    let mut firsts = Vec::with_capacity(alloc, entries as usize)?;
    for _entry in 0..entries {
        firsts.push(None)?;
    }
    Ok(firsts)
}

impl Movers for Tables {
    ghost use Rattle.std.specs.Prelude.{map, length};
    ghost use Rattle.fragments.specs.Chains as chains;
    ghost use Rattle.fragments.specs.Fragment as fragments;

    ghost fits = { chains.AreChains };

    ghost place_of = { chains.place_of };

    ghost bare = { fragments.bare };

    ghost references = { fragments.references };

    ghost Rest = { chains.TableShape };

    ghost rest = { chains.shape_of };

    fn moved(&mut self, store: &mut Region, _kind: u8, from: Place, to: Place) {
        // What always holds of the fields is known where one of them is used.
        let _ = &self.names;
        let name = name_of(store, to);
        let back = back_of(store, to);
        let next = next_of(store, to);
        self.relocate(back, name, from, to);
        lead_around(store, back, next, to);
    }
}
