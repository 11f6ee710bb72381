ghost use Rattle.std.specs.Prelude.{◌≡◌, ◌||◌, ◌&&◌, ◌↔◌, ℕ, ◌<◌, ◌^◌, List, Ok, Some, None, not, cond, false, IsTrue, IsSome, IfOk, OnOk, OnErr, option_map, map, ◌⊎◌};
ghost use Rattle.std.specs.Bool.{OnFalse};
ghost use Rattle.std.specs.FinMap as finite;
ghost use Rattle.std.specs.HashMap.{get_by_text};
ghost use Rattle.std.specs.Str.{bytes_eq};
ghost use Rattle.slab.specs.Slab as slab;
ghost use Rattle.m3_model.specs.Ascends.{Ascends};
ghost use Rattle.m3_model.specs.Members.{IsIn};
ghost use Rattle.tag_index.specs.declared.entry.Entry.{Entry};
ghost use Rattle.tag_index.specs.Links.{Link, is_link_of, is_linked_in};
ghost use Rattle.tag_index.specs.Listed.{id_at, IsAt, IsPresent, HasTagAt, AreDistinct, IsAdded, IsFound};

use crate::entry::Entry;
use indexmap::IndexMap;
use m3_model::{Duplicate, Memory, Seq, Text};
use slab::Slab;
use std::alloc::Global;
use std::marker::Model;
use tag_links::{Links, link, linked, unlink};

/// Series by ordinals and by tags. Contracts see the finite map from the ordinals of the series present to their
/// identifiers and tags; no two of them have the same identifier.
#[derive(Drop)]
pub struct Index {
    alloc: Global,
    // The ordinal of each identifier.
    numbers: IndexMap<String, u32>,
    // The series at each ordinal.
    slots: Slab<Entry>,
    // The ordinals of each tag.
    links: Links,
}

impl Model for Index {
    ghost use Rattle.std.specs.Coded.{coded_ℕ};
    ghost use Rattle.std.specs.FinMap as finite;
    ghost use Rattle.std.specs.HashMap.{get_by_text};
    ghost use Rattle.slab.specs.Slab as slab;
    ghost use Rattle.tag_index.specs.Links.{is_linked_in};
    ghost use Rattle.tag_index.specs.Listed.{Listed, entry_code};
    ghost use Rattle.tag_index.specs.Sound.{listed, IsSound};

    ghost Value = { Listed };

    ghost coded = { finite.code coded_ℕ entry_code };

    ghost view = { λ i. listed i.slots };

    ghost invariant = { λ i. IsSound (get_by_text i.numbers) (slab.get i.slots) (is_linked_in i.links) };
}

// The ordinal that the next series gets. There is none where 2^32 series are present.
fn next_ordinal(slots: &Slab<Entry>) -> Result<u32, Memory>
    ensures next { IfOk result (λ o. o ≡ slots.now.vacant_key) }
    ensures free { IfOk result (λ o. slab.get slots.now o ≡ None) }
    ensures small { IfOk result (λ o. o < 2 ^ 32) }
{
    match u32::try_from(slots.vacant_key()) {
        Ok(ordinal) => Ok(ordinal),
        Err(_) => Err(Memory),
    }
}

// Gives the identifier its ordinal.
fn number(
    numbers: &mut IndexMap<String, u32>,
    alloc: Global,
    id: &Text,
    ordinal: u32,
) -> Result<(), Memory>
    ensures ok { OnOk result ((t : List ℕ) → get_by_text numbers.new t ≡ cond (bytes_eq t id.now) (Some ordinal) (get_by_text numbers.old t)) }
    ensures err { OnErr result ((t : List ℕ) → get_by_text numbers.new t ≡ get_by_text numbers.old t) }
{
    let key = String::from_str(alloc, id.as_str())?;
    numbers.insert(key, ordinal)?;
    Ok(())
}

// Links the series and then numbers it. Want of memory leaves it without a number and some of its tags linked.
fn link_and_number(
    numbers: &mut IndexMap<String, u32>,
    links: &mut Links,
    alloc: Global,
    entry: &Entry,
    ordinal: u32,
) -> Result<(), Memory>
    ensures numbered { OnOk result ((t : List ℕ) → get_by_text numbers.new t ≡ cond (bytes_eq t entry.now.id) (Some ordinal) (get_by_text numbers.old t)) }
    ensures unnumbered { OnErr result ((t : List ℕ) → get_by_text numbers.new t ≡ get_by_text numbers.old t) }
    ensures kept { (q : Link) → is_link_of entry.now.tags ordinal q ≡ false → is_linked_in links.new q ≡ is_linked_in links.old q }
    ensures linked { OnOk result ((q : Link) → is_linked_in links.new q ≡ (is_linked_in links.old q || is_link_of entry.now.tags ordinal q)) }
{
    link(links, alloc, entry.tags.as_slice(), ordinal)?;
    number(numbers, alloc, &entry.id, ordinal)
}

// Links the series and numbers it, or does neither. The ordinal is one that has no links yet.
fn enter(
    numbers: &mut IndexMap<String, u32>,
    links: &mut Links,
    alloc: Global,
    entry: Entry,
    ordinal: u32,
) -> Result<Entry, Memory>
    requires { (q : Link) → q.ordinal ≡ ordinal → is_linked_in links.old q ≡ false }
    ensures back { IfOk result (λ e. e ≡ entry) }
    ensures numbered { OnOk result ((t : List ℕ) → get_by_text numbers.new t ≡ cond (bytes_eq t entry.id) (Some ordinal) (get_by_text numbers.old t)) }
    ensures unnumbered { OnErr result ((t : List ℕ) → get_by_text numbers.new t ≡ get_by_text numbers.old t) }
    ensures linked { OnOk result ((q : Link) → is_linked_in links.new q ≡ (is_linked_in links.old q || is_link_of entry.tags ordinal q)) }
    ensures unlinked { OnErr result ((q : Link) → is_linked_in links.new q ≡ is_linked_in links.old q) }
{
    match link_and_number(numbers, links, alloc, &entry, ordinal) {
        Ok(()) => Ok(entry),
        Err(Memory) => {
            unlink(links, entry.tags.as_slice(), ordinal);
            Err(Memory)
        }
    }
}

// The ordinals of the slots that have a series, ascending.
fn ordinals_of(slots: &Slab<Entry>, alloc: Global) -> Result<Vec<u32>, Memory>
    requires { (x : ℕ × Entry) → IsIn (slab.entries slots.now) x → x.0 < 2 ^ 32 }
    ensures { IfOk result (λ v. v.items ≡ map (λ e. e.0) (slab.entries slots.now)) }
{
    let mut ordinals = Vec::new(alloc);
    for (key, _) in slots.iter() {
        ordinals.push(key as u32)?;
    }
    Ok(ordinals)
}

impl Index {
    /// The index without series. Takes no memory.
    pub fn new(alloc: Global) -> Index
        ensures { result ≡ finite.empty }
    {
        Index {
            alloc,
            numbers: IndexMap::new(alloc),
            slots: Slab::new(alloc),
            links: IndexMap::new(alloc),
        }
    }

    /// The ordinal of the series with this identifier, which is added with these tags if it isn't present; one that is
    /// present keeps its tags, and takes no memory. Ordinals of removed series are given out again. Want of memory, also of
    /// room for more than 2^32 series, changes nothing.
    pub fn add(&mut self, id: &Text, tags: &Seq<(Text, Text)>) -> Result<u32, Memory>
        ensures present { (o : ℕ) → IsAt self.old o id.now → result ≡ Ok o }
        ensures ok { IfOk result (λ o. IsFound self.old self.new id.now o ⊎ IsAdded self.old self.new id.now tags.now o) }
        ensures err { OnErr result (self.new ≡ self.old) }
    {
        match self.numbers.get(id.as_str()) {
            Some(ordinal) => Ok(*ordinal),
            None => self.add_absent(id, tags),
        }
    }

    // Adds a series that isn't present.
    fn add_absent(&mut self, id: &Text, tags: &Seq<(Text, Text)>) -> Result<u32, Memory>
        requires { ¬ IsPresent self.old id.now }
        ensures ok { IfOk result (IsAdded self.old self.new id.now tags.now) }
        ensures err { OnErr result (self.new ≡ self.old) }
    {
        let ordinal = next_ordinal(&self.slots)?;
        let entry = Entry {
            id: id.copy(self.alloc)?,
            tags: tags.copy(self.alloc)?,
        };
        self.slots.reserve(1)?;
        let entry = enter(
            &mut self.numbers,
            &mut self.links,
            self.alloc,
            entry,
            ordinal,
        )?;
        self.slots.insert_reserved(entry);
        Ok(ordinal)
    }

    /// Takes the series with this identifier out, and says whether there was one. Takes no memory.
    pub fn remove(&mut self, id: &str) -> bool
        ensures exact { IsTrue result ↔ IsPresent self.old id.now }
        ensures removed { (o : ℕ) → IsAt self.old o id.now → self.new ≡ finite.remove self.old o }
        ensures absent { OnFalse result (self.new ≡ self.old) }
    {
        match self.numbers.swap_remove(id) {
            Some(ordinal) => {
                let entry = self.slots.remove(ordinal as usize);
                unlink(&mut self.links, entry.tags.as_slice(), ordinal);
                true
            }
            None => false,
        }
    }

    /// The ordinals of the series with this tag, ascending. Costs time in proportion to their number, and constant expected
    /// time to find them.
    pub fn posting(&self, name: &str, value: &str) -> Result<Seq<u32>, Memory>
        ensures ascends { IfOk result (Ascends ◌<◌) }
        ensures exact { IfOk result (λ posting. (o : ℕ) → IsIn posting o ↔ HasTagAt self.now name.now value.now o) }
    {
        let ordinals = linked(&self.links, self.alloc, name, value)?;
        Ok(Seq::from_vec(ordinals))
    }

    /// The ordinals of all series, ascending. Costs time in proportion to the most series that were present at once.
    pub fn all(&self) -> Result<Seq<u32>, Memory>
        ensures ascends { IfOk result (Ascends ◌<◌) }
        ensures exact { IfOk result (λ all. (o : ℕ) → IsIn all o ↔ IsSome (finite.get self.now o)) }
    {
        let ordinals = ordinals_of(&self.slots, self.alloc)?;
        Ok(Seq::from_vec(ordinals))
    }

    /// The identifier of the series with this ordinal, if one is present. Takes no memory.
    pub fn id(&self, ordinal: u32) -> Option<&Text>
        ensures { option_map (λ text. text.now) result ≡ id_at self.now ordinal }
    {
        let entry = self.slots.get(ordinal as usize)?;
        Some(&entry.id)
    }

    /// Whether a series with this identifier is present. No two series have the same one. Takes no memory.
    pub fn has(&self, id: &str) -> bool
        ensures exact { IsTrue result ↔ IsPresent self.now id.now }
        ensures distinct { AreDistinct self.now }
    {
        self.numbers.contains_key(id)
    }
}
