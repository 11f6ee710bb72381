//! Links from tags to the ordinals of series.
#![tactic(auto)]

ghost use Rattle.std.specs.Prelude.{◌≡◌, ◌||◌, ◌&&◌, ◌<◌, ◌↔◌, ℕ, List, [], ◌∷◌, not, false, nat_eq, option_copied, IfOk, OnOk, OnErr, IsTrue};
ghost use Rattle.std.specs.BTreeSet.{IsOrdered};
ghost use Rattle.std.specs.Ordering.{nat_cmp};
ghost use Rattle.std.specs.Str.{bytes_eq};
ghost use Rattle.m3_model.specs.Ascends.{Ascends};
ghost use Rattle.m3_model.specs.Members.{IsIn};
ghost use Rattle.tag_links.specs.Links.{Link, link_of, is_link_of, is_in, is_under, linked_at, is_linked_in};

use indexmap::IndexMap;
use m3_model::{Memory, Text};
use std::alloc::Global;
use std::collections::BTreeSet;

// The ordinals of the series with each value of one name.
type Values = IndexMap<String, BTreeSet<u32>>;

/// The ordinals of the series with each tag, by its name and then by its value. A tag that no series has stands nowhere.
pub type Links = IndexMap<String, Values>;

// Puts the ordinal under the value. Want of memory changes nothing.
fn link_value(values: &mut Values, alloc: Global, value: &str, ordinal: u32) -> Result<(), Memory>
    ensures ok { OnOk result ((v : List ℕ) (o : ℕ) → is_under values.new v o ≡ (is_under values.old v o || (bytes_eq value.now v && nat_eq ordinal o))) }
    ensures err { OnErr result ((v : List ℕ) (o : ℕ) → is_under values.new v o ≡ is_under values.old v o) }
{
    match values.get_mut(value) {
        Some(ordinals) => {
            ordinals.insert(ordinal)?;
        }
        None => {
            let key = String::from_str(alloc, value)?;
            let mut ordinals = BTreeSet::new(alloc);
            ordinals.insert(ordinal)?;
            values.insert(key, ordinals)?;
        }
    }
    Ok(())
}

// Links the tag to the ordinal. Want of memory changes nothing.
fn link_one(
    links: &mut Links,
    alloc: Global,
    tag: &(Text, Text),
    ordinal: u32,
) -> Result<(), Memory>
    ensures ok { OnOk result ((q : Link) → is_linked_in links.new q ≡ (is_linked_in links.old q || is_link_of (tag.now ∷ []) ordinal q)) }
    ensures err { OnErr result ((q : Link) → is_linked_in links.new q ≡ is_linked_in links.old q) }
{
    let (name, value) = (tag.0.as_str(), tag.1.as_str());
    match links.get_mut(name) {
        Some(values) => link_value(values, alloc, value, ordinal)?,
        None => {
            let key = String::from_str(alloc, name)?;
            let mut values = IndexMap::new(alloc);
            link_value(&mut values, alloc, value, ordinal)?;
            links.insert(key, values)?;
        }
    }
    Ok(())
}

/// Links the tags to the ordinal. Want of memory leaves some of them linked.
pub fn link(
    links: &mut Links,
    alloc: Global,
    tags: &[(Text, Text)],
    ordinal: u32,
) -> Result<(), Memory>
    ensures kept { (q : Link) → is_link_of tags.now ordinal q ≡ false → is_linked_in links.new q ≡ is_linked_in links.old q }
    ensures linked { OnOk result ((q : Link) → is_linked_in links.new q ≡ (is_linked_in links.old q || is_link_of tags.now ordinal q)) }
{
    for tag in tags {
        link_one(links, alloc, tag, ordinal)?;
    }
    Ok(())
}

// Takes the ordinal from under the value, and the value away with its last ordinal. Takes no memory.
fn unlink_value(values: &mut Values, value: &str, ordinal: u32)
    ensures { (v : List ℕ) (o : ℕ) → is_under values.new v o ≡ (is_under values.old v o && not (bytes_eq value.now v && nat_eq ordinal o)) }
{
    if let Some(ordinals) = values.get_mut(value) {
        ordinals.remove(&ordinal);
        if ordinals.is_empty() {
            values.swap_remove(value);
        }
    }
}

// Takes the link of the tag to the ordinal out, and the name away with its last value. Takes no memory.
fn unlink_one(links: &mut Links, tag: &(Text, Text), ordinal: u32)
    ensures { (q : Link) → is_linked_in links.new q ≡ (is_linked_in links.old q && not (is_link_of (tag.now ∷ []) ordinal q)) }
{
    let (name, value) = (tag.0.as_str(), tag.1.as_str());
    if let Some(values) = links.get_mut(name) {
        unlink_value(values, value, ordinal);
        if values.is_empty() {
            links.swap_remove(name);
        }
    }
}

/// Takes the links of the tags to the ordinal out, each in constant expected time and the logarithm of its posting's
/// length. Takes no memory.
pub fn unlink(links: &mut Links, tags: &[(Text, Text)], ordinal: u32)
    ensures { (q : Link) → is_linked_in links.new q ≡ (is_linked_in links.old q && not (is_link_of tags.now ordinal q)) }
{
    for tag in tags {
        unlink_one(links, tag, ordinal);
    }
}

// The ordinals that stand under the tag.
fn ordinals_at<'l>(links: &'l Links, name: &str, value: &str) -> Option<&'l BTreeSet<u32>>
    ensures { option_copied result ≡ linked_at links.now name.now value.now }
{
    let values = links.get(name)?;
    values.get(value)
}

// The ordinals of the set, ascending.
fn listed(ordinals: &BTreeSet<u32>, alloc: Global) -> Result<Vec<u32>, Memory>
    ensures items { IfOk result (λ v. v.items ≡ ordinals.now.keys) }
    ensures ordered { IsOrdered nat_cmp ordinals.now }
{
    let items = ordinals.iter().copied().collect(alloc)?;
    Ok(items)
}

/// The ordinals to which the tag is linked, ascending.
pub fn linked(links: &Links, alloc: Global, name: &str, value: &str) -> Result<Vec<u32>, Memory>
    ensures ascends { IfOk result (λ v. Ascends ◌<◌ v.items) }
    ensures exact { IfOk result (λ v. (o : ℕ) → IsIn v.items o ↔ IsTrue (is_linked_in links.now (link_of o (name.now, value.now)))) }
{
    match ordinals_at(links, name, value) {
        Some(ordinals) => listed(ordinals, alloc),
        None => Ok(Vec::new(alloc)),
    }
}
