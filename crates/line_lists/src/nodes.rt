ghost use Rattle.std.specs.Prelude.{◌≡◌, ◌==◌};
ghost use Rattle.std.specs.List.{list_any};
ghost use Rattle.std.specs.Cmp.Lexicographic.{pointwise};
ghost use Rattle.line_parse.specs.Contents.{content, contents};
ghost use Rattle.line_fields.specs.Fields.{Gives};
ghost use Rattle.line_lists.specs.Nodes.{node_of_two, node_of_items, node_of, names_differ, nodes_at};

use crate::lists::{Entry, list_at};
use json::Value;
use line_fields::{LineErr, name_in};
use line_parse::as_array;
use m3_model::limits::MOST_NODES;
use m3_model::{Seq, Text};
use std::alloc::Global;

fn node_of_two(alloc: Global, name: &Value<'_>, group: &Value<'_>) -> Result<(Text, Text), LineErr>
    ensures { Gives (λ node. node) result (node_of_two (content name.now) (content group.now)) }
{
    let name = name_in(name)?;
    let group = name_in(group)?;
    Ok((Text::from_str(alloc, name)?, Text::from_str(alloc, group)?))
}

#[tactic(auto, using(crate::proofs::Entries::not_two_items))]
fn node_of_items(alloc: Global, items: &[Value<'_>]) -> Result<(Text, Text), LineErr>
    ensures { Gives (λ node. node) result (node_of_items (contents items.now)) }
{
    if items.len() == 2 {
        node_of_two(alloc, &items[0], &items[1])
    } else {
        Err(LineErr::Form)
    }
}

impl Entry for (Text, Text) {
    ghost reading = { node_of };

    #[tactic(auto, unfolding(crate::specs::Nodes::node_of))]
    fn of_item(alloc: Global, item: &Value<'_>) -> Result<(Text, Text), LineErr> {
        match as_array(item) {
            None => Err(LineErr::Form),
            Some(items) => node_of_items(alloc, items),
        }
    }
}

fn is_taken(name: &Text, nodes: &[(Text, Text)]) -> bool
    ensures { result ≡ list_any (λ other. pointwise ◌==◌ other.0 name.now) nodes.now }
{
    nodes.iter().any(|other| other.0 == *name)
}

fn names_differ(nodes: &[(Text, Text)]) -> bool
    ensures { result ≡ names_differ nodes.now }
{
    match nodes.split_first() {
        None => true,
        Some((first, others)) => !is_taken(&first.0, others) && names_differ(others),
    }
}

/// The field as an array of some nodes, each a name and its group, with names of their own; `Form` where it is none such.
#[tactic(auto, unfolding(crate::specs::Nodes::nodes_at))]
pub fn nodes_at(alloc: Global, value: &Value<'_>, key: &str) -> Result<Seq<(Text, Text)>, LineErr>
    ensures { Gives (λ nodes. nodes) result (nodes_at key.now (content value.now)) }
{
    let nodes = list_at(alloc, value, key, 1, MOST_NODES)?;
    if names_differ(nodes.as_slice()) {
        Ok(nodes)
    } else {
        Err(LineErr::Form)
    }
}
