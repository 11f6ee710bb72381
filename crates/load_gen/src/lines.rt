//! The requests of a script.
ghost use Rattle.std.specs.Prelude.{◌≡◌, IfOk};
ghost use Rattle.load_gen.specs.Lines.{init_line, namespace_line, now_line, write_line, replace_line, bootstrap_line, match_line};

use crate::draws::{draw, drawn};
use m3_model::{Act, Memory, ReadLevel, Request, Seq, Text, WriteLevel};
use std::alloc::Global;

fn node(alloc: Global, name: &str, group: &str) -> Result<(Text, Text), Memory>
    ensures { IfOk result (λ node. node ≡ (name.now, group.now)) }
{
    let name = Text::from_str(alloc, name)?;
    let group = Text::from_str(alloc, group)?;
    Ok((name, group))
}

pub(crate) fn init(alloc: Global) -> Result<Request, Memory>
    ensures { IfOk result (λ line. line ≡ init_line) }
{
    let mut nodes = Vec::new(alloc);
    nodes.push(node(alloc, "a", "g1")?)?;
    nodes.push(node(alloc, "b", "g2")?)?;
    nodes.push(node(alloc, "c", "g3")?)?;
    let nodes = Seq::from_vec(nodes);
    Ok(Request::One(Act::Init {
        rf: 3,
        shards: 8,
        seed: 0,
        nodes,
    }))
}

pub(crate) fn namespace(alloc: Global) -> Result<Request, Memory>
    ensures { IfOk result (λ line. line ≡ namespace_line) }
{
    let name = Text::from_str(alloc, "m")?;
    Ok(Request::One(Act::Namespace {
        name,
        block: 200,
        past: 100,
        future: 50,
        retention: 10_000,
    }))
}

// A write at the moment, of the next two draws from this state: the first picks the series, the second the value.
pub(crate) fn write(alloc: Global, moment: u64, x: u64) -> Result<Request, Memory>
    ensures { IfOk result (λ line. line ≡ write_line moment x) }
{
    let series = draw(x) % 100;
    let value = draw(drawn(x)) % 1_000;
    let ns = Text::from_str(alloc, "m")?;
    let id = Text::from_string(format!(in alloc; "s{series}")?);
    Ok(Request::One(Act::Write {
        ns,
        id,
        t: moment,
        v: value as i64,
        level: WriteLevel::Majority,
        version: None,
    }))
}

pub(crate) fn replace(alloc: Global) -> Result<Request, Memory>
    ensures { IfOk result (λ line. line ≡ replace_line) }
{
    let node = Text::from_str(alloc, "c")?;
    let by = Text::from_str(alloc, "d")?;
    let group = Text::from_str(alloc, "g3")?;
    Ok(Request::One(Act::Replace { node, by, group }))
}

pub(crate) fn bootstrap(alloc: Global) -> Result<Request, Memory>
    ensures { IfOk result (λ line. line ≡ bootstrap_line) }
{
    let node = Text::from_str(alloc, "d")?;
    Ok(Request::One(Act::Bootstrap { node, shard: None }))
}

pub(crate) fn match_all(alloc: Global) -> Result<Request, Memory>
    ensures { IfOk result (λ line. line ≡ match_line) }
{
    let ns = Text::from_str(alloc, "m")?;
    Ok(Request::One(Act::Match {
        ns,
        wanted: Seq::new(alloc),
        from: 0,
        to: 501,
        level: ReadLevel::Majority,
        version: None,
    }))
}
