// The blocks of a buffer, and what expires in it.
use block_buffer::Buffer;
use m3_model::{Memory, Point, Rules, Seq, Space, Text};
use std::alloc::Global;
use std::test::Fail;

fn put(alloc: Global, buffer: &mut Buffer, t: u64) -> Result<(), Memory> {
    let id = Text::from_str(alloc, "a")?;
    let p = Point { ns: 0, id, t, v: 1 };
    buffer.room(&p)?;
    buffer.put(&p);
    Ok(())
}

// A buffer of three points in two blocks of 10.
fn filled(alloc: Global) -> Result<Buffer, Memory> {
    let mut buffer = Buffer::new(alloc);
    put(alloc, &mut buffer, 10)?;
    put(alloc, &mut buffer, 19)?;
    put(alloc, &mut buffer, 35)?;
    Ok(buffer)
}

// One namespace with blocks of 10, in which points are kept for 20.
fn rules(alloc: Global, now: u64) -> Result<Rules, Memory> {
    let mut spaces = Seq::new(alloc);
    let space = Space {
        name: Text::from_str(alloc, "n")?,
        block: 10,
        past: 0,
        future: 0,
        retention: 20,
    };
    spaces.push(space).map_err(|_| Memory)?;
    Ok(Rules { now, spaces })
}

// How many blocks have points.
fn blocks(alloc: Global, buffer: &Buffer, rules: &Rules) -> Result<usize, Memory> {
    if !rules.spaces.as_slice().iter().all(|space| 0 < space.block) {
        return Ok(0);
    }
    Ok(buffer.blocks(alloc, rules)?.len())
}

#[test]
fn blocks_with_points(rt: HostRuntime) -> Result<(), Fail> {
    let buffer = filled(rt.alloc())?;
    assert_eq!(rt; blocks(rt.alloc(), &buffer, &rules(rt.alloc(), 0)?)?, 2);
    Ok(())
}

#[test]
fn expired_points(rt: HostRuntime) -> Result<(), Fail> {
    let mut buffer = filled(rt.alloc())?;
    assert_eq!(rt; buffer.expire(&rules(rt.alloc(), 38)?), 1);
    assert_eq!(rt; buffer.expire(&rules(rt.alloc(), 55)?), 2);
    Ok(())
}
