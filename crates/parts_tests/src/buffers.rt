use block_buffer::laws::{expires_as_rules_say, names_all_matched};
use block_buffer::{Buffer, Taken};
use m3_model::{Memory, Pick, Point, Seq, Text};
use std::alloc::Global;
use std::test::Fail;

fn put(alloc: Global, buffer: &mut Buffer, t: u64, v: i64) -> Result<bool, Memory> {
    let id = Text::from_str(alloc, "a")?;
    let p = Point { ns: 0, id, t, v };
    buffer.room(&p)?;
    Ok(buffer.put(&p))
}

// How many series have points of namespace 0 in the range.
fn found(alloc: Global, buffer: &Buffer, from: u64, to: u64) -> Result<usize, Memory> {
    let pick = Pick::Match {
        ns: 0,
        wanted: Seq::new(alloc),
    };
    let found = buffer.range(alloc, &pick, from, to)?;
    Ok(found.len())
}

// Puts values at timestamps, and says of each whether it changed anything.
fn put_all(alloc: Global, buffer: &mut Buffer, out: &mut String) -> Result<(), Fail> {
    for (t, v) in [(10, 5), (10, 5), (10, 4), (10, 9), (20, 1)] {
        let changed = put(alloc, buffer, t, v)?;
        write!(out, "{changed} ")?;
    }
    Ok(())
}

fn find_all(alloc: Global, buffer: &Buffer, out: &mut String) -> Result<(), Fail> {
    for (from, to) in [(10, 11), (0, 10), (11, 30)] {
        let series = found(alloc, buffer, from, to)?;
        write!(out, "{series} ")?;
    }
    Ok(())
}

// What is said of the puts, and what is found once the block of 20 is dropped.
fn told(alloc: Global, out: &mut String) -> Result<(), Fail> {
    let mut buffer = Buffer::new(alloc);
    put_all(alloc, &mut buffer, out)?;
    buffer.drop_block(0, 20, 10);
    find_all(alloc, &buffer, out)
}

#[test]
fn calls_succeed(rt: HostRuntime) -> Result<(), Fail> {
    let mut out = String::new(rt.alloc());
    told(rt.alloc(), &mut out)?;
    assert_eq!(rt; out.as_str(), "true false false true true 1 0 0 ");
    names_all_matched();
    expires_as_rules_say();
    Ok(())
}

fn put_of(alloc: Global, buffer: &mut Buffer, id: &str, t: u64, v: i64) -> Result<(), Memory> {
    let id = Text::from_str(alloc, id)?;
    let p = Point { ns: 0, id, t, v };
    buffer.room(&p)?;
    buffer.put(&p);
    Ok(())
}

// The point that leaves, and whether its series does.
fn write_taken(taken: Option<Taken>, out: &mut String) -> Result<(), Fail> {
    match taken {
        Some(taken) => {
            let gone = taken.gone.is_some();
            write!(out, "{}={} {gone} ", taken.t, taken.v)?;
        }
        None => write!(out, "none ")?,
    }
    Ok(())
}

fn take_three(buffer: &mut Buffer, out: &mut String) -> Result<(), Fail> {
    for _ in 0..3 {
        write_taken(buffer.take_within(0, 0, 29), out)?;
    }
    Ok(())
}

// What leaves a buffer of two series: first the block of 10, whose series are counted, and then what is earlier than 30.
fn left(alloc: Global, out: &mut String) -> Result<(), Fail> {
    let mut buffer = Buffer::new(alloc);
    for (id, t, v) in [
        ("b", 12, 1),
        ("a", 19, 2),
        ("a", 25, 3),
        ("a", 20, 4),
        ("b", 30, 5),
    ] {
        put_of(alloc, &mut buffer, id, t, v)?;
    }
    let rows = buffer.take_block(alloc, 0, 10, 10)?.len();
    write!(out, "{rows} ")?;
    take_three(&mut buffer, out)
}

#[test]
fn points_leave_in_order(rt: HostRuntime) -> Result<(), Fail> {
    let mut out = String::new(rt.alloc());
    left(rt.alloc(), &mut out)?;
    assert_eq!(rt; out.as_str(), "2 20=4 false 25=3 true none ");
    Ok(())
}
