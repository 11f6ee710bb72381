use m3_model::{Point, Text};
use std::alloc::Global;
use std::test::Fail;
use wire_bytes::{
    EntryAt, digest, get_entry, get_number, get_point, put_fence, put_number, put_point,
    put_points, put_tenure,
};

// Bytes, each behind what is read there: a point, an entry or a fault.
const ROWS: &str =
    "0 hello 100 5 => 00 00 05 68 65 6c 6c 6f 00 00 00 00 00 00 00 64 00 00 00 00 00 00 00 05
7 a 0 -1 => 07 00 01 61 00 00 00 00 00 00 00 00 ff ff ff ff ff ff ff ff
fence 3 => 02 00 00 00 00 00 00 00 03
tenure 258 => 03 00 00 00 00 00 00 01 02
Short => 00 00 05 68 65
Bad { at: 0 } => 08
Bad { at: 1 } => 00 03
Bad { at: 2 } => 00 00 00
Bad { at: 2 } => 00 02 01
Bad { at: 3 } => 00 00 01 c3
Bad { at: 4 } => 00 00 02 c3 61
Bad { at: 4 } => 00 00 03 ed a0
Bad { at: 4 } => 00 00 01 61 40";

fn bytes_of(alloc: Global, hex: &str) -> Result<Vec<u8>, Fail> {
    let mut bytes = Vec::new(alloc);
    for part in hex.split(' ') {
        bytes.push(u8::from_str_radix(part, 16).unwrap_or(0))?;
    }
    Ok(bytes)
}

fn tell_point(bytes: &[u8], out: &mut String) -> Result<(), Fail> {
    match get_point(bytes, 0) {
        Ok(p) => {
            let id = str::from_utf8(&bytes[p.id_from..p.id_to]).unwrap_or("");
            Ok(write!(out, "{} {id} {} {}", p.ns, p.t, p.v)?)
        }
        Err(e) => Ok(write!(out, "{e:?}")?),
    }
}

fn tell_entry(bytes: &[u8], out: &mut String) -> Result<(), Fail> {
    match get_entry(bytes, 0) {
        Ok(EntryAt::Points { count, .. }) => Ok(write!(out, "points {count}")?),
        Ok(EntryAt::Fence { fence, .. }) => Ok(write!(out, "fence {fence}")?),
        Ok(EntryAt::Tenure { tenure, .. }) => Ok(write!(out, "tenure {tenure}")?),
        Err(e) => Ok(write!(out, "{e:?}")?),
    }
}

// What stands in the bytes that a row gives in base 16: an entry or a point.
fn read(alloc: Global, hex: &str, is_entry: bool, out: &mut String) -> Result<(), Fail> {
    let bytes = bytes_of(alloc, hex)?;
    if is_entry {
        tell_entry(&bytes, out)
    } else {
        tell_point(&bytes, out)
    }
}

fn read_rows(alloc: Global, rows: &str, out: &mut String) -> Result<(), Fail> {
    for row in rows.lines() {
        let (want, hex) = row.split_once(" => ").unwrap_or(("", ""));
        let is_entry = want.starts_with("fence") || want.starts_with("tenure");
        read(alloc, hex, is_entry, out)?;
        write!(out, " => {hex}\n")?;
    }
    Ok(())
}

#[test]
fn bytes_are_those_of_the_format(rt: HostRuntime) -> Result<(), Fail> {
    let mut out = String::new(rt.alloc());
    read_rows(rt.alloc(), ROWS, &mut out)?;
    assert_eq!(rt; out.as_str().trim_end(), ROWS);
    Ok(())
}

// Puts an entry of a point, a fence, a tenure, a number and a point, and says whether all were put.
fn put_all(alloc: Global, out: &mut Vec<u8>) -> Result<bool, Fail> {
    let id = Text::from_string(String::from_str(alloc, "hello")?);
    let point = Point {
        ns: 0,
        id,
        t: 100,
        v: 5,
    };
    Ok(
        put_points(out, &[&point]).is_ok()
            && put_fence(out, 3).is_ok()
            && put_tenure(out, 4).is_ok()
            && put_number(out, 2, 258).is_ok()
            && put_point(out, 0, b"hello", 100, 5).is_ok(),
    )
}

// What is read at the offsets where an entry, a fence, a number and a point begin, and beyond the end.
fn read_back(bytes: &[u8], out: &mut String) -> Result<(), Fail> {
    if bytes.len() != 27 + 9 + 9 + 2 + 24 {
        return Ok(write!(out, "{} bytes", bytes.len())?);
    }
    tell_entry(bytes, out)?;
    out.push_str(", ")?;
    tell_entry(&bytes[27..], out)?;
    write!(out, ", {:?}, ", get_number(bytes, 45, 2))?;
    write!(out, "{:?}, ", get_number(bytes, 70, 2))?;
    tell_point(&bytes[47..], out)
}

fn put_and_read(alloc: Global, out: &mut String) -> Result<(), Fail> {
    let mut bytes = Vec::new(alloc);
    if put_all(alloc, &mut bytes)? {
        read_back(&bytes, out)?;
    }
    Ok(())
}

#[test]
fn what_is_put_is_read(rt: HostRuntime) -> Result<(), Fail> {
    let mut out = String::new(rt.alloc());
    put_and_read(rt.alloc(), &mut out)?;
    assert_eq!(rt;
        out.as_str(),
        "points 1, fence 3, Ok(258), Err(Short), 0 hello 100 5"
    );
    let empty = digest(&[]);
    assert_eq!(rt;
        (empty[0], empty[1], empty[30], empty[31]),
        (0xe3, 0xb0, 0xb8, 0x55)
    );
    Ok(())
}
