use m3_outside::laws::{constant_means_ok, constant_means_taken};
use m3_outside::{Failed, MemSink, MemSource, Sink, Source};
use std::alloc::Global;
use std::test::Fail;

// Six reads by three bytes. `|` ends what a read gave, and `!` stands for a failure.
fn read_six<S: Source>(source: &mut S, out: &mut String) -> Result<(), Fail> {
    for _ in 0..6 {
        let mut buf = [0; 3];
        match source.read(&mut buf) {
            Ok(count) => out.push_str(str::from_utf8(&buf[..count]).unwrap_or("?"))?,
            Err(Failed) => out.push('!')?,
        }
        out.push('|')?;
    }
    Ok(())
}

// What six reads of `abcdefgh` give, and the count of faults.
fn read_all(alloc: Global, fail: &[u64], out: &mut String) -> Result<(), Fail> {
    let mut source = MemSource::new(alloc, b"abcdefgh", fail)?;
    read_six(&mut source, out)?;
    Ok(write!(out, " {}", source.faults())?)
}

#[test]
fn reads_fail_as_listed(rt: HostRuntime) -> Result<(), Fail> {
    let rows: [(&[u64], &str); 5] = [
        (&[], "abc|def|gh|||| 0"),
        (&[0], "!|abc|def|gh||| 1"),
        (&[1, 2], "abc|!|!|def|gh|| 2"),
        (&[5, 3, 3, 9], "abc|def|gh|!||!| 2"),
        (&[0, 1, 2, 3, 4, 5], "!|!|!|!|!|!| 6"),
    ];
    for (fail, want) in rows {
        let mut got = String::new(rt.alloc());
        read_all(rt.alloc(), fail, &mut got)?;
        assert_eq!(rt; got.as_str(), want, "{fail:?}");
    }
    Ok(())
}

// Writes of `ab`, an empty piece, `cde` and `f`.
fn write_four<S: Sink>(sink: &mut S, out: &mut String) -> Result<(), Fail> {
    for piece in ["ab", "", "cde", "f"] {
        match sink.write(piece.as_bytes()) {
            Ok(count) => write!(out, "{count}|")?,
            Err(Failed) => out.push_str("!|")?,
        }
    }
    Ok(())
}

// What four writes are answered, what is written then, and the counts of faults and stalls.
fn write_all(alloc: Global, fail: &[u64], out: &mut String) -> Result<(), Fail> {
    let mut sink = MemSink::new(alloc, fail)?;
    write_four(&mut sink, out)?;
    let written = str::from_utf8(sink.bytes()).unwrap_or("?");
    Ok(write!(out, " {written} {} {}", sink.faults(), sink.stalls())?)
}

#[test]
fn writes_fail_as_listed(rt: HostRuntime) -> Result<(), Fail> {
    let rows: [(&[u64], &str); 5] = [
        (&[], "2|0|3|1| abcdef 0 0"),
        (&[0], "!|0|3|1| cdef 1 0"),
        (&[1, 3], "2|!|3|!| abcde 2 0"),
        (&[4, 2, 2], "2|0|!|1| abf 1 0"),
        (&[0, 1, 2, 3], "!|!|!|!|  4 0"),
    ];
    for (fail, want) in rows {
        let mut got = String::new(rt.alloc());
        write_all(rt.alloc(), fail, &mut got)?;
        assert_eq!(rt; got.as_str(), want, "{fail:?}");
    }
    Ok(())
}

#[test]
fn laws_can_be_called() {
    constant_means_ok();
    constant_means_taken();
}
