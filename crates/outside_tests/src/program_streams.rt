use host_edge::{StdSink, StdSource};
use m3_outside::{Sink, Source};
use std::alloc::{AllocError, Allocator, Global};
use std::cell::RefCell;
use std::fmt::Display;
use std::io::{self, BufRead, Lines};
use std::test::Fail;

// An input whose readers all begin with these bytes.
#[derive(Drop)]
struct Letters;

impl Input for Letters {
    type Reader = &'static [u8];

    fn read_line<A: Allocator + Clone>(&self, buf: &mut String<A>) -> io::Result<usize> {
        self.reader().read_line(buf)
    }

    fn lines<A: Allocator>(&self, alloc: A) -> Lines<&'static [u8], A> {
        self.reader().lines(alloc)
    }

    fn reader(&self) -> &'static [u8] {
        b"abcde"
    }
}

// An output with room for four bytes, which refuses a piece that begins with `!`.
#[derive(Drop)]
struct Page {
    text: RefCell<Vec<u8>>,
}

impl Print for Page {
    fn print<D: Display + Drop>(&self, _: D) -> io::Result<()> {
        Ok(())
    }

    fn println<D: Display + Drop>(&self, _: D) -> io::Result<()> {
        Ok(())
    }

    fn write_all(&self, _: &[u8]) -> io::Result<()> {
        Ok(())
    }

    fn write_some(&self, bytes: &[u8]) -> io::Result<usize> {
        let refused = || io::Error::from(AllocError);
        let mut text = self.text.try_borrow_mut().map_err(|_| refused())?;
        if bytes.first() == Some(&b'!') {
            return Err(refused());
        }
        let count = 4usize.saturating_sub(text.len()).min(bytes.len());
        text.extend_from_slice(&bytes[..count])?;
        Ok(count)
    }
}

// What a read into so much room gives.
fn read_some<S: Source>(
    alloc: Global,
    source: &mut S,
    room: usize,
    out: &mut String,
) -> Result<(), Fail> {
    let mut buf = vec![in alloc; 0u8; room]?;
    let count = source
        .read(buf.as_mut_slice())
        .map_err(|_| "a failed read")?;
    let given = str::from_utf8(&buf.as_slice()[..count]).unwrap_or("?");
    Ok(write!(out, "{given}|")?)
}

fn read_thrice(alloc: Global, out: &mut String) -> Result<(), Fail> {
    let mut source = StdSource::new(Letters);
    for room in [0, 3, 8] {
        read_some(alloc, &mut source, room, out)?;
    }
    Ok(write!(out, "{}", source.faults())?)
}

#[test]
fn reads_the_input(rt: HostRuntime) -> Result<(), Fail> {
    let mut out = String::new(rt.alloc());
    read_thrice(rt.alloc(), &mut out)?;
    assert_eq!(rt; out.as_str(), "|abc|abcde|0");
    Ok(())
}

// What the write of a piece answers (9 for a failure), and the counts of faults and stalls then.
fn write_some<S: Sink>(sink: &mut S, piece: &str, out: &mut String) -> Result<(), Fail> {
    let count = sink.write(piece.as_bytes()).unwrap_or(9);
    Ok(write!(out, "{count} {} {}|", sink.faults(), sink.stalls())?)
}

fn write_pieces(page: &Page, out: &mut String) -> Result<(), Fail> {
    let mut sink = StdSink::new(page);
    for piece in ["abc", "", "!", "de", "e", "", "!!"] {
        write_some(&mut sink, piece, out)?;
    }
    Ok(())
}

// The answers, and what stands on the page then.
fn write_page(alloc: Global, out: &mut String) -> Result<(), Fail> {
    let page = Page {
        text: RefCell::new(Vec::new(alloc)),
    };
    write_pieces(&page, out)?;
    let text = page.text.try_borrow().map_err(|_| "a page in use")?;
    Ok(out.push_str(str::from_utf8(text.as_slice()).unwrap_or("?"))?)
}

#[test]
fn writes_to_the_output(rt: HostRuntime) -> Result<(), Fail> {
    let mut out = String::new(rt.alloc());
    write_page(rt.alloc(), &mut out)?;
    assert_eq!(rt;
        out.as_str(),
        "3 0 0|0 0 0|9 1 0|1 1 0|0 1 1|0 1 1|9 2 1|abcd"
    );
    Ok(())
}
