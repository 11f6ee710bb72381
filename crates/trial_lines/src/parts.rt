//! An input in parts: heads, each with the lines below it.
use crate::case_err::CaseErr;
use std::alloc::Global;

/// A head, the number of its line from 1 on, and the lines from it to the next head.
#[derive(Drop)]
pub struct Part<'a> {
    pub number: usize,
    pub head: &'a str,
    pub lines: Vec<&'a str>,
}

impl Part<'_> {
    /// Whether each line below the head is empty.
    pub fn is_bare(&self) -> bool {
        for line in self.lines.iter() {
            if !line.is_empty() {
                return false;
            }
        }
        true
    }
}

/// The parts of an input, in their order: a line with `@` in front is a head. Lines with `#` in front are comments, and left out; so are
/// lines in front of the first head.
///
/// # Errors
///
/// Want of memory.
pub fn parts_of<'a>(alloc: Global, input: &'a str) -> Result<Vec<Part<'a>>, CaseErr> {
    let mut all: Vec<Part<'a>> = Vec::new(alloc);
    for (at, line) in input.split('\n').enumerate() {
        if line.starts_with('@') {
            all.push(Part {
                number: at.saturating_add(1),
                head: line,
                lines: Vec::new(alloc),
            })?;
        } else if !line.starts_with('#') {
            if let Some(part) = all.last_mut() {
                part.lines.push(line)?;
            }
        }
    }
    Ok(all)
}
