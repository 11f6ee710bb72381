//! Outcomes: lines in which a star stands for any text.

// Whether the line is as the wanted one says, in which one star may stand.
fn line_fits(wanted: &str, line: &str) -> bool {
    match wanted.split_once('*') {
        Some((before, behind)) => match line.strip_prefix(before) {
            Some(rest) => rest.ends_with(behind),
            None => false,
        },
        None => wanted == line,
    }
}

/// Whether the text has as many lines as the wanted one, and each is as that says: the same, or with any text in the place of a star, of
/// which a line has one.
pub fn fits(wanted: &str, text: &str) -> bool {
    if wanted.lines().count() != text.lines().count() {
        return false;
    }
    for (one, line) in wanted.lines().zip(text.lines()) {
        if !line_fits(one, line) {
            return false;
        }
    }
    true
}
