use m3_model::{Seq, Text};
use std::alloc::Global;
use std::test::Fail;

/// Tags by their names and values, as in `dc:x;host:h1`. A part that has no colon is passed over.
pub fn tags_of(alloc: Global, text: &str) -> Result<Seq<(Text, Text)>, Fail> {
    let mut tags = Vec::new(alloc);
    for part in text.split(';') {
        if let Some((name, value)) = part.split_once(':') {
            let name = Text::from_string(String::from_str(alloc, name)?);
            let value = Text::from_string(String::from_str(alloc, value)?);
            tags.push((name, value))?;
        }
    }
    Ok(Seq::from_vec(tags))
}
