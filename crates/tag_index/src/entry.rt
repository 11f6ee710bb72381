use m3_model::{Seq, Text};

/// A series of an index: its identifier and its tags.
#[derive(Drop)]
pub struct Entry {
    pub id: Text,
    pub tags: Seq<(Text, Text)>,
}
