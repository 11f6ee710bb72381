// A position in a text of tags, where a tag has to stand.
#[derive(Clone, Copy)]
pub(crate) struct Position<'a> {
    // The text from here on.
    pub(crate) rest: &'a [u8],
    // The name of the tag before this position, or none.
    pub(crate) before: &'a [u8],
    // How many bytes stand before this position.
    pub(crate) at: usize,
    // How many tags stand before this position.
    pub(crate) number: u32,
}

// A tag that was read: its name, its value as it is spelled, and the position of the next one, if one follows.
#[derive(Clone, Copy)]
pub(crate) struct Tag<'a> {
    pub(crate) name: &'a [u8],
    pub(crate) spelling: &'a [u8],
    pub(crate) next: Option<Position<'a>>,
}
