// Room for a point: the position of its series among those held, and its time.
#[derive(Clone, Copy)]
pub(crate) struct Room {
    pub(crate) position: usize,
    pub(crate) t: u64,
}
