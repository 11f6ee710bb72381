// Where a value stands: at the position of its series and at its time.
#[derive(Clone, Copy)]
pub(crate) struct Spot {
    pub(crate) position: usize,
    pub(crate) t: u64,
    pub(crate) v: i64,
}
