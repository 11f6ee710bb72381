use fileset_check::of_m3_model::{Point, Seq};

/// A snapshot of a replica.
#[derive(Drop)]
pub struct Snap {
    /// What tells it from others of the disk, below `NUMBER_END`.
    pub number: u64,
    /// The replica's tenure, 0 where it has none.
    pub tenure: u64,
    /// The replica's fence.
    pub fence: u64,
    /// The number of the first segment of the log that is needed beside it.
    pub first: u64,
    /// By ascending key, no two with one, fewer than 2^32, each within the bounds of a point.
    pub points: Seq<Point>,
}
