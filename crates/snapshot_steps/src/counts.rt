/// What is known of a log and of its snapshots without a look at the files.
#[derive(Drop)]
pub struct Counts {
    /// How many of the numbers up to that of the log's last segment, from 0 on, are no segment's.
    pub missing: u64,
    /// The number of the newest snapshot that counts, and 0 where none counts.
    pub snapshot: u64,
}
