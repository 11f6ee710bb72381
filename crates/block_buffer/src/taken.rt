use series_slots::SeriesKey;

/// A point that was taken out.
#[derive(Drop)]
pub struct Taken {
    /// Its time.
    pub t: u64,
    /// Its value.
    pub v: i64,
    /// Its series, where no point of that is left.
    pub gone: Option<SeriesKey>,
}
