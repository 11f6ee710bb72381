/// What stood where room was made for a point.
#[derive(Clone, Copy)]
pub struct Stand {
    /// A point stood at the key.
    pub valued: bool,
    /// The series had a point. Where this is false, it may have had one.
    pub known: bool,
}
