/// Which file of a disk: its kind, and what tells it from the others of that kind. Fields that a kind has no use for
/// are 0. Names ascend by kind, then by namespace, block and number.
#[derive(Clone, Copy, Debug, PartialEq, Eq, PartialOrd, Ord, Hash)]
pub struct FileName {
    /// 0 for a log segment, 1 to 7 for the parts of a volume, 8 and 9 for those of a snapshot.
    pub kind: u8,
    pub ns: u8,
    pub block: u64,
    pub number: u64,
}
