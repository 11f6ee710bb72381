/// The messages of one call of a client to one node.
#[derive(Clone, Copy, Debug, PartialEq, Eq, PartialOrd, Ord)]
pub struct FateKey {
    /// 0 for the lines outside `par`; the client of a list of `par` is one more than the list's position.
    pub client: u32,
    /// The number of the call among the client's.
    pub call: u64,
    /// The position of the node among the instances.
    pub node: u8,
}
