/// The bytes of a chunk's gate and length.
pub const HEAD_BYTES: u64 = 5;

/// An open gate.
pub const OPEN: u8 = 1;
