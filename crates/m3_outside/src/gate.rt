/// Where a call of a client may be held back, within the locked section of the replica that it is for. Threads share it.
pub trait Gate: Sync {
    /// Comes before the replica's machine is called for this call of this client.
    fn pass(&self, client: u32, call: u64);
}

/// Holds no call back.
#[derive(Clone, Copy, Debug, PartialEq, Eq)]
pub struct OpenGate;

impl Gate for OpenGate {
    fn pass(&self, client: u32, call: u64) {
        let _ = (client, call);
    }
}
