/// Which call of which client.
#[derive(Clone, Copy)]
pub struct CallId {
    pub client: u32,
    pub number: u64,
}
