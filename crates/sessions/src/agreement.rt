//! What two ends agree on before the first call.

/// What two ends agree on. Nothing in it has been tested.
#[derive(Clone, Copy)]
pub struct Agreement<'a> {
    /// The key.
    pub key: &'a [u8],
    /// The prefix of counter blocks.
    pub prefix: &'a [u8],
    /// The number at which a session opens; 0 where none is given.
    pub at: Option<u64>,
    /// The starting tally of a route.
    pub start: u64,
}
