//! How many voters were counted for an operation.

/// The counted voters of all voters, and the same of the temporary voters where these are set.
#[derive(Clone, Copy, Debug, PartialEq, Eq)]
pub struct Counts {
    pub voters: u8,
    pub of: u8,
    pub temp: Option<(u8, u8)>,
}
