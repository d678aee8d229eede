//! What is printed of devices.

/// What is printed of each device.
#[derive(Clone, Copy)]
pub enum Form {
    /// Its properties, as `query` prints them.
    Query {
        /// Whether as JSON.
        json: bool,
    },
    /// Its properties, and where each comes from, as `explain` prints them.
    Explain {
        /// Whether as JSON.
        json: bool,
    },
}
