//! What `device` prints of a device.

/// What is printed of a device.
#[derive(Clone, Copy, Debug, PartialEq, Eq)]
pub enum DeviceForm {
    /// Each string that udev asks for it, what it gets, and the properties that the device has in the end.
    Lookups,
    /// The strings alone.
    Strings,
    /// The same as `Lookups`, as lines of JSON.
    Json,
    /// A record to begin with: a pattern for the device, and which properties are set there.
    Pattern,
}
