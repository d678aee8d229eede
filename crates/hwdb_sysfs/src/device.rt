//! What sysfs holds of a device.

/// A file of a device's folder that rules ask for, and its bytes.
#[derive(Drop)]
pub struct Attribute {
    /// Its path below the folder.
    pub name: Vec<u8>,
    /// Its bytes, as the file has them.
    pub value: Vec<u8>,
}

/// A device, or a parent of one.
#[derive(Drop)]
pub struct Ancestor {
    /// Its path below sysfs, as `/devices/..`.
    pub path: Vec<u8>,
    /// The kernel's name of it.
    pub name: Vec<u8>,
    /// The last name of its link `subsystem`; empty without one.
    pub subsystem: Vec<u8>,
    /// The last name of its link `driver`; empty without one.
    pub driver: Vec<u8>,
    /// The bytes of its file `uevent`.
    pub uevent: Vec<u8>,
    /// Those of its attributes that rules ask for and that can be read.
    pub attributes: Vec<Attribute>,
}

/// A device with its parents.
#[derive(Drop)]
pub struct Device {
    /// Itself, and its parents, each above the one before.
    pub chain: Vec<Ancestor>,
    /// What the firmware says of the machine, as its attribute `modalias` has it; empty if it says nothing.
    pub machine: Vec<u8>,
}
