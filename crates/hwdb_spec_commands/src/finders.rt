//! Which attributes tell how a device is called, and its vendor and product.

/// The attributes by which a device is found, a path below its folder a line.
pub const FINDERS: &str = "device\n\
    device/id/product\n\
    device/id/vendor\n\
    idProduct\n\
    idVendor\n\
    name\n\
    product\n\
    vendor\n";
