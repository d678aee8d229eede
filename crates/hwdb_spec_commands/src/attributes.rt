//! Which attributes rules ask for.

/// The attributes that rules ask for, a path below a device's folder a line.
pub const ATTRIBUTES: &str = "addr_assign_type\n\
    address\n\
    capabilities/abs\n\
    capabilities/ev\n\
    capabilities/key\n\
    capabilities/rel\n\
    charge_control_end_threshold\n\
    charge_control_start_threshold\n\
    chassis_asset_tag\n\
    device/name\n\
    hid\n\
    id/bustype\n\
    id/product\n\
    id/vendor\n\
    idProduct\n\
    idVendor\n\
    ifindex\n\
    iflink\n\
    label\n\
    location\n\
    modalias\n\
    model\n\
    model_name\n\
    name\n\
    phys\n\
    product\n\
    properties\n\
    type\n\
    units\n\
    vendor\n";
