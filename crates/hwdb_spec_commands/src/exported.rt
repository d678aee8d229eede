//! Which attributes of sysfs an export of udev's database tells.

/// The attributes that an export tells, one a line: its path below the device's folder, what the line of the export begins with that
/// tells it, how its value is written there, and a line that the device has to have, if it isn't so of every device. A comma is between
/// these.
pub const EXPORTED: &str = "addr_assign_type,E: ID_NET_NAME_MAC=,none,\n\
    address,E: ID_NET_NAME_MAC=,digits,\n\
    capabilities/abs,E: ABS=,plain,E: SUBSYSTEM=input\n\
    capabilities/ev,E: EV=,plain,E: SUBSYSTEM=input\n\
    capabilities/key,E: KEY=,plain,E: SUBSYSTEM=input\n\
    capabilities/rel,E: REL=,plain,E: SUBSYSTEM=input\n\
    charge_control_end_threshold,E: POWER_SUPPLY_CHARGE_CONTROL_END_THRESHOLD=,plain,\n\
    charge_control_start_threshold,E: POWER_SUPPLY_CHARGE_CONTROL_START_THRESHOLD=,plain,\n\
    device,E: PCI_ID=,after,\n\
    hid,E: MODALIAS=acpi:,before,E: SUBSYSTEM=acpi\n\
    id/bustype,E: PRODUCT=,first,E: SUBSYSTEM=input\n\
    id/product,E: PRODUCT=,third,E: SUBSYSTEM=input\n\
    id/vendor,E: PRODUCT=,second,E: SUBSYSTEM=input\n\
    idProduct,E: PRODUCT=,second,E: DEVTYPE=usb_device\n\
    idVendor,E: PRODUCT=,first,E: DEVTYPE=usb_device\n\
    ifindex,E: IFINDEX=,plain,\n\
    iflink,E: IFINDEX=,plain,\n\
    modalias,E: MODALIAS=,plain,\n\
    model_name,E: POWER_SUPPLY_MODEL_NAME=,plain,\n\
    name,E: NAME=,quoted,E: SUBSYSTEM=input\n\
    name,E: ID_V4L_PRODUCT=,plain,E: SUBSYSTEM=video4linux\n\
    phys,E: PHYS=,quoted,E: SUBSYSTEM=input\n\
    product,E: ID_MODEL_ENC=,decoded,E: DEVTYPE=usb_device\n\
    properties,E: PROP=,plain,E: SUBSYSTEM=input\n\
    type,E: ID_NET_NAME_MAC=,one,\n\
    vendor,E: PCI_ID=,before,\n";
