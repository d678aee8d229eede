//! Worked rows of the definitions. Each function does nothing: its contract is the law.
ghost use Rattle.hwdb_rules.specs.Rows.{BatteryRow, CameraRow, KeyboardRow, LongRow, MouseRow, NetRow, PadRow, SensorRow, TaggedRow, UsbRow, WalkRow, WrittenRow};

/// What udev asks for some devices: a keyboard, a mouse, a sensor, a camera and a network card; touchpads, a battery and a machine; and
/// how it writes values.
pub fn lookup_rows()
    ensures keyboard { KeyboardRow }
    ensures usb { UsbRow }
    ensures walk { WalkRow }
    ensures mouse { MouseRow }
    ensures sensor { SensorRow }
    ensures camera { CameraRow }
    ensures net { NetRow }
    ensures pad { PadRow }
    ensures tagged { TaggedRow }
    ensures battery { BatteryRow }
    ensures written { WrittenRow }
    ensures long { LongRow }
{}
