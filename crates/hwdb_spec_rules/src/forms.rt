//! Whose rules count for a device, and what is printed by them.
use hwdb_spec_commands::DeviceForm;

/// What is printed by the machine's own rules, and in which form.
#[derive(Clone, Copy, Debug)]
pub struct RulesForm {
    /// Whether it is why lines ask or don't, in place of what they ask.
    pub why: bool,
    /// The form.
    pub form: DeviceForm,
}

/// Whose rules say which strings a device is asked for, and what is printed of that.
#[derive(Clone, Copy, Debug)]
pub enum Whose {
    /// Those of the machine.
    Own(RulesForm),
    /// Those of the machine, or if it has none those that are built in.
    OwnFirst(DeviceForm),
    /// Those that are built in.
    BuiltIn(DeviceForm),
}
