//! The builtins of udev, and which of them a word names.
ghost use Rattle.std.specs.Prelude.{◌≡◌};
ghost use Rattle.hwdb_rulecommands.specs.Builtins;

/// A builtin of udev.
#[derive(Clone, Copy, Debug, PartialEq, Eq)]
pub enum Builtin {
    Blkid,
    Btrfs,
    DissectImage,
    FactoryReset,
    Hwdb,
    InputId,
    Keyboard,
    Kmod,
    NetDriver,
    NetId,
    NetSetupLink,
    PathId,
    Tpm2Id,
    Uaccess,
    UsbId,
}

/// All builtins, in the order of udev's table.
const BUILTINS: [Builtin; 15] = [
    Builtin::Blkid,
    Builtin::Btrfs,
    Builtin::DissectImage,
    Builtin::FactoryReset,
    Builtin::Hwdb,
    Builtin::InputId,
    Builtin::Keyboard,
    Builtin::Kmod,
    Builtin::NetDriver,
    Builtin::NetId,
    Builtin::NetSetupLink,
    Builtin::PathId,
    Builtin::Tpm2Id,
    Builtin::Uaccess,
    Builtin::UsbId,
];

/// The whole name of a builtin, as udev writes it. It takes no memory, and its time is constant.
pub fn name_of(builtin: Builtin) -> &'static [u8]
    ensures { result.now ≡ Builtins.name_of builtin }
{
    match builtin {
        Builtin::Blkid => b"blkid",
        Builtin::Btrfs => b"btrfs",
        Builtin::DissectImage => b"dissect_image",
        Builtin::FactoryReset => b"factory_reset",
        Builtin::Hwdb => b"hwdb",
        Builtin::InputId => b"input_id",
        Builtin::Keyboard => b"keyboard",
        Builtin::Kmod => b"kmod",
        Builtin::NetDriver => b"net_driver",
        Builtin::NetId => b"net_id",
        Builtin::NetSetupLink => b"net_setup_link",
        Builtin::PathId => b"path_id",
        Builtin::Tpm2Id => b"tpm2_id",
        Builtin::Uaccess => b"uaccess",
        Builtin::UsbId => b"usb_id",
    }
}

/// The first builtin whose name begins with a word.
fn first_named(word: &[u8]) -> Option<Builtin>
    ensures { result ≡ Builtins.first_named word.now }
{
    for builtin in BUILTINS {
        if name_of(builtin).starts_with(word) {
            return Some(builtin);
        }
    }
    None
}

/// The builtin that the first word of a command names. The word is taken as it is written, and may be a shortened name. None if it is
/// empty, or begins no name. It takes no memory, and its time is constant.
pub fn builtin_of(word: &[u8]) -> Option<Builtin>
    ensures { result ≡ Builtins.builtin_of word.now }
{
    if word.is_empty() {
        return None;
    }
    first_named(word)
}
