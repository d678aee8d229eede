//! Which properties builtins and programs may set, as lists of how their names begin.
ghost use Rattle.std.specs.Prelude.{◌≡◌, ◌≤◌, length, map};
ghost use Rattle.std.specs.List.{before_first, position_or_len};
ghost use Rattle.std.specs.Str.{bytes_eq};
ghost use Rattle.hwdb_spec.specs.Lines;
ghost use Rattle.hwdb_rulecommands.specs.Settable;
ghost use Rattle.hwdb_rulecommands.specs.declared.builtins.Builtin.TheVariants as Builtins;
ghost use Rattle.hwdb_rulecommands.specs.Views.{text_of, texts_view};

use crate::builtins::Builtin;

/// How the names of the properties begin that a builtin may set. What hwdb sets isn't listed: the database answers it. It takes no
/// memory, and its time is constant.
pub fn may_set(builtin: Builtin) -> &'static [&'static [u8]]
    ensures { map text_of result.now ≡ Settable.may_set builtin }
{
    match builtin {
        Builtin::Blkid => &[b"ID_FS_", b"ID_PART_"],
        Builtin::Btrfs => &[b"ID_BTRFS_READY"],
        Builtin::DissectImage => &[b"ID_DISSECT_"],
        Builtin::FactoryReset => &[b"ID_FACTORY_RESET"],
        Builtin::Hwdb => &[],
        Builtin::InputId => &[b"ID_INPUT"],
        Builtin::Keyboard => &[],
        Builtin::Kmod => &[],
        Builtin::NetDriver => &[b"ID_NET_DRIVER"],
        Builtin::NetId => net_id(),
        Builtin::NetSetupLink => &[b"ID_NET_LINK_FILE", b"ID_NET_NAME", b"ID_NET_DRIVER"],
        Builtin::PathId => &[b"ID_PATH"],
        Builtin::Tpm2Id => &[b"ID_TPM2_"],
        Builtin::Uaccess => &[],
        Builtin::UsbId => usb_id(),
    }
}

fn net_id() -> &'static [&'static [u8]]
    ensures { map text_of result.now ≡ Settable.may_set Builtins.NetId }
{
    &[
        b"ID_NET_NAME_",
        b"ID_NET_NAMING_SCHEME",
        b"ID_NET_LABEL_ONBOARD",
        b"ID_OUI_FROM_DATABASE",
    ]
}

fn usb_id() -> &'static [&'static [u8]]
    ensures { map text_of result.now ≡ Settable.may_set Builtins.UsbId }
{
    &[
        b"ID_BUS",
        b"ID_INSTANCE",
        b"ID_MODEL",
        b"ID_REVISION",
        b"ID_SERIAL",
        b"ID_TYPE",
        b"ID_USB_",
        b"ID_VENDOR",
    ]
}

/// How long the first word of a command is, which ends before a space or a tab.
fn word_len(command: &[u8]) -> usize
    ensures value { result ≡ position_or_len Lines.is_indent command.now }
    ensures within { result ≤ length command.now }
{
    let mut at = 0;
    while at < command.len() && command[at] != b' ' && command[at] != b'\t' {
        at += 1;
    }
    at
}

/// What comes after the last slash of a path, or the whole path. The time is linear in its length.
#[tactic(auto, using(crate::proofs::NameLemmas::at_slash, crate::proofs::NameLemmas::no_slash))]
pub fn last_name(path: &[u8]) -> &[u8]
    ensures { result.now ≡ Settable.last_name path.now }
{
    let mut at = path.len();
    while at > 0 {
        if path[at - 1] == b'/' {
            return &path[at..];
        }
        at -= 1;
    }
    path
}

/// The name of the program that a command runs: the last one of its path, which ends before a space or a tab.
///
/// It takes no memory, and its time is linear in the path's length.
pub fn program_name(command: &[u8]) -> &[u8]
    ensures { result.now ≡ Settable.program_name command.now }
{
    last_name(&command[..word_len(command)])
}

fn ata_id() -> &'static [&'static [u8]]
    ensures { map text_of result.now ≡ Settable.ata_id.sets }
{
    &[
        b"ID_ATA",
        b"ID_TYPE",
        b"ID_BUS",
        b"ID_MODEL",
        b"ID_REVISION",
        b"ID_SERIAL",
        b"ID_WWN",
    ]
}

fn scsi_id() -> &'static [&'static [u8]]
    ensures { map text_of result.now ≡ Settable.scsi_id.sets }
{
    &[
        b"ID_SCSI",
        b"ID_VENDOR",
        b"ID_MODEL",
        b"ID_REVISION",
        b"ID_TYPE",
        b"ID_SERIAL",
        b"ID_WWN",
        b"ID_TARGET_PORT",
        b"ID_BUS",
    ]
}

pub fn is_same(one: &[u8], other: &[u8]) -> bool
    ensures { result ≡ bytes_eq one.now other.now }
{
    one == other
}

/// What a program of udev may set, by its name.
fn sets_of(name: &[u8]) -> Option<&'static [&'static [u8]]>
    ensures { texts_view result ≡ Settable.sets_of name.now Settable.programs }
{
    if is_same(name, b"ata_id") {
        return Some(ata_id());
    }
    if is_same(name, b"cdrom_id") {
        return Some(&[b"ID_CDROM"]);
    }
    if is_same(name, b"dmi_memory_id") {
        return Some(&[b"MEMORY_"]);
    }
    if is_same(name, b"scsi_id") {
        return Some(scsi_id());
    }
    if is_same(name, b"v4l_id") {
        return Some(&[b"ID_V4L_"]);
    }
    if is_same(name, b"fido_id") {
        return Some(&[b"ID_FIDO_TOKEN", b"ID_SECURITY_TOKEN"]);
    }
    if is_same(name, b"mtd_probe") {
        return Some(&[b"MTD_FTL"]);
    }
    None
}

/// How the names of the properties begin that a command's program may set. None if it isn't one of udev's own: it may set any property.
///
/// It takes no memory, and its time is linear in the length of the command's first word.
pub fn program_may_set(command: &[u8]) -> Option<&'static [&'static [u8]]>
    ensures { texts_view result ≡ Settable.program_may_set command.now }
{
    sets_of(program_name(command))
}
