//! How the texts of all forms begin, as `FormTable` of `hwdb_spec_commands` has it.
ghost use Rattle.std.specs.Prelude.{◌≡◌, map};
ghost use Rattle.std.specs.List.{list_any};
ghost use Rattle.hwdb_spec.specs.Folders.{same};
ghost use Rattle.hwdb_spec_commands.specs.FormTable;
ghost use Rattle.hwdb_forms.specs.Internal.{form_of};

use crate::pieces::FormRow;
use crate::pieces::Piece::Repeated;
use hwdb_spec::ByteSet::Any;

/// A form of which nothing is said but how it begins.
pub(crate) fn free(prefix: &'static [u8]) -> FormRow
    ensures { form_of result ≡ FormTable.free prefix.now }
{
    FormRow {
        prefix,
        fields: &[&[&[Repeated(Any)]]],
    }
}

/// The prefixes of these.
#[tactic(auto, unfolding(hwdb_spec_commands::specs::FormTable::free_prefixes))]
pub(crate) fn free_prefixes() -> &'static [&'static [u8]]
    ensures { map (λ prefix. prefix.now) result.now ≡ FormTable.free_prefixes }
{
    &[
        b"hid:",
        b"input:",
        b"virtio:",
        b"i2c:",
        b"i3c:",
        b"platform:",
        b"of:",
        b"serio:",
        b"spi:",
        b"hdaudio:",
        b"wmi:",
        b"scsi:",
        b"pnp:",
        b"ssb:",
        b"bcma:",
        b"pcmcia:",
        b"mei:",
        b"rmi:",
        b"typec:",
        b"mdio:",
        b"cpu:",
        b"tbsvc:",
        b"xen:",
        b"xen-backend:",
        b"auxiliary:",
        b"sdw:",
        b"mmc:",
        b"rpmsg:",
        b"ccw:",
        b"ap:",
        b"css:",
        b"vio:",
        b"amba:",
        b"parisc:",
        b"zorro:",
        b"eisa:",
        b"ipack:",
        b"mcb:",
        b"mhi:",
        b"ulpi:",
        b"fsl-mc:",
        b"ssam:",
        b"ishtp:",
        b"dfl:",
        b"tee:",
        b"coreboot:",
        b"cxl:",
        b"nd:",
        b"dax:",
        b"slim:",
        b"apr:",
        b"hsi:",
        b"ac97:",
        b"cdx:",
        b"vchiq:",
        b"rapidio:",
        b"nubus:",
        b"peci:",
        b"moxtet:",
        b"siox:",
        b"scmi_protocol:",
        b"maple:",
    ]
}

/// How the texts of all forms begin.
#[tactic(auto, unfolding(hwdb_spec_commands::specs::FormTable::known, hwdb_spec_commands::specs::FormTable::free_prefixes))]
pub(crate) fn prefixes() -> &'static [&'static [u8]]
    ensures { map (λ prefix. prefix.now) result.now ≡ FormTable.prefixes }
{
    &[
        b"usb:",
        b"pci:",
        b"bluetooth:",
        b"acpi:",
        b"dmi:",
        b"evdev:",
        b"evdev:",
        b"evdev:",
        b"evdev:",
        b"evdev:",
        b"id-input:",
        b"id-input:",
        b"mouse:",
        b"touchpad:",
        b"joystick:",
        b"camera:",
        b"sensor:",
        b"sensor:",
        b"battery:",
        b"battery:",
        b"libwacom:",
        b"ieee1394:",
        b"ieee1394:",
        b"OUI:",
        b"net:",
        b"sdio:",
        b"vmbus:",
        b"fb:",
        b"tpm2:",
        b"block:",
        b"hid:",
        b"input:",
        b"virtio:",
        b"i2c:",
        b"i3c:",
        b"platform:",
        b"of:",
        b"serio:",
        b"spi:",
        b"hdaudio:",
        b"wmi:",
        b"scsi:",
        b"pnp:",
        b"ssb:",
        b"bcma:",
        b"pcmcia:",
        b"mei:",
        b"rmi:",
        b"typec:",
        b"mdio:",
        b"cpu:",
        b"tbsvc:",
        b"xen:",
        b"xen-backend:",
        b"auxiliary:",
        b"sdw:",
        b"mmc:",
        b"rpmsg:",
        b"ccw:",
        b"ap:",
        b"css:",
        b"vio:",
        b"amba:",
        b"parisc:",
        b"zorro:",
        b"eisa:",
        b"ipack:",
        b"mcb:",
        b"mhi:",
        b"ulpi:",
        b"fsl-mc:",
        b"ssam:",
        b"ishtp:",
        b"dfl:",
        b"tee:",
        b"coreboot:",
        b"cxl:",
        b"nd:",
        b"dax:",
        b"slim:",
        b"apr:",
        b"hsi:",
        b"ac97:",
        b"cdx:",
        b"vchiq:",
        b"rapidio:",
        b"nubus:",
        b"peci:",
        b"moxtet:",
        b"siox:",
        b"scmi_protocol:",
        b"maple:",
    ]
}

/// Whether a text is one of some prefixes.
fn is_among(text: &[u8], some: &[&'static [u8]]) -> bool
    ensures { result ≡ list_any (same text.now) (map (λ prefix. prefix.now) some.now) }
{
    for prefix in some {
        if text.cmp(prefix).is_eq() {
            return true;
        }
    }
    false
}

/// Whether udev asks texts that begin with this prefix, its colon too.
pub fn is_asked(prefix: &[u8]) -> bool
    ensures { result ≡ list_any (same prefix.now) FormTable.prefixes }
{
    is_among(prefix, prefixes())
}
