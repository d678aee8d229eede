//! The forms that udev asks, as `FormTable` of `hwdb_spec_commands` has them.
ghost use Rattle.std.specs.Prelude.{◌≡◌, map};
ghost use Rattle.hwdb_spec_commands.specs.FormTable;
ghost use Rattle.hwdb_forms.specs.Internal.{form_of};

use crate::pieces::FormRow;
use crate::pieces::Piece::{Counted, Fixed, Repeated};
use hwdb_spec::ByteSet::{
    Any, AnyHex, Dmi, DmiLeft, HexOrBlank, InputBits, Left, LeftButColon, LowerHex, Name, Names,
    Units, UpperHex,
};

pub(crate) fn usb() -> FormRow
    ensures { form_of result ≡ FormTable.usb }
{
    FormRow {
        prefix: b"usb:",
        fields: &[
            &[&[
                Fixed(b"v"),
                Counted(UpperHex, 4),
                Fixed(b"p"),
                Counted(UpperHex, 4),
            ]],
            &[
                &[
                    Fixed(b"d"),
                    Counted(UpperHex, 4),
                    Fixed(b"dc"),
                    Counted(UpperHex, 2),
                    Fixed(b"dsc"),
                    Counted(UpperHex, 2),
                    Fixed(b"dp"),
                    Counted(UpperHex, 2),
                    Fixed(b"ic"),
                    Counted(UpperHex, 2),
                    Fixed(b"isc"),
                    Counted(UpperHex, 2),
                    Fixed(b"ip"),
                    Counted(UpperHex, 2),
                    Fixed(b"in"),
                    Counted(UpperHex, 2),
                ],
                &[Fixed(b":"), Repeated(Any)],
            ],
        ],
    }
}

pub(crate) fn pci() -> FormRow
    ensures { form_of result ≡ FormTable.pci }
{
    FormRow {
        prefix: b"pci:",
        fields: &[&[&[
            Fixed(b"v"),
            Counted(UpperHex, 8),
            Fixed(b"d"),
            Counted(UpperHex, 8),
            Fixed(b"sv"),
            Counted(UpperHex, 8),
            Fixed(b"sd"),
            Counted(UpperHex, 8),
            Fixed(b"bc"),
            Counted(UpperHex, 2),
            Fixed(b"sc"),
            Counted(UpperHex, 2),
            Fixed(b"i"),
            Counted(AnyHex, 2),
        ]]],
    }
}

pub(crate) fn bluetooth() -> FormRow
    ensures { form_of result ≡ FormTable.bluetooth }
{
    FormRow {
        prefix: b"bluetooth:",
        fields: &[
            &[&[
                Fixed(b"v"),
                Counted(UpperHex, 4),
                Fixed(b"p"),
                Counted(UpperHex, 4),
            ]],
            &[&[Fixed(b"d"), Counted(UpperHex, 4)], &[]],
        ],
    }
}

pub(crate) fn acpi() -> FormRow
    ensures { form_of result ≡ FormTable.acpi }
{
    FormRow {
        prefix: b"acpi:",
        fields: &[&[&[Repeated(Names), Fixed(b":")], &[]]],
    }
}

fn dmi() -> FormRow
    ensures { form_of result ≡ FormTable.dmi }
{
    FormRow {
        prefix: b"dmi:",
        fields: &[
            &[&[Fixed(b"bvn"), Repeated(Dmi), Fixed(b":")], &[]],
            &[&[Fixed(b"bvr"), Repeated(Dmi), Fixed(b":")], &[]],
            &[&[Fixed(b"bd"), Repeated(Dmi), Fixed(b":")], &[]],
            &[&[Fixed(b"br"), Repeated(Dmi), Fixed(b":")], &[]],
            &[&[Fixed(b"efr"), Repeated(Dmi), Fixed(b":")], &[]],
            &[&[Fixed(b"svn"), Repeated(Dmi), Fixed(b":")], &[]],
            &[&[Fixed(b"pn"), Repeated(Dmi), Fixed(b":")], &[]],
            &[&[Fixed(b"pvr"), Repeated(Dmi), Fixed(b":")], &[]],
            &[&[Fixed(b"sku"), Repeated(Dmi), Fixed(b":")], &[]],
            &[&[Fixed(b"rvn"), Repeated(Dmi), Fixed(b":")], &[]],
            &[&[Fixed(b"rn"), Repeated(Dmi), Fixed(b":")], &[]],
            &[&[Fixed(b"rvr"), Repeated(Dmi), Fixed(b":")], &[]],
            &[&[Fixed(b"cvn"), Repeated(Dmi), Fixed(b":")], &[]],
            &[&[Fixed(b"ct"), Repeated(Dmi), Fixed(b":")], &[]],
            &[&[Fixed(b"cvr"), Repeated(Dmi), Fixed(b":")], &[]],
            &[&[Fixed(b"sku"), Repeated(Dmi), Fixed(b":")], &[]],
            &[&[Fixed(b"cat"), Repeated(Left), Fixed(b":")], &[]],
        ],
    }
}

pub(crate) fn evdev_input() -> FormRow
    ensures { form_of result ≡ FormTable.evdev_input }
{
    FormRow {
        prefix: b"evdev:",
        fields: &[&[&[
            Fixed(b"input:b"),
            Counted(UpperHex, 4),
            Fixed(b"v"),
            Counted(UpperHex, 4),
            Fixed(b"p"),
            Counted(UpperHex, 4),
            Fixed(b"e"),
            Counted(UpperHex, 4),
            Fixed(b"-"),
            Repeated(InputBits),
        ]]],
    }
}

fn evdev_machine() -> FormRow
    ensures { form_of result ≡ FormTable.evdev_machine }
{
    FormRow {
        prefix: b"evdev:",
        fields: &[
            &[&[Fixed(b"atkbd:dmi:")]],
            &[&[Fixed(b"bvn"), Repeated(DmiLeft), Fixed(b":")], &[]],
            &[&[Fixed(b"bvr"), Repeated(DmiLeft), Fixed(b":")], &[]],
            &[&[Fixed(b"bd"), Repeated(DmiLeft), Fixed(b":")], &[]],
            &[&[Fixed(b"br"), Repeated(DmiLeft), Fixed(b":")], &[]],
            &[&[Fixed(b"efr"), Repeated(DmiLeft), Fixed(b":")], &[]],
            &[&[Fixed(b"svn"), Repeated(DmiLeft), Fixed(b":")], &[]],
            &[&[Fixed(b"pn"), Repeated(DmiLeft), Fixed(b":")], &[]],
            &[&[Fixed(b"pvr"), Repeated(DmiLeft), Fixed(b":")], &[]],
            &[&[Fixed(b"sku"), Repeated(DmiLeft), Fixed(b":")], &[]],
            &[&[Fixed(b"rvn"), Repeated(DmiLeft), Fixed(b":")], &[]],
            &[&[Fixed(b"rn"), Repeated(DmiLeft), Fixed(b":")], &[]],
            &[&[Fixed(b"rvr"), Repeated(DmiLeft), Fixed(b":")], &[]],
            &[&[Fixed(b"cvn"), Repeated(DmiLeft), Fixed(b":")], &[]],
            &[&[Fixed(b"ct"), Repeated(DmiLeft), Fixed(b":")], &[]],
            &[&[Fixed(b"cvr"), Repeated(DmiLeft), Fixed(b":")], &[]],
            &[&[Fixed(b"sku"), Repeated(DmiLeft), Fixed(b":")], &[]],
        ],
    }
}

pub(crate) fn evdev_keyboard() -> FormRow
    ensures { form_of result ≡ FormTable.evdev_keyboard }
{
    FormRow {
        prefix: b"evdev:",
        fields: &[&[&[Fixed(b"atkbd:")]]],
    }
}

fn evdev_name_machine() -> FormRow
    ensures { form_of result ≡ FormTable.evdev_name_machine }
{
    FormRow {
        prefix: b"evdev:",
        fields: &[
            &[&[Fixed(b"name:"), Repeated(Left), Fixed(b":")]],
            &[
                &[
                    Fixed(b"phys:"),
                    Repeated(Left),
                    Fixed(b":ev:"),
                    Repeated(HexOrBlank),
                    Fixed(b":"),
                ],
                &[],
            ],
            &[&[Fixed(b"dmi:")]],
            &[&[Fixed(b"bvn"), Repeated(DmiLeft), Fixed(b":")], &[]],
            &[&[Fixed(b"bvr"), Repeated(DmiLeft), Fixed(b":")], &[]],
            &[&[Fixed(b"bd"), Repeated(DmiLeft), Fixed(b":")], &[]],
            &[&[Fixed(b"br"), Repeated(DmiLeft), Fixed(b":")], &[]],
            &[&[Fixed(b"efr"), Repeated(DmiLeft), Fixed(b":")], &[]],
            &[&[Fixed(b"svn"), Repeated(DmiLeft), Fixed(b":")], &[]],
            &[&[Fixed(b"pn"), Repeated(DmiLeft), Fixed(b":")], &[]],
            &[&[Fixed(b"pvr"), Repeated(DmiLeft), Fixed(b":")], &[]],
            &[&[Fixed(b"sku"), Repeated(DmiLeft), Fixed(b":")], &[]],
            &[&[Fixed(b"rvn"), Repeated(DmiLeft), Fixed(b":")], &[]],
            &[&[Fixed(b"rn"), Repeated(DmiLeft), Fixed(b":")], &[]],
            &[&[Fixed(b"rvr"), Repeated(DmiLeft), Fixed(b":")], &[]],
            &[&[Fixed(b"cvn"), Repeated(DmiLeft), Fixed(b":")], &[]],
            &[&[Fixed(b"ct"), Repeated(DmiLeft), Fixed(b":")], &[]],
            &[&[Fixed(b"cvr"), Repeated(DmiLeft), Fixed(b":")], &[]],
            &[&[Fixed(b"sku"), Repeated(DmiLeft), Fixed(b":")], &[]],
        ],
    }
}

fn evdev_name() -> FormRow
    ensures { form_of result ≡ FormTable.evdev_name }
{
    FormRow {
        prefix: b"evdev:",
        fields: &[
            &[&[Fixed(b"name:"), Repeated(Left), Fixed(b":")]],
            &[
                &[
                    Fixed(b"phys:"),
                    Repeated(Left),
                    Fixed(b":ev:"),
                    Repeated(HexOrBlank),
                    Fixed(b":"),
                ],
                &[],
            ],
        ],
    }
}

pub(crate) fn id_input() -> FormRow
    ensures { form_of result ≡ FormTable.id_input }
{
    FormRow {
        prefix: b"id-input:",
        fields: &[&[&[
            Fixed(b"modalias:"),
            Fixed(b"input:b"),
            Counted(UpperHex, 4),
            Fixed(b"v"),
            Counted(UpperHex, 4),
            Fixed(b"p"),
            Counted(UpperHex, 4),
            Fixed(b"e"),
            Counted(UpperHex, 4),
            Fixed(b"-"),
            Repeated(InputBits),
        ]]],
    }
}

fn id_input_name() -> FormRow
    ensures { form_of result ≡ FormTable.id_input_name }
{
    FormRow {
        prefix: b"id-input:",
        fields: &[
            &[&[Repeated(Name), Fixed(b":")]],
            &[&[
                Fixed(b"v"),
                Counted(LowerHex, 4),
                Fixed(b"p"),
                Counted(LowerHex, 4),
            ]],
            &[&[Fixed(b":name:"), Repeated(Left), Fixed(b":")]],
        ],
    }
}

fn mouse() -> FormRow
    ensures { form_of result ≡ FormTable.mouse }
{
    FormRow {
        prefix: b"mouse:",
        fields: &[
            &[
                &[
                    Fixed(b"usb:"),
                    Fixed(b"v"),
                    Counted(LowerHex, 4),
                    Fixed(b"p"),
                    Counted(LowerHex, 4),
                ],
                &[
                    Fixed(b"bluetooth:"),
                    Fixed(b"v"),
                    Counted(LowerHex, 4),
                    Fixed(b"p"),
                    Counted(LowerHex, 4),
                ],
                &[Fixed(b"ps2:")],
            ],
            &[&[Fixed(b":name:"), Repeated(Left), Fixed(b":")]],
        ],
    }
}

fn touchpad() -> FormRow
    ensures { form_of result ≡ FormTable.touchpad }
{
    FormRow {
        prefix: b"touchpad:",
        fields: &[
            &[&[Repeated(Name), Fixed(b":")]],
            &[&[
                Fixed(b"v"),
                Counted(LowerHex, 4),
                Fixed(b"p"),
                Counted(LowerHex, 4),
            ]],
            &[&[Fixed(b":name:"), Repeated(Left), Fixed(b":")]],
        ],
    }
}

fn joystick() -> FormRow
    ensures { form_of result ≡ FormTable.joystick }
{
    FormRow {
        prefix: b"joystick:",
        fields: &[
            &[&[Repeated(Name), Fixed(b":")]],
            &[&[
                Fixed(b"v"),
                Counted(LowerHex, 4),
                Fixed(b"p"),
                Counted(LowerHex, 4),
            ]],
            &[&[Fixed(b":name:"), Repeated(Left), Fixed(b":")]],
        ],
    }
}

fn camera() -> FormRow
    ensures { form_of result ≡ FormTable.camera }
{
    FormRow {
        prefix: b"camera:",
        fields: &[
            &[&[
                Fixed(b"usb:"),
                Fixed(b"v"),
                Counted(LowerHex, 4),
                Fixed(b"p"),
                Counted(LowerHex, 4),
            ]],
            &[&[Fixed(b":name:"), Repeated(Left), Fixed(b":")]],
        ],
    }
}

fn sensor_machine() -> FormRow
    ensures { form_of result ≡ FormTable.sensor_machine }
{
    FormRow {
        prefix: b"sensor:",
        fields: &[
            &[&[Repeated(Left), Fixed(b":")], &[]],
            &[&[Fixed(b"modalias:"), Repeated(LeftButColon), Fixed(b":")]],
            &[&[Repeated(Left), Fixed(b":")], &[]],
            &[&[Fixed(b"dmi:")]],
            &[&[Fixed(b"bvn"), Repeated(DmiLeft), Fixed(b":")], &[]],
            &[&[Fixed(b"bvr"), Repeated(DmiLeft), Fixed(b":")], &[]],
            &[&[Fixed(b"bd"), Repeated(DmiLeft), Fixed(b":")], &[]],
            &[&[Fixed(b"br"), Repeated(DmiLeft), Fixed(b":")], &[]],
            &[&[Fixed(b"efr"), Repeated(DmiLeft), Fixed(b":")], &[]],
            &[&[Fixed(b"svn"), Repeated(DmiLeft), Fixed(b":")], &[]],
            &[&[Fixed(b"pn"), Repeated(DmiLeft), Fixed(b":")], &[]],
            &[&[Fixed(b"pvr"), Repeated(DmiLeft), Fixed(b":")], &[]],
            &[&[Fixed(b"sku"), Repeated(DmiLeft), Fixed(b":")], &[]],
            &[&[Fixed(b"rvn"), Repeated(DmiLeft), Fixed(b":")], &[]],
            &[&[Fixed(b"rn"), Repeated(DmiLeft), Fixed(b":")], &[]],
            &[&[Fixed(b"rvr"), Repeated(DmiLeft), Fixed(b":")], &[]],
            &[&[Fixed(b"cvn"), Repeated(DmiLeft), Fixed(b":")], &[]],
            &[&[Fixed(b"ct"), Repeated(DmiLeft), Fixed(b":")], &[]],
            &[&[Fixed(b"cvr"), Repeated(DmiLeft), Fixed(b":")], &[]],
            &[&[Fixed(b"sku"), Repeated(DmiLeft), Fixed(b":")], &[]],
        ],
    }
}

fn sensor() -> FormRow
    ensures { form_of result ≡ FormTable.sensor }
{
    FormRow {
        prefix: b"sensor:",
        fields: &[
            &[&[Repeated(Left), Fixed(b":")], &[]],
            &[&[Fixed(b"modalias:"), Repeated(LeftButColon), Fixed(b":")]],
            &[&[Repeated(Left), Fixed(b":")], &[]],
        ],
    }
}

fn battery_machine() -> FormRow
    ensures { form_of result ≡ FormTable.battery_machine }
{
    FormRow {
        prefix: b"battery:",
        fields: &[
            &[&[
                Repeated(LeftButColon),
                Fixed(b":"),
                Repeated(Left),
                Fixed(b":"),
            ]],
            &[&[Fixed(b"dmi:")]],
            &[&[Fixed(b"bvn"), Repeated(DmiLeft), Fixed(b":")], &[]],
            &[&[Fixed(b"bvr"), Repeated(DmiLeft), Fixed(b":")], &[]],
            &[&[Fixed(b"bd"), Repeated(DmiLeft), Fixed(b":")], &[]],
            &[&[Fixed(b"br"), Repeated(DmiLeft), Fixed(b":")], &[]],
            &[&[Fixed(b"efr"), Repeated(DmiLeft), Fixed(b":")], &[]],
            &[&[Fixed(b"svn"), Repeated(DmiLeft), Fixed(b":")], &[]],
            &[&[Fixed(b"pn"), Repeated(DmiLeft), Fixed(b":")], &[]],
            &[&[Fixed(b"pvr"), Repeated(DmiLeft), Fixed(b":")], &[]],
            &[&[Fixed(b"sku"), Repeated(DmiLeft), Fixed(b":")], &[]],
            &[&[Fixed(b"rvn"), Repeated(DmiLeft), Fixed(b":")], &[]],
            &[&[Fixed(b"rn"), Repeated(DmiLeft), Fixed(b":")], &[]],
            &[&[Fixed(b"rvr"), Repeated(DmiLeft), Fixed(b":")], &[]],
            &[&[Fixed(b"cvn"), Repeated(DmiLeft), Fixed(b":")], &[]],
            &[&[Fixed(b"ct"), Repeated(DmiLeft), Fixed(b":")], &[]],
            &[&[Fixed(b"cvr"), Repeated(DmiLeft), Fixed(b":")], &[]],
            &[&[Fixed(b"sku"), Repeated(DmiLeft), Fixed(b":")], &[]],
        ],
    }
}

fn battery() -> FormRow
    ensures { form_of result ≡ FormTable.battery }
{
    FormRow {
        prefix: b"battery:",
        fields: &[&[&[
            Repeated(LeftButColon),
            Fixed(b":"),
            Repeated(Left),
            Fixed(b":"),
        ]]],
    }
}

fn libwacom() -> FormRow
    ensures { form_of result ≡ FormTable.libwacom }
{
    FormRow {
        prefix: b"libwacom:",
        fields: &[
            &[&[Fixed(b"name:"), Repeated(Left), Fixed(b":")]],
            &[&[
                Fixed(b"input:b"),
                Counted(UpperHex, 4),
                Fixed(b"v"),
                Counted(UpperHex, 4),
                Fixed(b"p"),
                Counted(UpperHex, 4),
                Fixed(b"e"),
                Counted(UpperHex, 4),
                Fixed(b"-"),
                Repeated(InputBits),
            ]],
        ],
    }
}

pub(crate) fn ieee1394_node() -> FormRow
    ensures { form_of result ≡ FormTable.ieee1394_node }
{
    FormRow {
        prefix: b"ieee1394:",
        fields: &[
            &[&[Fixed(b"node:ven0x"), Counted(LowerHex, 6)]],
            &[&[Fixed(b"mo0x"), Counted(LowerHex, 6)], &[]],
            &[&[Fixed(b"units"), Repeated(Units)]],
        ],
    }
}

pub(crate) fn ieee1394_unit() -> FormRow
    ensures { form_of result ≡ FormTable.ieee1394_unit }
{
    FormRow {
        prefix: b"ieee1394:",
        fields: &[&[&[
            Fixed(b"ven"),
            Counted(UpperHex, 8),
            Fixed(b"mo"),
            Counted(UpperHex, 8),
            Fixed(b"sp"),
            Counted(UpperHex, 8),
            Fixed(b"ver"),
            Counted(UpperHex, 8),
        ]]],
    }
}

pub(crate) fn oui() -> FormRow
    ensures { form_of result ≡ FormTable.oui }
{
    FormRow {
        prefix: b"OUI:",
        fields: &[&[&[Counted(UpperHex, 12)]]],
    }
}

pub(crate) fn net() -> FormRow
    ensures { form_of result ≡ FormTable.net }
{
    FormRow {
        prefix: b"net:",
        fields: &[&[&[Fixed(b"naming:dr"), Repeated(Any), Fixed(b":")]]],
    }
}

pub(crate) fn sdio() -> FormRow
    ensures { form_of result ≡ FormTable.sdio }
{
    FormRow {
        prefix: b"sdio:",
        fields: &[&[&[
            Fixed(b"c"),
            Counted(UpperHex, 2),
            Fixed(b"v"),
            Counted(UpperHex, 4),
            Fixed(b"d"),
            Counted(UpperHex, 4),
        ]]],
    }
}

pub(crate) fn vmbus() -> FormRow
    ensures { form_of result ≡ FormTable.vmbus }
{
    FormRow {
        prefix: b"vmbus:",
        fields: &[&[&[Counted(LowerHex, 32)]]],
    }
}

pub(crate) fn fb() -> FormRow
    ensures { form_of result ≡ FormTable.fb }
{
    FormRow {
        prefix: b"fb:",
        fields: &[&[
            &[
                Fixed(b"pci:"),
                Fixed(b"v"),
                Counted(UpperHex, 8),
                Fixed(b"d"),
                Counted(UpperHex, 8),
                Fixed(b"sv"),
                Counted(UpperHex, 8),
                Fixed(b"sd"),
                Counted(UpperHex, 8),
                Fixed(b"bc"),
                Counted(UpperHex, 2),
                Fixed(b"sc"),
                Counted(UpperHex, 2),
                Fixed(b"i"),
                Counted(AnyHex, 2),
            ],
            &[Fixed(b"vmbus:"), Counted(LowerHex, 32)],
            &[Fixed(b"platform:"), Repeated(Left)],
            &[Fixed(b"of:"), Repeated(Left)],
            &[Fixed(b"virtio:"), Repeated(Left)],
            &[Fixed(b"acpi:"), Repeated(Left)],
            &[Fixed(b"usb:"), Repeated(Left)],
            &[Fixed(b"spi:"), Repeated(Left)],
            &[Fixed(b"i2c:"), Repeated(Left)],
            &[Fixed(b"xen:"), Repeated(Left)],
        ]],
    }
}

pub(crate) fn tpm2() -> FormRow
    ensures { form_of result ≡ FormTable.tpm2 }
{
    FormRow {
        prefix: b"tpm2:",
        fields: &[&[&[Repeated(Any)]]],
    }
}

pub(crate) fn block() -> FormRow
    ensures { form_of result ≡ FormTable.block }
{
    FormRow {
        prefix: b"block:",
        fields: &[&[&[
            Repeated(Any),
            Fixed(b":name:"),
            Repeated(Any),
            Fixed(b":fwrev:"),
            Repeated(Any),
            Fixed(b":"),
        ]]],
    }
}

/// The forms that say more.
#[tactic(auto, unfolding(hwdb_spec_commands::specs::FormTable::known))]
pub(crate) fn known() -> [FormRow; 30]
    ensures { map form_of result ≡ map (λ k. k.form) FormTable.known }
{
    [
        usb(),
        pci(),
        bluetooth(),
        acpi(),
        dmi(),
        evdev_input(),
        evdev_machine(),
        evdev_keyboard(),
        evdev_name_machine(),
        evdev_name(),
        id_input(),
        id_input_name(),
        mouse(),
        touchpad(),
        joystick(),
        camera(),
        sensor_machine(),
        sensor(),
        battery_machine(),
        battery(),
        libwacom(),
        ieee1394_node(),
        ieee1394_unit(),
        oui(),
        net(),
        sdio(),
        vmbus(),
        fb(),
        tpm2(),
        block(),
    ]
}
