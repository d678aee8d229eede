//! The forms of the texts that udev likely asks, as `LikelyForms` of `hwdb_spec_commands` has them. Those of a name alone are in
//! `likely_names`.
ghost use Rattle.std.specs.Prelude.{◌≡◌, ◌++◌, map};
ghost use Rattle.hwdb_spec_commands.specs.LikelyForms;
ghost use Rattle.hwdb_forms.specs.Internal.{form_of};

use crate::likely_names::{
    camera, evdev_name, evdev_place, id_input_name, joystick, libwacom, mouse, touchpad,
};
use crate::pieces::FormRow;
use crate::pieces::Piece::{Counted, Fixed, Repeated};
use crate::table::{
    acpi, block, bluetooth, evdev_input, evdev_keyboard, fb, id_input, ieee1394_node,
    ieee1394_unit, net, oui, pci, sdio, tpm2, usb, vmbus,
};
use hwdb_spec::ByteSet::{AnyHex, Dmi, DmiLeft, HexOrBlank, Left, LeftButColon, Name, UpperHex};

fn dmi() -> FormRow
    ensures { form_of result ≡ LikelyForms.dmi }
{
    FormRow {
        prefix: b"dmi:",
        fields: &[
            &[&[Fixed(b"bvn"), Repeated(Dmi), Fixed(b":")]],
            &[&[Fixed(b"bvr"), Repeated(Dmi), Fixed(b":")]],
            &[&[Fixed(b"bd"), Repeated(Dmi), Fixed(b":")]],
            &[&[
                Fixed(b"br"),
                Repeated(UpperHex),
                Fixed(b"."),
                Repeated(UpperHex),
                Fixed(b":"),
            ]],
            &[
                &[
                    Fixed(b"efr"),
                    Repeated(UpperHex),
                    Fixed(b"."),
                    Repeated(UpperHex),
                    Fixed(b":"),
                ],
                &[],
            ],
            &[&[Fixed(b"svn"), Repeated(Dmi), Fixed(b":")]],
            &[&[Fixed(b"pn"), Repeated(Dmi), Fixed(b":")]],
            &[&[Fixed(b"pvr"), Repeated(Dmi), Fixed(b":")]],
            &[&[Fixed(b"sku"), Repeated(Dmi), Fixed(b":")], &[]],
            &[
                &[
                    Fixed(b"rvn"),
                    Repeated(Dmi),
                    Fixed(b":"),
                    Fixed(b"rn"),
                    Repeated(Dmi),
                    Fixed(b":"),
                    Fixed(b"rvr"),
                    Repeated(Dmi),
                    Fixed(b":"),
                ],
                &[],
            ],
            &[&[Fixed(b"cvn"), Repeated(Dmi), Fixed(b":")]],
            &[&[Fixed(b"ct"), Repeated(UpperHex), Fixed(b":")]],
            &[&[Fixed(b"cvr"), Repeated(Dmi), Fixed(b":")]],
            &[&[Fixed(b"sku"), Repeated(Dmi), Fixed(b":")], &[]],
            &[&[Fixed(b"cat"), Repeated(Left), Fixed(b":")], &[]],
        ],
    }
}

fn evdev_machine() -> FormRow
    ensures { form_of result ≡ LikelyForms.evdev_machine }
{
    FormRow {
        prefix: b"evdev:",
        fields: &[
            &[&[Fixed(b"atkbd:")]],
            &[&[Fixed(b"dmi:")]],
            &[&[Fixed(b"bvn"), Repeated(DmiLeft), Fixed(b":")]],
            &[&[Fixed(b"bvr"), Repeated(DmiLeft), Fixed(b":")]],
            &[&[Fixed(b"bd"), Repeated(DmiLeft), Fixed(b":")]],
            &[&[
                Fixed(b"br"),
                Repeated(UpperHex),
                Fixed(b"."),
                Repeated(UpperHex),
                Fixed(b":"),
            ]],
            &[
                &[
                    Fixed(b"efr"),
                    Repeated(UpperHex),
                    Fixed(b"."),
                    Repeated(UpperHex),
                    Fixed(b":"),
                ],
                &[],
            ],
            &[&[Fixed(b"svn"), Repeated(DmiLeft), Fixed(b":")]],
            &[&[Fixed(b"pn"), Repeated(DmiLeft), Fixed(b":")]],
            &[&[Fixed(b"pvr"), Repeated(DmiLeft), Fixed(b":")]],
            &[&[Fixed(b"sku"), Repeated(DmiLeft), Fixed(b":")], &[]],
            &[
                &[
                    Fixed(b"rvn"),
                    Repeated(DmiLeft),
                    Fixed(b":"),
                    Fixed(b"rn"),
                    Repeated(DmiLeft),
                    Fixed(b":"),
                    Fixed(b"rvr"),
                    Repeated(DmiLeft),
                    Fixed(b":"),
                ],
                &[],
            ],
            &[&[Fixed(b"cvn"), Repeated(DmiLeft), Fixed(b":")]],
            &[&[Fixed(b"ct"), Repeated(UpperHex), Fixed(b":")]],
            &[&[Fixed(b"cvr"), Repeated(DmiLeft), Fixed(b":")]],
            &[&[Fixed(b"sku"), Repeated(DmiLeft), Fixed(b":")], &[]],
        ],
    }
}

fn evdev_name_machine() -> FormRow
    ensures { form_of result ≡ LikelyForms.evdev_name_machine }
{
    FormRow {
        prefix: b"evdev:",
        fields: &[
            &[&[Fixed(b"name:"), Repeated(LeftButColon)]],
            &[
                &[Fixed(b":"), Counted(AnyHex, 2), Repeated(LeftButColon)],
                &[Fixed(b": "), Repeated(LeftButColon)],
                &[],
            ],
            &[
                &[Fixed(b":"), Counted(AnyHex, 2), Repeated(LeftButColon)],
                &[Fixed(b": "), Repeated(LeftButColon)],
                &[],
            ],
            &[
                &[Fixed(b":"), Counted(AnyHex, 2), Repeated(LeftButColon)],
                &[Fixed(b": "), Repeated(LeftButColon)],
                &[],
            ],
            &[&[Fixed(b":")]],
            &[&[Fixed(b"dmi:")]],
            &[&[Fixed(b"bvn"), Repeated(DmiLeft), Fixed(b":")]],
            &[&[Fixed(b"bvr"), Repeated(DmiLeft), Fixed(b":")]],
            &[&[Fixed(b"bd"), Repeated(DmiLeft), Fixed(b":")]],
            &[&[
                Fixed(b"br"),
                Repeated(UpperHex),
                Fixed(b"."),
                Repeated(UpperHex),
                Fixed(b":"),
            ]],
            &[
                &[
                    Fixed(b"efr"),
                    Repeated(UpperHex),
                    Fixed(b"."),
                    Repeated(UpperHex),
                    Fixed(b":"),
                ],
                &[],
            ],
            &[&[Fixed(b"svn"), Repeated(DmiLeft), Fixed(b":")]],
            &[&[Fixed(b"pn"), Repeated(DmiLeft), Fixed(b":")]],
            &[&[Fixed(b"pvr"), Repeated(DmiLeft), Fixed(b":")]],
            &[&[Fixed(b"sku"), Repeated(DmiLeft), Fixed(b":")], &[]],
            &[
                &[
                    Fixed(b"rvn"),
                    Repeated(DmiLeft),
                    Fixed(b":"),
                    Fixed(b"rn"),
                    Repeated(DmiLeft),
                    Fixed(b":"),
                    Fixed(b"rvr"),
                    Repeated(DmiLeft),
                    Fixed(b":"),
                ],
                &[],
            ],
            &[&[Fixed(b"cvn"), Repeated(DmiLeft), Fixed(b":")]],
            &[&[Fixed(b"ct"), Repeated(UpperHex), Fixed(b":")]],
            &[&[Fixed(b"cvr"), Repeated(DmiLeft), Fixed(b":")]],
            &[&[Fixed(b"sku"), Repeated(DmiLeft), Fixed(b":")], &[]],
        ],
    }
}

fn evdev_place_machine() -> FormRow
    ensures { form_of result ≡ LikelyForms.evdev_place_machine }
{
    FormRow {
        prefix: b"evdev:",
        fields: &[
            &[&[Fixed(b"name:"), Repeated(LeftButColon)]],
            &[
                &[Fixed(b":"), Counted(AnyHex, 2), Repeated(LeftButColon)],
                &[Fixed(b": "), Repeated(LeftButColon)],
                &[],
            ],
            &[
                &[Fixed(b":"), Counted(AnyHex, 2), Repeated(LeftButColon)],
                &[Fixed(b": "), Repeated(LeftButColon)],
                &[],
            ],
            &[
                &[Fixed(b":"), Counted(AnyHex, 2), Repeated(LeftButColon)],
                &[Fixed(b": "), Repeated(LeftButColon)],
                &[],
            ],
            &[&[Fixed(b":")]],
            &[&[Fixed(b"phys:"), Repeated(LeftButColon)]],
            &[
                &[Fixed(b":"), Counted(AnyHex, 2), Repeated(LeftButColon)],
                &[],
            ],
            &[
                &[Fixed(b":"), Counted(AnyHex, 2), Repeated(LeftButColon)],
                &[],
            ],
            &[
                &[Fixed(b":"), Counted(AnyHex, 2), Repeated(LeftButColon)],
                &[],
            ],
            &[
                &[Fixed(b":"), Counted(AnyHex, 2), Repeated(LeftButColon)],
                &[],
            ],
            &[
                &[Fixed(b":"), Counted(AnyHex, 2), Repeated(LeftButColon)],
                &[],
            ],
            &[&[Fixed(b":ev:"), Repeated(HexOrBlank), Fixed(b":")]],
            &[&[Fixed(b"dmi:")]],
            &[&[Fixed(b"bvn"), Repeated(DmiLeft), Fixed(b":")]],
            &[&[Fixed(b"bvr"), Repeated(DmiLeft), Fixed(b":")]],
            &[&[Fixed(b"bd"), Repeated(DmiLeft), Fixed(b":")]],
            &[&[
                Fixed(b"br"),
                Repeated(UpperHex),
                Fixed(b"."),
                Repeated(UpperHex),
                Fixed(b":"),
            ]],
            &[
                &[
                    Fixed(b"efr"),
                    Repeated(UpperHex),
                    Fixed(b"."),
                    Repeated(UpperHex),
                    Fixed(b":"),
                ],
                &[],
            ],
            &[&[Fixed(b"svn"), Repeated(DmiLeft), Fixed(b":")]],
            &[&[Fixed(b"pn"), Repeated(DmiLeft), Fixed(b":")]],
            &[&[Fixed(b"pvr"), Repeated(DmiLeft), Fixed(b":")]],
            &[&[Fixed(b"sku"), Repeated(DmiLeft), Fixed(b":")], &[]],
            &[
                &[
                    Fixed(b"rvn"),
                    Repeated(DmiLeft),
                    Fixed(b":"),
                    Fixed(b"rn"),
                    Repeated(DmiLeft),
                    Fixed(b":"),
                    Fixed(b"rvr"),
                    Repeated(DmiLeft),
                    Fixed(b":"),
                ],
                &[],
            ],
            &[&[Fixed(b"cvn"), Repeated(DmiLeft), Fixed(b":")]],
            &[&[Fixed(b"ct"), Repeated(UpperHex), Fixed(b":")]],
            &[&[Fixed(b"cvr"), Repeated(DmiLeft), Fixed(b":")]],
            &[&[Fixed(b"sku"), Repeated(DmiLeft), Fixed(b":")], &[]],
        ],
    }
}

fn sensor_machine() -> FormRow
    ensures { form_of result ≡ LikelyForms.sensor_machine }
{
    FormRow {
        prefix: b"sensor:",
        fields: &[
            &[&[Repeated(LeftButColon), Fixed(b":")], &[]],
            &[
                &[
                    Fixed(b"modalias:"),
                    Fixed(b"acpi"),
                    Fixed(b":"),
                    Counted(LeftButColon, 4),
                    Repeated(LeftButColon),
                ],
                &[
                    Fixed(b"modalias:"),
                    Fixed(b"platform"),
                    Fixed(b":"),
                    Counted(LeftButColon, 4),
                    Repeated(LeftButColon),
                ],
                &[
                    Fixed(b"modalias:"),
                    Fixed(b"i2c"),
                    Fixed(b":"),
                    Counted(LeftButColon, 4),
                    Repeated(LeftButColon),
                ],
                &[
                    Fixed(b"modalias:"),
                    Fixed(b"of"),
                    Fixed(b":"),
                    Counted(LeftButColon, 4),
                    Repeated(LeftButColon),
                ],
                &[
                    Fixed(b"modalias:"),
                    Fixed(b"usb"),
                    Fixed(b":"),
                    Counted(LeftButColon, 4),
                    Repeated(LeftButColon),
                ],
            ],
            &[&[Fixed(b":"), Counted(Name, 4), Repeated(Name)], &[]],
            &[&[Fixed(b":"), Counted(Name, 4), Repeated(Name)], &[]],
            &[&[Fixed(b":")], &[]],
            &[&[Fixed(b":")]],
            &[&[Fixed(b"dmi:")]],
            &[&[Fixed(b"bvn"), Repeated(DmiLeft), Fixed(b":")]],
            &[&[Fixed(b"bvr"), Repeated(DmiLeft), Fixed(b":")]],
            &[&[Fixed(b"bd"), Repeated(DmiLeft), Fixed(b":")]],
            &[&[
                Fixed(b"br"),
                Repeated(UpperHex),
                Fixed(b"."),
                Repeated(UpperHex),
                Fixed(b":"),
            ]],
            &[
                &[
                    Fixed(b"efr"),
                    Repeated(UpperHex),
                    Fixed(b"."),
                    Repeated(UpperHex),
                    Fixed(b":"),
                ],
                &[],
            ],
            &[&[Fixed(b"svn"), Repeated(DmiLeft), Fixed(b":")]],
            &[&[Fixed(b"pn"), Repeated(DmiLeft), Fixed(b":")]],
            &[&[Fixed(b"pvr"), Repeated(DmiLeft), Fixed(b":")]],
            &[&[Fixed(b"sku"), Repeated(DmiLeft), Fixed(b":")], &[]],
            &[
                &[
                    Fixed(b"rvn"),
                    Repeated(DmiLeft),
                    Fixed(b":"),
                    Fixed(b"rn"),
                    Repeated(DmiLeft),
                    Fixed(b":"),
                    Fixed(b"rvr"),
                    Repeated(DmiLeft),
                    Fixed(b":"),
                ],
                &[],
            ],
            &[&[Fixed(b"cvn"), Repeated(DmiLeft), Fixed(b":")]],
            &[&[Fixed(b"ct"), Repeated(UpperHex), Fixed(b":")]],
            &[&[Fixed(b"cvr"), Repeated(DmiLeft), Fixed(b":")]],
            &[&[Fixed(b"sku"), Repeated(DmiLeft), Fixed(b":")], &[]],
        ],
    }
}

fn sensor() -> FormRow
    ensures { form_of result ≡ LikelyForms.sensor }
{
    FormRow {
        prefix: b"sensor:",
        fields: &[
            &[&[Repeated(LeftButColon), Fixed(b":")], &[]],
            &[
                &[
                    Fixed(b"modalias:"),
                    Fixed(b"acpi"),
                    Fixed(b":"),
                    Counted(LeftButColon, 4),
                    Repeated(LeftButColon),
                ],
                &[
                    Fixed(b"modalias:"),
                    Fixed(b"platform"),
                    Fixed(b":"),
                    Counted(LeftButColon, 4),
                    Repeated(LeftButColon),
                ],
                &[
                    Fixed(b"modalias:"),
                    Fixed(b"i2c"),
                    Fixed(b":"),
                    Counted(LeftButColon, 4),
                    Repeated(LeftButColon),
                ],
                &[
                    Fixed(b"modalias:"),
                    Fixed(b"of"),
                    Fixed(b":"),
                    Counted(LeftButColon, 4),
                    Repeated(LeftButColon),
                ],
                &[
                    Fixed(b"modalias:"),
                    Fixed(b"usb"),
                    Fixed(b":"),
                    Counted(LeftButColon, 4),
                    Repeated(LeftButColon),
                ],
            ],
            &[&[Fixed(b":"), Counted(Name, 4), Repeated(Name)], &[]],
            &[&[Fixed(b":"), Counted(Name, 4), Repeated(Name)], &[]],
            &[&[Fixed(b":")], &[]],
            &[&[Fixed(b":")]],
        ],
    }
}

fn battery_machine() -> FormRow
    ensures { form_of result ≡ LikelyForms.battery_machine }
{
    FormRow {
        prefix: b"battery:",
        fields: &[
            &[&[
                Repeated(LeftButColon),
                Fixed(b":"),
                Repeated(LeftButColon),
                Fixed(b":"),
            ]],
            &[&[Fixed(b"dmi:")]],
            &[&[Fixed(b"bvn"), Repeated(DmiLeft), Fixed(b":")]],
            &[&[Fixed(b"bvr"), Repeated(DmiLeft), Fixed(b":")]],
            &[&[Fixed(b"bd"), Repeated(DmiLeft), Fixed(b":")]],
            &[&[
                Fixed(b"br"),
                Repeated(UpperHex),
                Fixed(b"."),
                Repeated(UpperHex),
                Fixed(b":"),
            ]],
            &[
                &[
                    Fixed(b"efr"),
                    Repeated(UpperHex),
                    Fixed(b"."),
                    Repeated(UpperHex),
                    Fixed(b":"),
                ],
                &[],
            ],
            &[&[Fixed(b"svn"), Repeated(DmiLeft), Fixed(b":")]],
            &[&[Fixed(b"pn"), Repeated(DmiLeft), Fixed(b":")]],
            &[&[Fixed(b"pvr"), Repeated(DmiLeft), Fixed(b":")]],
            &[&[Fixed(b"sku"), Repeated(DmiLeft), Fixed(b":")], &[]],
            &[
                &[
                    Fixed(b"rvn"),
                    Repeated(DmiLeft),
                    Fixed(b":"),
                    Fixed(b"rn"),
                    Repeated(DmiLeft),
                    Fixed(b":"),
                    Fixed(b"rvr"),
                    Repeated(DmiLeft),
                    Fixed(b":"),
                ],
                &[],
            ],
            &[&[Fixed(b"cvn"), Repeated(DmiLeft), Fixed(b":")]],
            &[&[Fixed(b"ct"), Repeated(UpperHex), Fixed(b":")]],
            &[&[Fixed(b"cvr"), Repeated(DmiLeft), Fixed(b":")]],
            &[&[Fixed(b"sku"), Repeated(DmiLeft), Fixed(b":")], &[]],
        ],
    }
}

fn battery() -> FormRow
    ensures { form_of result ≡ LikelyForms.battery }
{
    FormRow {
        prefix: b"battery:",
        fields: &[&[&[
            Repeated(LeftButColon),
            Fixed(b":"),
            Repeated(LeftButColon),
            Fixed(b":"),
        ]]],
    }
}

/// The forms that say more.
#[tactic(auto, unfolding(hwdb_spec_commands::specs::LikelyForms::kept, hwdb_spec_commands::specs::LikelyForms::narrow))]
pub(crate) fn likely_known() -> [FormRow; 32]
    ensures { map form_of result
        ≡ LikelyForms.kept ++ map (λ k. k.form) LikelyForms.narrow }
{
    [
        usb(),
        pci(),
        bluetooth(),
        acpi(),
        evdev_input(),
        evdev_keyboard(),
        id_input(),
        ieee1394_node(),
        ieee1394_unit(),
        oui(),
        net(),
        sdio(),
        vmbus(),
        fb(),
        tpm2(),
        block(),
        dmi(),
        evdev_machine(),
        evdev_name_machine(),
        evdev_place_machine(),
        evdev_name(),
        evdev_place(),
        id_input_name(),
        mouse(),
        touchpad(),
        joystick(),
        camera(),
        sensor_machine(),
        sensor(),
        battery_machine(),
        battery(),
        libwacom(),
    ]
}
