//! The forms of the texts with a name, and without the machine, that udev likely asks.
ghost use Rattle.std.specs.Prelude.{◌≡◌};
ghost use Rattle.hwdb_spec_commands.specs.LikelyForms;
ghost use Rattle.hwdb_forms.specs.Internal.{form_of};

use crate::pieces::FormRow;
use crate::pieces::Piece::{Counted, Fixed, Repeated};
use hwdb_spec::ByteSet::{AnyHex, HexOrBlank, InputBits, LeftButColon, LowerHex, Name, UpperHex};

pub(crate) fn evdev_name() -> FormRow
    ensures { form_of result ≡ LikelyForms.evdev_name }
{
    FormRow {
        prefix: b"evdev:",
        fields: &[
            &[&[Fixed(b"name:"), Repeated(LeftButColon)]],
            &[
                &[Fixed(b":"), Counted(AnyHex, 2), Repeated(LeftButColon)],
                &[Fixed(b": "), Repeated(LeftButColon)],
                &[],
            ],
            &[
                &[Fixed(b":"), Counted(AnyHex, 2), Repeated(LeftButColon)],
                &[Fixed(b": "), Repeated(LeftButColon)],
                &[],
            ],
            &[
                &[Fixed(b":"), Counted(AnyHex, 2), Repeated(LeftButColon)],
                &[Fixed(b": "), Repeated(LeftButColon)],
                &[],
            ],
            &[&[Fixed(b":")]],
        ],
    }
}

pub(crate) fn evdev_place() -> FormRow
    ensures { form_of result ≡ LikelyForms.evdev_place }
{
    FormRow {
        prefix: b"evdev:",
        fields: &[
            &[&[Fixed(b"name:"), Repeated(LeftButColon)]],
            &[
                &[Fixed(b":"), Counted(AnyHex, 2), Repeated(LeftButColon)],
                &[Fixed(b": "), Repeated(LeftButColon)],
                &[],
            ],
            &[
                &[Fixed(b":"), Counted(AnyHex, 2), Repeated(LeftButColon)],
                &[Fixed(b": "), Repeated(LeftButColon)],
                &[],
            ],
            &[
                &[Fixed(b":"), Counted(AnyHex, 2), Repeated(LeftButColon)],
                &[Fixed(b": "), Repeated(LeftButColon)],
                &[],
            ],
            &[&[Fixed(b":")]],
            &[&[Fixed(b"phys:"), Repeated(LeftButColon)]],
            &[
                &[Fixed(b":"), Counted(AnyHex, 2), Repeated(LeftButColon)],
                &[],
            ],
            &[
                &[Fixed(b":"), Counted(AnyHex, 2), Repeated(LeftButColon)],
                &[],
            ],
            &[
                &[Fixed(b":"), Counted(AnyHex, 2), Repeated(LeftButColon)],
                &[],
            ],
            &[
                &[Fixed(b":"), Counted(AnyHex, 2), Repeated(LeftButColon)],
                &[],
            ],
            &[
                &[Fixed(b":"), Counted(AnyHex, 2), Repeated(LeftButColon)],
                &[],
            ],
            &[&[Fixed(b":ev:"), Repeated(HexOrBlank), Fixed(b":")]],
        ],
    }
}

pub(crate) fn id_input_name() -> FormRow
    ensures { form_of result ≡ LikelyForms.id_input_name }
{
    FormRow {
        prefix: b"id-input:",
        fields: &[
            &[&[Repeated(Name), Fixed(b":")]],
            &[&[
                Fixed(b"v"),
                Counted(LowerHex, 4),
                Fixed(b"p"),
                Counted(LowerHex, 4),
            ]],
            &[&[Fixed(b":name:"), Repeated(LeftButColon)]],
            &[
                &[Fixed(b":"), Counted(AnyHex, 2), Repeated(LeftButColon)],
                &[Fixed(b": "), Repeated(LeftButColon)],
                &[],
            ],
            &[
                &[Fixed(b":"), Counted(AnyHex, 2), Repeated(LeftButColon)],
                &[Fixed(b": "), Repeated(LeftButColon)],
                &[],
            ],
            &[
                &[Fixed(b":"), Counted(AnyHex, 2), Repeated(LeftButColon)],
                &[Fixed(b": "), Repeated(LeftButColon)],
                &[],
            ],
            &[&[Fixed(b":")]],
        ],
    }
}

pub(crate) fn mouse() -> FormRow
    ensures { form_of result ≡ LikelyForms.mouse }
{
    FormRow {
        prefix: b"mouse:",
        fields: &[
            &[
                &[
                    Fixed(b"usb:"),
                    Fixed(b"v"),
                    Counted(LowerHex, 4),
                    Fixed(b"p"),
                    Counted(LowerHex, 4),
                ],
                &[
                    Fixed(b"bluetooth:"),
                    Fixed(b"v"),
                    Counted(LowerHex, 4),
                    Fixed(b"p"),
                    Counted(LowerHex, 4),
                ],
                &[Fixed(b"ps2:")],
            ],
            &[&[Fixed(b":name:"), Repeated(LeftButColon)]],
            &[
                &[Fixed(b":"), Counted(AnyHex, 2), Repeated(LeftButColon)],
                &[Fixed(b": "), Repeated(LeftButColon)],
                &[],
            ],
            &[
                &[Fixed(b":"), Counted(AnyHex, 2), Repeated(LeftButColon)],
                &[Fixed(b": "), Repeated(LeftButColon)],
                &[],
            ],
            &[
                &[Fixed(b":"), Counted(AnyHex, 2), Repeated(LeftButColon)],
                &[Fixed(b": "), Repeated(LeftButColon)],
                &[],
            ],
            &[&[Fixed(b":")]],
        ],
    }
}

pub(crate) fn touchpad() -> FormRow
    ensures { form_of result ≡ LikelyForms.touchpad }
{
    FormRow {
        prefix: b"touchpad:",
        fields: &[
            &[&[Repeated(Name), Fixed(b":")]],
            &[&[
                Fixed(b"v"),
                Counted(LowerHex, 4),
                Fixed(b"p"),
                Counted(LowerHex, 4),
            ]],
            &[&[Fixed(b":name:"), Repeated(LeftButColon)]],
            &[
                &[Fixed(b":"), Counted(AnyHex, 2), Repeated(LeftButColon)],
                &[Fixed(b": "), Repeated(LeftButColon)],
                &[],
            ],
            &[
                &[Fixed(b":"), Counted(AnyHex, 2), Repeated(LeftButColon)],
                &[Fixed(b": "), Repeated(LeftButColon)],
                &[],
            ],
            &[
                &[Fixed(b":"), Counted(AnyHex, 2), Repeated(LeftButColon)],
                &[Fixed(b": "), Repeated(LeftButColon)],
                &[],
            ],
            &[&[Fixed(b":")]],
        ],
    }
}

pub(crate) fn joystick() -> FormRow
    ensures { form_of result ≡ LikelyForms.joystick }
{
    FormRow {
        prefix: b"joystick:",
        fields: &[
            &[&[Repeated(Name), Fixed(b":")]],
            &[&[
                Fixed(b"v"),
                Counted(LowerHex, 4),
                Fixed(b"p"),
                Counted(LowerHex, 4),
            ]],
            &[&[Fixed(b":name:"), Repeated(LeftButColon)]],
            &[
                &[Fixed(b":"), Counted(AnyHex, 2), Repeated(LeftButColon)],
                &[Fixed(b": "), Repeated(LeftButColon)],
                &[],
            ],
            &[
                &[Fixed(b":"), Counted(AnyHex, 2), Repeated(LeftButColon)],
                &[Fixed(b": "), Repeated(LeftButColon)],
                &[],
            ],
            &[
                &[Fixed(b":"), Counted(AnyHex, 2), Repeated(LeftButColon)],
                &[Fixed(b": "), Repeated(LeftButColon)],
                &[],
            ],
            &[&[Fixed(b":")]],
        ],
    }
}

pub(crate) fn camera() -> FormRow
    ensures { form_of result ≡ LikelyForms.camera }
{
    FormRow {
        prefix: b"camera:",
        fields: &[
            &[&[
                Fixed(b"usb:"),
                Fixed(b"v"),
                Counted(LowerHex, 4),
                Fixed(b"p"),
                Counted(LowerHex, 4),
            ]],
            &[&[Fixed(b":name:"), Repeated(LeftButColon)]],
            &[
                &[Fixed(b":"), Counted(AnyHex, 2), Repeated(LeftButColon)],
                &[Fixed(b": "), Repeated(LeftButColon)],
                &[],
            ],
            &[
                &[Fixed(b":"), Counted(AnyHex, 2), Repeated(LeftButColon)],
                &[Fixed(b": "), Repeated(LeftButColon)],
                &[],
            ],
            &[
                &[Fixed(b":"), Counted(AnyHex, 2), Repeated(LeftButColon)],
                &[Fixed(b": "), Repeated(LeftButColon)],
                &[],
            ],
            &[&[Fixed(b":")]],
        ],
    }
}

pub(crate) fn libwacom() -> FormRow
    ensures { form_of result ≡ LikelyForms.libwacom }
{
    FormRow {
        prefix: b"libwacom:",
        fields: &[
            &[&[Fixed(b"name:"), Repeated(LeftButColon)]],
            &[
                &[Fixed(b":"), Counted(AnyHex, 2), Repeated(LeftButColon)],
                &[Fixed(b": "), Repeated(LeftButColon)],
                &[],
            ],
            &[
                &[Fixed(b":"), Counted(AnyHex, 2), Repeated(LeftButColon)],
                &[Fixed(b": "), Repeated(LeftButColon)],
                &[],
            ],
            &[
                &[Fixed(b":"), Counted(AnyHex, 2), Repeated(LeftButColon)],
                &[Fixed(b": "), Repeated(LeftButColon)],
                &[],
            ],
            &[&[Fixed(b":")]],
            &[&[
                Fixed(b"input:b"),
                Counted(UpperHex, 4),
                Fixed(b"v"),
                Counted(UpperHex, 4),
                Fixed(b"p"),
                Counted(UpperHex, 4),
                Fixed(b"e"),
                Counted(UpperHex, 4),
                Fixed(b"-"),
                Repeated(InputBits),
            ]],
        ],
    }
}
