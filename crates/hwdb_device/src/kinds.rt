//! What kinds a device has, by what strings give it.
ghost use Rattle.std.specs.Prelude.{◌≡◌};
ghost use Rattle.std.specs.Option.{option_map_or};
ghost use Rattle.hwdb_spec_commands.specs.Lookups;
ghost use Rattle.hwdb_query.specs.Views.{explained_values};
ghost use Rattle.hwdb_rules.specs.Views.{kinds_of};
ghost use Rattle.hwdb_device.specs.Internal.{test_of};
ghost use Rattle.hwdb_device.specs.Views.{all_found};

use crate::told::{same, told_value};
use hwdb_query::Explained;
use hwdb_ruleasks::Found;
use hwdb_rules::Kinds;

/// What is asked of a property's value.
#[derive(Clone, Copy)]
pub(crate) enum Test {
    /// Whether it isn't empty.
    Set,
    /// Whether it is `1`.
    One,
}

/// Whether a value passes.
fn passes(test: Test, value: &[u8]) -> bool
    ensures { result ≡ test_of test value.now }
{
    match test {
        Test::Set => !value.is_empty(),
        Test::One => same(value, b"1"),
    }
}

/// Whether a property passes, after one more string.
fn flag_by(test: Test, key: &[u8], before: bool, told: &[Explained<'_>]) -> bool
    ensures { result ≡ option_map_or (test_of test)
        (Lookups.told_value key.now (explained_values told.now)) before }
{
    match told_value(told, key) {
        Some(value) => passes(test, value),
        None => before,
    }
}

/// Whether a property passes, after more strings.
#[tactic(auto, unfolding(hwdb_spec_commands::specs::Lookups::flag_after))]
fn flag_after(test: Test, key: &[u8], before: bool, found: &[Found<'_>]) -> bool
    ensures { result ≡ Lookups.flag_after (test_of test) key.now before (all_found found.now) }
{
    let Some((first, more)) = found.split_first() else {
        return before;
    };
    flag_after(test, key, flag_by(test, key, before, &first.told), more)
}

/// What kinds a device has, after more strings.
pub(crate) fn kinds_after(kinds: Kinds, found: &[Found<'_>]) -> Kinds
    ensures { kinds_of result ≡ Lookups.kinds_after (kinds_of kinds) (all_found found.now) }
{
    Kinds {
        mouse: flag_after(Test::Set, b"ID_INPUT_MOUSE", kinds.mouse, found),
        touchpad: flag_after(Test::Set, b"ID_INPUT_TOUCHPAD", kinds.touchpad, found),
        joystick: flag_after(Test::Set, b"ID_INPUT_JOYSTICK", kinds.joystick, found),
        accelerometer: flag_after(
            Test::One,
            b"ID_INPUT_ACCELEROMETER",
            kinds.accelerometer,
            found,
        ),
    }
}
