//! Strings are asked, as udev's rules ask them.
ghost use Rattle.std.specs.Prelude.{◌≡◌, IfOk};
ghost use Rattle.hwdb_spec_commands.specs.DeviceFound.{is_asked};
ghost use Rattle.hwdb_spec_commands.specs.Inputs.{no_kinds};
ghost use Rattle.hwdb_spec_commands.specs.Lookups;
ghost use Rattle.hwdb_rules.specs.Views.{kinds_of, plans_of, scene_of};
ghost use Rattle.hwdb_sysfs.specs.Views.{device_of};
ghost use Rattle.hwdb_device.specs.Views.{all_found};
ghost use Rattle.hwdb_ruleasks.specs.Views.{tells_of};

use crate::kinds::kinds_after;
use hwdb_reader::Db;
use hwdb_ruleasks::{Found, ask_questions};
use hwdb_rules::{
    Kinds, Plan, Scene, early_rules, input_id_rules, kinds_seen, late_rules, machine_text,
    middle_rules,
};
use hwdb_sysfs::Device;
use std::alloc::{AllocError, Global};

/// Asks what rules files ask, one after another. The only error, here and below, is `AllocError`.
fn ask_all<'a>(
    alloc: Global,
    db: Option<&Db<'a>>,
    plans: &[Plan],
) -> Result<Vec<Found<'a>>, AllocError>
    ensures { IfOk result (λ found.
        all_found found.items ≡ Lookups.all_asked (tells_of db.entry) (plans_of plans.now)) }
{
    let mut found = Vec::new(alloc);
    for plan in plans {
        ask_questions(alloc, db, &mut found, plan.rule.as_bytes(), &plan.questions)?;
    }
    Ok(found)
}

/// The kinds of a device of which nothing is known.
fn no_kinds() -> Kinds
    ensures { kinds_of result ≡ no_kinds }
{
    Kinds {
        mouse: false,
        touchpad: false,
        joystick: false,
        accelerometer: false,
    }
}

/// Asks what all rules ask, in their order: which strings some ask depends on what those before got.
fn found_in<'a>(
    alloc: Global,
    db: Option<&Db<'a>>,
    scene: &Scene<'_>,
) -> Result<Vec<Found<'a>>, AllocError>
    ensures { IfOk result (λ found.
        all_found found.items ≡ Lookups.found_in (tells_of db.entry) (scene_of scene.now)) }
{
    let mut found = ask_all(alloc, db, &early_rules(alloc, scene)?)?;
    let mut inputs = ask_all(alloc, db, &input_id_rules(alloc, scene)?)?;
    let seen = kinds_seen(alloc, kinds_after(no_kinds(), &found), scene)?;
    let kinds = kinds_after(seen, &inputs);
    let mut middle = ask_all(alloc, db, &middle_rules(alloc, scene, kinds)?)?;
    let last_kinds = kinds_after(kinds, &middle);
    let mut late = ask_all(alloc, db, &late_rules(alloc, scene, last_kinds)?)?;
    found.append(&mut inputs)?;
    found.append(&mut middle)?;
    found.append(&mut late)?;
    Ok(found)
}

/// The strings that udev asks for a device, in their order, and what each gets of a database; nothing without one.
pub(crate) fn lookups<'a>(
    alloc: Global,
    db: Option<&Db<'a>>,
    device: &Device,
) -> Result<Vec<Found<'a>>, AllocError>
    ensures { IfOk result (λ found.
        all_found found.items ≡ Lookups.lookups (tells_of db.entry) (device_of device.now)) }
{
    let Some((own, _parents)) = device.chain.split_first() else {
        return Ok(Vec::new(alloc));
    };
    let machine = machine_text(alloc, device)?;
    let scene = Scene {
        own,
        chain: &device.chain,
        machine: &machine,
    };
    found_in(alloc, db, &scene)
}

/// Whether udev asks something for a device.
pub(crate) fn is_asked(alloc: Global, device: &Device) -> Result<bool, AllocError>
    ensures { IfOk result (λ is. is ≡ is_asked (device_of device.now)) }
{
    let found = lookups(alloc, None, device)?;
    Ok(!found.is_empty())
}
