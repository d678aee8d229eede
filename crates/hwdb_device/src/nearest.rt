//! What is near to strings that get nothing.
ghost use Rattle.std.specs.Prelude.{◌≡◌, ◌++◌, ◌∷◌, [], IfOk, OnOk, filter, flat_map, map};
ghost use Rattle.hwdb_spec_commands.specs.DeviceTexts;
ghost use Rattle.hwdb_spec_commands.specs.NearAsked.{database_patterns};
ghost use Rattle.hwdb_spec_commands.specs.NearPrefixes.{prefix_report};
ghost use Rattle.hwdb_device.specs.Views.{all_found};
ghost use Rattle.hwdb_ruleasks.specs.Views.{found_of};

use hwdb_near::push_prefix_report;
use hwdb_reader::Db;
use hwdb_ruleasks::Found;
use std::alloc::{AllocError, Global};

/// Adds a string that gets nothing. The only error, here and below, is `AllocError`.
fn push_wanting<'f>(texts: &mut Vec<&'f [u8]>, found: &'f Found<'_>) -> Result<(), AllocError>
    ensures { OnOk result (map (λ t. t.now) texts.new.items ≡ map (λ t. t.now) texts.old.items
        ++ DeviceTexts.wanting (found_of found.now ∷ [])) }
{
    if found.told.is_empty() {
        texts.push(&found.text)?;
    }
    Ok(())
}

/// The strings that get nothing.
fn wanting<'f>(alloc: Global, found: &'f [Found<'_>]) -> Result<Vec<&'f [u8]>, AllocError>
    ensures { IfOk result (λ texts. map (λ t. t.now) texts.items
        ≡ DeviceTexts.wanting (all_found found.now)) }
{
    let mut texts: Vec<&'f [u8]> = Vec::new(alloc);
    for one in found {
        push_wanting(&mut texts, one)?;
    }
    Ok(texts)
}

/// For each prefix that people set properties at the report of the pattern of a database that is nearest to one of some texts, if there is
/// one.
fn prefix_reports(alloc: Global, db: &Db<'_>, texts: &[&[u8]]) -> Result<Vec<u8>, AllocError>
    ensures { IfOk result (λ reports. reports.items ≡ flat_map
        (prefix_report (database_patterns db.now) (map (λ t. t.now) texts.now))
        DeviceTexts.set_prefixes) }
{
    let mut reports = Vec::new(alloc);
    push_prefix_report(alloc, &mut reports, db, texts, b"evdev:")?;
    push_prefix_report(alloc, &mut reports, db, texts, b"sensor:")?;
    push_prefix_report(alloc, &mut reports, db, texts, b"mouse:")?;
    push_prefix_report(alloc, &mut reports, db, texts, b"touchpad:")?;
    push_prefix_report(alloc, &mut reports, db, texts, b"joystick:")?;
    Ok(reports)
}

/// Adds reports after a line that says what they are; nothing if there are none.
fn push_part(text: &mut Vec<u8>, reports: &[u8]) -> Result<(), AllocError>
    ensures { OnOk result
        (text.new.items ≡ text.old.items ++ DeviceTexts.nearest_part reports.now) }
{
    if reports.is_empty() {
        return Ok(());
    }
    text.extend_from_slice(b"nearest patterns to what got nothing:\n")?;
    text.extend_from_slice(reports)?;
    Ok(())
}

/// Adds for each such prefix the pattern that is nearest to a string that gets nothing, if there is one.
pub(crate) fn push_nearest(
    alloc: Global,
    text: &mut Vec<u8>,
    db: &Db<'_>,
    found: &[Found<'_>],
) -> Result<(), AllocError>
    ensures { OnOk result (text.new.items ≡ text.old.items
        ++ DeviceTexts.nearest_text (database_patterns db.now) (all_found found.now)) }
{
    let texts = wanting(alloc, found)?;
    let reports = prefix_reports(alloc, db, &texts)?;
    push_part(text, &reports)
}
