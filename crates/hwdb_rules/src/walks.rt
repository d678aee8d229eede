//! Walks: the strings of a device and its parents, from it up.
ghost use Rattle.std.specs.Prelude.{◌≡◌, ◌++◌, ◌+◌, ◌<◌, ◌^◌, drop, false, true, if◌then◌else◌, length, map, option_map, IfOk, OnOk};
ghost use Rattle.hwdb_spec_commands.specs.Sysfs;
ghost use Rattle.hwdb_spec_commands.specs.Lookups;
ghost use Rattle.hwdb_spec_commands.specs.Lookups.{strings_from, upper, walk, when};
ghost use Rattle.hwdb_rules.specs.Views.{plans_of, questions_of, scene_of};
ghost use Rattle.hwdb_sysfs.specs.Views.{ancestor_of};
ghost use Rattle.hwdb_rules.specs.Internal.{usb_text_of};

use crate::ancestors::{attribute, attribute_text, is_in, is_usb_device, uevent_value};
use crate::plans::{Plan, Question, add_plan, add_question};
use crate::scene::Scene;
use crate::values::is_run;
use hwdb_sysfs::Ancestor;
use std::alloc::{AllocError, Global};

/// A digit in upper case.
fn upper_byte(byte: u8) -> u8
    ensures { result ≡ Lookups.upper_byte byte }
{
    if matches!(byte, b'a'..=b'z') {
        byte - 32
    } else {
        byte
    }
}

/// Adds digits in upper case. The only error, here and below, is `AllocError`.
pub(crate) fn push_upper(text: &mut Vec<u8>, digits: &[u8]) -> Result<(), AllocError>
    ensures { OnOk result (text.new.items ≡ text.old.items ++ upper digits.now) }
{
    for byte in digits {
        text.push(upper_byte(*byte))?;
    }
    Ok(())
}

/// The string that is made of a device on USB without MODALIAS.
fn usb_text(alloc: Global, vendor: &[u8], id: &[u8], product: &[u8]) -> Result<Vec<u8>, AllocError>
    ensures { IfOk result (λ t. t.items ≡ usb_text_of vendor.now id.now product.now) }
{
    let mut text = Vec::new(alloc);
    text.extend_from_slice(b"usb:v")?;
    push_upper(&mut text, vendor)?;
    text.push(b'p')?;
    push_upper(&mut text, id)?;
    text.push(b':')?;
    text.extend_from_slice(product)?;
    Ok(text)
}

/// The string that is made of a device, if it is on USB itself and tells its numbers.
///
/// # Errors
///
/// `AllocError` at any allocation that fails.
pub fn made_of(alloc: Global, ancestor: &Ancestor) -> Result<Option<Vec<u8>>, AllocError>
    ensures { IfOk result
        (λ t. option_map (λ v. v.items) t ≡ Lookups.made_of (ancestor_of ancestor.now)) }
{
    if !is_usb_device(ancestor) {
        return Ok(None);
    }
    let Some(vendor) = attribute(ancestor, b"idVendor") else {
        return Ok(None);
    };
    let Some(id) = attribute(ancestor, b"idProduct") else {
        return Ok(None);
    };
    let product = attribute_text(ancestor, b"product");
    Ok(Some(usb_text(alloc, vendor, id, product)?))
}

/// A copy of a text.
fn copied(alloc: Global, text: &[u8]) -> Result<Vec<u8>, AllocError>
    ensures { IfOk result (λ t. t.items ≡ text.now) }
{
    let mut copy = Vec::new(alloc);
    copy.extend_from_slice(text)?;
    Ok(copy)
}

/// The string of a device.
fn string_of(alloc: Global, ancestor: &Ancestor) -> Result<Option<Vec<u8>>, AllocError>
    ensures { IfOk result
        (λ t. option_map (λ v. v.items) t ≡ Lookups.string_of (ancestor_of ancestor.now)) }
{
    match uevent_value(ancestor, b"MODALIAS=") {
        Some(modalias) => Ok(Some(copied(alloc, modalias)?)),
        None => made_of(alloc, ancestor),
    }
}

/// Whether a walk looks at a device: it is in the subsystem, if one is given.
pub fn is_walked(ancestor: &Ancestor, subsystem: &[u8]) -> bool
    ensures { result ≡ Lookups.is_walked subsystem.now (ancestor_of ancestor.now) }
{
    subsystem.is_empty() || is_in(ancestor, subsystem)
}

/// A text after another.
fn joined(alloc: Global, before: &[u8], text: &[u8]) -> Result<Vec<u8>, AllocError>
    ensures { IfOk result (λ t. t.items ≡ before.now ++ text.now) }
{
    let mut whole = copied(alloc, before)?;
    whole.extend_from_slice(text)?;
    Ok(whole)
}

/// Whether a string is the last of a walk: it is on USB itself, or above what is.
fn is_last_string(is_last: bool, ancestor: &Ancestor) -> bool
    ensures { result ≡ if is_last then true else Sysfs.is_usb_device (ancestor_of ancestor.now) }
{
    is_last || is_usb_device(ancestor)
}

/// A walk from a parent on.
#[derive(Clone, Copy)]
struct ParentWalk<'w> {
    /// The subsystem of the devices that it looks at; empty for any.
    subsystem: &'w [u8],
    /// What comes before each string.
    prefix: &'w [u8],
    /// After how many others the parent comes.
    place: usize,
    /// Whether the next string is the last.
    is_last: bool,
}

/// Adds the strings of a walk. It calls itself once for each parent.
#[tactic(auto, using(crate::proofs::WalkLemmas::no_strings, crate::proofs::WalkLemmas::passed_by, crate::proofs::WalkLemmas::without_string, crate::proofs::WalkLemmas::last_string, crate::proofs::WalkLemmas::one_string))]
fn add_strings(
    alloc: Global,
    questions: &mut Vec<Question>,
    walk: ParentWalk<'_>,
    chain: &[Ancestor],
) -> Result<(), AllocError>
    requires { walk.place + length chain.now < 2 ^ 64 }
    ensures { OnOk result (questions_of questions.new.items ≡ questions_of questions.old.items
        ++ strings_from walk.entry.subsystem.now walk.entry.prefix.now walk.entry.place
        walk.entry.is_last (map ancestor_of chain.now)) }
{
    let Some((ancestor, more)) = chain.split_first() else {
        return Ok(());
    };
    let mut next = walk;
    next.place += 1;
    if !is_walked(ancestor, walk.subsystem) {
        return add_strings(alloc, questions, next, more);
    }
    next.is_last = is_last_string(walk.is_last, ancestor);
    let Some(text) = string_of(alloc, ancestor)? else {
        return add_strings(alloc, questions, next, more);
    };
    add_question(questions, walk.place, joined(alloc, walk.prefix, &text)?)?;
    if next.is_last {
        return Ok(());
    }
    add_strings(alloc, questions, next, more)
}

/// The strings of a device and its parents in a subsystem, or in any if its name is empty, with what comes before each. There are none if
/// udev doesn't run the walk.
///
/// # Errors
///
/// `AllocError` at any allocation that fails.
pub fn strings_of(
    alloc: Global,
    chain: &[Ancestor],
    subsystem: &[u8],
    prefix: &[u8],
) -> Result<Vec<Question>, AllocError>
    ensures { IfOk result (λ q. questions_of q.items
        ≡ when (Sysfs.is_run prefix.now)
        (strings_from subsystem.now prefix.now 0 false (map ancestor_of chain.now))) }
{
    if !is_run(prefix) {
        return Ok(Vec::new(alloc));
    }
    let walk = ParentWalk {
        subsystem,
        prefix,
        place: 0,
        is_last: false,
    };
    let mut questions = Vec::new(alloc);
    add_strings(alloc, &mut questions, walk, chain)?;
    Ok(questions)
}

/// Whose MODALIAS a walk asks, and after which prefix.
#[derive(Clone, Copy)]
pub struct Modaliases<'a> {
    /// The subsystem of the devices; none if each device counts.
    pub subsystem: &'a [u8],
    /// What is before a MODALIAS.
    pub prefix: &'a [u8],
}

/// Adds the strings of a device's parents, as a walk asks them after the device's own; `is_last` says that the next string is the last.
///
/// # Errors
///
/// `AllocError` at any allocation that fails.
pub fn add_parents(
    alloc: Global,
    questions: &mut Vec<Question>,
    of: Modaliases<'_>,
    is_last: bool,
    chain: &[Ancestor],
) -> Result<(), AllocError>
    ensures { OnOk result (questions_of questions.new.items ≡ questions_of questions.old.items
        ++ strings_from of.entry.subsystem.now of.entry.prefix.now 1 is_last
        (drop 1 (map ancestor_of chain.now))) }
{
    let Some((_, parents)) = chain.split_first() else {
        return Ok(());
    };
    let walk = ParentWalk {
        subsystem: of.subsystem,
        prefix: of.prefix,
        place: 1,
        is_last,
    };
    add_strings(alloc, questions, walk, parents)
}

/// Adds a walk.
pub(crate) fn add_walk(
    alloc: Global,
    plans: &mut Vec<Plan>,
    rule: &'static str,
    scene: &Scene<'_>,
    of: Modaliases<'_>,
) -> Result<(), AllocError>
    ensures { OnOk result (plans_of plans.new.items ≡ plans_of plans.old.items
        ++ walk rule.now of.entry.subsystem.now of.entry.prefix.now (scene_of scene.now)) }
{
    let strings = strings_of(alloc, scene.chain, of.subsystem, of.prefix)?;
    add_plan(plans, rule, strings)
}
