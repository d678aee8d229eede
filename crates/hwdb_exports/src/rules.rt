//! Which attributes a device of an export tells.
ghost use Rattle.std.specs.Prelude.{◌≡◌, IfOk, map, option_map};
ghost use Rattle.hwdb_spec_commands.specs.Exports as spec;
ghost use Rattle.hwdb_exports.specs.Views.{rule_of};

use crate::lines::{after_byte, before_byte, has_line, said_after};
use crate::values::read_as;
use std::alloc::{AllocError, Global};

/// A line of the table of attributes.
#[derive(Clone, Copy)]
pub(crate) struct Rule<'r> {
    /// The attribute's path below the folder of a device.
    pub name: &'r [u8],
    /// What the line of the export begins with that tells it.
    start: &'r [u8],
    /// The word for how that writes it.
    word: &'r [u8],
    /// A line that the device has to have; empty if there is none.
    needs: &'r [u8],
}

/// The rule of a line.
pub(crate) fn rule_of(line: &[u8]) -> Rule<'_>
    ensures { rule_of result ≡ spec.rule_of line.now }
{
    let second = after_byte(b',', line);
    let third = after_byte(b',', second);
    Rule {
        name: before_byte(b',', line),
        start: before_byte(b',', second),
        word: before_byte(b',', third),
        needs: after_byte(b',', third),
    }
}

/// Whether a device has what a rule needs.
fn applies(rule: &Rule<'_>, lines: &[&[u8]]) -> bool
    ensures { result ≡ spec.applies (rule_of rule.now) (map (λ l. l.now) lines.now) }
{
    if rule.needs.is_empty() {
        true
    } else {
        has_line(rule.needs, lines)
    }
}

/// What an attribute is by a rule; None if the device doesn't tell it.
pub(crate) fn told_by(
    alloc: Global,
    rule: &Rule<'_>,
    lines: &[&[u8]],
) -> Result<Option<Vec<u8>>, AllocError>
    ensures { IfOk result (λ found. option_map (λ v. v.items) found
        ≡ spec.told_by_rule (rule_of rule.now) (map (λ l. l.now) lines.now)) }
{
    if !applies(rule, lines) {
        return Ok(None);
    }
    match said_after(rule.start, lines) {
        Some(value) => Ok(Some(read_as(alloc, rule.word, lines, value)?)),
        None => Ok(None),
    }
}
