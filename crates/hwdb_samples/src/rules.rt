//! What the rules of one key give a device.
ghost use Rattle.std.specs.Prelude.{◌≡◌, map};
ghost use Rattle.hwdb_spec.specs.Answers;
ghost use Rattle.hwdb_spec.specs.Folders.{same};
ghost use Rattle.hwdb_spec_commands.specs.SamplesFound as spec;
ghost use Rattle.hwdb_spec_commands.specs.SampleRules;
ghost use Rattle.hwdb_samples.specs.Views.{rule_texts, value_of};

use hwdb_pattern::{glob, matches_is_tested};

/// A pattern, and the value that it gives to the key.
#[derive(Clone, Copy, Debug)]
pub struct Rule<'t> {
    /// The pattern.
    pub pattern: &'t [u8],
    /// The value.
    pub value: &'t [u8],
}

/// Whether a pattern matches a device.
pub(crate) fn is_match(device: &[u8], pattern: &[u8]) -> bool
    ensures { result ≡ Answers.is_match device.now pattern.now }
{
    matches_is_tested();
    glob(pattern, device)
}

/// Whether two texts are the same.
pub(crate) fn is_same(one: &[u8], other: &[u8]) -> bool
    ensures { result ≡ same one.now other.now }
{
    one == other
}

/// Whether two values are the same, or both are none.
pub(crate) fn same_value(one: Option<&[u8]>, other: Option<&[u8]>) -> bool
    ensures { result ≡ spec.same_value (value_of one.entry) (value_of other.entry) }
{
    match one {
        None => other.is_none(),
        Some(one) => match other {
            None => false,
            Some(other) => is_same(one, other),
        },
    }
}

/// Whether two rules are the same.
pub(crate) fn same_rule(one: &Rule<'_>, other: &Rule<'_>) -> bool
    ensures { result ≡ spec.same_rule (rule_texts one.now) (rule_texts other.now) }
{
    is_same(one.pattern, other.pattern) && is_same(one.value, other.value)
}

/// What a device has after a rule.
fn after_rule<'t>(device: &[u8], before: Option<&'t [u8]>, rule: &Rule<'t>) -> Option<&'t [u8]>
    ensures { value_of result
        ≡ SampleRules.after_rule device.now (value_of before.entry) (rule_texts rule.now) }
{
    if is_match(device, rule.pattern) {
        return Some(rule.value);
    }
    before
}

/// What the rules give a device: the value of the last one whose pattern matches.
pub fn given<'t>(device: &[u8], rules: &[Rule<'t>]) -> Option<&'t [u8]>
    ensures { value_of result ≡ SampleRules.given device.now (map rule_texts rules.now) }
{
    let mut found = None;
    for rule in rules {
        found = after_rule(device, found, rule);
    }
    found
}
