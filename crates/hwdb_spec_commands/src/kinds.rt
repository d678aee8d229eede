//! The names of kinds of warnings, as data.

/// The names of all kinds of warnings, a line each.
pub const KINDS: &str = "byte-order-mark
leading-tab
carriage-return
open-bracket
empty-range
spaced-equals
cut-value
repeated-match
replaced
near-name
old-name
scan-code
unknown-key
unfit-value
zero-row
singular-matrix
two-defaults
unread
unknown-property
unpaired
unknown-prefix
dead-pattern
unlikely-pattern
too-long-for-udev
fragile-pattern";

/// The names of the kinds of remarks on rules files, a line each.
pub const RULE_KINDS: &str = "taken-as-set
no-separator";
