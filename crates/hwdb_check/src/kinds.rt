//! The names of faults and warnings, and which warnings are told.
ghost use Rattle.std.specs.Prelude.{◌≡◌, flat_map};
ghost use Rattle.std.specs.List.{list_any};
ghost use Rattle.hwdb_spec.specs.Folders;
ghost use Rattle.hwdb_spec_commands.specs.Kinds;
ghost use Rattle.hwdb_spec_commands.specs.AllowedKinds.{names_in};
ghost use Rattle.hwdb_check.specs.Internal.{texts};

use crate::allowed::is_in;
use hwdb_spec::{FaultKind, Judgement};
use hwdb_spec_commands::{Format, Misuse, WarningKind};

/// How findings are told.
#[derive(Clone, Copy)]
pub struct Telling<'a> {
    /// In which format.
    pub format: Format,
    /// The names of the kinds of warnings that aren't told.
    pub allowed: &'a [String],
    /// The findings that a baseline has, as `marks_in` gives them.
    pub known: &'a [Vec<u8>],
    /// The path that findings of standard input have, if it isn't `-`.
    pub name: Option<&'a str>,
}

/// How the findings of a line are told.
#[derive(Clone, Copy)]
pub struct Manner<'a> {
    /// In which format.
    pub format: Format,
    /// The names of the kinds of warnings that aren't told there, with commas between those of a text.
    pub allowed: &'a [&'a [u8]],
}

/// The name of a kind of fault.
pub fn fault_name(kind: FaultKind) -> &'static str
    ensures { result.now ≡ Kinds.fault_name kind }
{
    match kind {
        FaultKind::StrayProperty => "stray-property",
        FaultKind::NoProperty => "no-property",
        FaultKind::StrayMatch => "stray-match",
        FaultKind::NoEquals => "no-equals",
        FaultKind::EmptyKey => "empty-key",
        FaultKind::ZeroByte => "zero-byte",
        FaultKind::LongMatch => "long-match",
    }
}

/// The name of a misuse of a property.
fn misuse_name(misuse: Misuse) -> &'static str
    ensures { result.now ≡ Kinds.misuse_name misuse }
{
    match misuse {
        Misuse::NearName => "near-name",
        Misuse::OldName => "old-name",
        Misuse::ScanCode => "scan-code",
        Misuse::UnknownKey => "unknown-key",
        Misuse::UnfitValue => "unfit-value",
        Misuse::ZeroRow => "zero-row",
        Misuse::SingularMatrix => "singular-matrix",
        Misuse::TwoDefaults => "two-defaults",
    }
}

/// The name of what is said of a pattern; a fine one has none.
fn judgement_name(judgement: Judgement) -> &'static str
    ensures { result.now ≡ Kinds.judgement_name judgement }
{
    match judgement {
        Judgement::Fine => "",
        Judgement::UnknownPrefix => "unknown-prefix",
        Judgement::Dead(_) => "dead-pattern",
    }
}

/// The name of a kind of warning.
pub fn warning_name(kind: WarningKind) -> &'static str
    ensures { result.now ≡ Kinds.warning_name kind }
{
    match kind {
        WarningKind::ByteOrderMark => "byte-order-mark",
        WarningKind::LeadingTab => "leading-tab",
        WarningKind::CarriageReturn => "carriage-return",
        WarningKind::OpenBracket => "open-bracket",
        WarningKind::EmptyRange => "empty-range",
        WarningKind::SpacedEquals => "spaced-equals",
        WarningKind::CutValue => "cut-value",
        WarningKind::RepeatedMatch => "repeated-match",
        WarningKind::Replaced(_) => "replaced",
        WarningKind::Misused(misuse) => misuse_name(misuse),
        WarningKind::Unread(true) => "unread",
        WarningKind::Unread(false) => "unknown-property",
        WarningKind::Unpaired => "unpaired",
        WarningKind::Unmatched(judgement) => judgement_name(judgement),
        WarningKind::Unlikely(_) => "unlikely-pattern",
        WarningKind::TooLongForUdev | WarningKind::MayBeTooDeep => "too-long-for-udev",
        WarningKind::Fragile => "fragile-pattern",
    }
}

/// Whether a name is one of those in some texts.
pub fn is_among(name: &[u8], names: &[&[u8]]) -> bool
    ensures { result
        ≡ list_any (λ text. list_any (Folders.same name.now) (names_in text)) (texts names.now) }
{
    for text in names {
        if is_in(name, text) {
            return true;
        }
    }
    false
}

/// Whether a warning is told.
pub fn is_told(allowed: &[&[u8]], kind: WarningKind) -> bool
    ensures { result ≡ Kinds.is_told (flat_map names_in (texts allowed.now)) kind }
{
    !is_among(warning_name(kind).as_bytes(), allowed)
}
