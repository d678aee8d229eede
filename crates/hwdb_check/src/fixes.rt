//! Lines as they were likely meant, of which a warning is told.
ghost use Rattle.std.specs.Prelude.{◌≡◌, ◌++◌, Option, IfOk, drop};
ghost use Rattle.std.specs.Option.{option_map};
ghost use Rattle.hwdb_spec_commands.specs.Fixes;
ghost use Rattle.hwdb_spec_commands.specs.Findings;
ghost use Rattle.hwdb_check.specs.Internal.{line_of};
ghost use Rattle.hwdb_check.specs.Mending;

use crate::fields::meant_field;
use crate::line_warnings::Read;
use crate::mends::{front_of, mended, rest_of};
use crate::misuses::{key_of, value_of};
use hwdb_properties::{meant_value, push_meant_key, push_meant_name};
use hwdb_spec::Judgement;
use hwdb_spec_commands::{Format, Misuse, WarningKind};
use hwdb_text::{indent_of, trim, unindented};
use std::alloc::{AllocError, Global};

/// A clean property with another name and another value. The only error, here and below, is `AllocError`.
fn property_with(
    alloc: Global,
    clean: &[u8],
    name: &[u8],
    value: &[u8],
) -> Result<Vec<u8>, AllocError>
    ensures { IfOk result (λ line. line.items
        ≡ Fixes.property_with (line_of 0 clean.now) name.now value.now) }
{
    let mut line = Vec::new(alloc);
    line.extend_from_slice(front_of(clean, indent_of(clean)))?;
    line.extend_from_slice(name)?;
    line.push(b'=')?;
    line.extend_from_slice(value)?;
    Ok(line)
}

/// The same, if a text is sure.
fn if_sure(
    alloc: Global,
    sure: &[u8],
    clean: &[u8],
    name: &[u8],
    value: &[u8],
) -> Result<Option<Vec<u8>>, AllocError>
    ensures { IfOk result (λ found. option_map (λ t. t.items) found ≡ Fixes.if_sure sure.now
        (Fixes.property_with (line_of 0 clean.now) name.now value.now)) }
{
    if sure.is_empty() {
        return Ok(None);
    }
    Ok(Some(property_with(alloc, clean, name, value)?))
}

/// A clean property without the blanks beside its `=`.
fn unspaced(alloc: Global, clean: &[u8]) -> Result<Option<Vec<u8>>, AllocError>
    ensures { IfOk result (λ found. option_map (λ t. t.items) found
        ≡ Fixes.meant WarningKind.SpacedEquals (line_of 0 clean.now)) }
{
    let name = trim(key_of(clean));
    if_sure(alloc, name, clean, name, unindented(value_of(clean)))
}

/// A clean property with a code that its name takes.
fn renamed(alloc: Global, clean: &[u8]) -> Result<Option<Vec<u8>>, AllocError>
    ensures { IfOk result (λ found. option_map (λ t. t.items) found
        ≡ Fixes.meant (WarningKind.Misused Misuse.ScanCode) (line_of 0 clean.now)) }
{
    let mut name = Vec::new(alloc);
    push_meant_name(&mut name, key_of(clean))?;
    if_sure(alloc, &name, clean, &name, value_of(clean))
}

/// A clean property with the name of a key.
fn rekeyed(alloc: Global, clean: &[u8]) -> Result<Option<Vec<u8>>, AllocError>
    ensures { IfOk result (λ found. option_map (λ t. t.items) found
        ≡ Fixes.meant (WarningKind.Misused Misuse.UnknownKey) (line_of 0 clean.now)) }
{
    let mut value = Vec::new(alloc);
    push_meant_key(alloc, &mut value, value_of(clean))?;
    if_sure(alloc, &value, clean, key_of(clean), &value)
}

/// A clean property with a value that it takes.
fn revalued(alloc: Global, clean: &[u8]) -> Result<Option<Vec<u8>>, AllocError>
    ensures { IfOk result (λ found. option_map (λ t. t.items) found
        ≡ Fixes.meant (WarningKind.Misused Misuse.UnfitValue) (line_of 0 clean.now)) }
{
    let name = key_of(clean);
    let value = meant_value(name, value_of(clean));
    if_sure(alloc, value, clean, name, value)
}

/// A clean property that doesn't fit, as it was likely meant.
fn property_meant(
    alloc: Global,
    misuse: Misuse,
    clean: &[u8],
) -> Result<Option<Vec<u8>>, AllocError>
    ensures { IfOk result (λ found. option_map (λ t. t.items) found
        ≡ Fixes.meant (WarningKind.Misused misuse) (line_of 0 clean.now)) }
{
    match misuse {
        Misuse::ScanCode => renamed(alloc, clean),
        Misuse::UnknownKey => rekeyed(alloc, clean),
        Misuse::UnfitValue => revalued(alloc, clean),
        Misuse::NearName
        | Misuse::OldName
        | Misuse::ZeroRow
        | Misuse::SingularMatrix
        | Misuse::TwoDefaults => Ok(None),
    }
}

/// A pattern that matches no string of udev, as it was likely meant.
fn pattern_meant(
    alloc: Global,
    told: Judgement,
    pattern: &[u8],
) -> Result<Option<Vec<u8>>, AllocError>
    ensures { IfOk result (λ found. option_map (λ t. t.items) found
        ≡ Fixes.pattern_meant told pattern.now) }
{
    match told {
        Judgement::Fine | Judgement::UnknownPrefix => Ok(None),
        Judgement::Dead(place) => mended(alloc, pattern, place),
    }
}

/// A pattern that goes wrong at a place, unless it has what is nearly the name of a field there.
fn mended_if(
    alloc: Global,
    field: &[u8],
    pattern: &[u8],
    place: usize,
) -> Result<Option<Vec<u8>>, AllocError>
    ensures { IfOk result (λ found. option_map (λ t. t.items) found
        ≡ Fixes.mended_if field.now pattern.now place) }
{
    if field.is_empty() {
        return mended(alloc, pattern, place);
    }
    Ok(None)
}

/// A pattern that matches none that udev likely asks, as it was likely meant.
fn likely_meant(
    alloc: Global,
    told: Judgement,
    pattern: &[u8],
) -> Result<Option<Vec<u8>>, AllocError>
    ensures { IfOk result (λ found. option_map (λ t. t.items) found
        ≡ Fixes.likely_meant told pattern.now) }
{
    match told {
        Judgement::Fine | Judgement::UnknownPrefix => Ok(None),
        Judgement::Dead(place) => {
            mended_if(alloc, meant_field(rest_of(pattern, place)), pattern, place)
        }
    }
}

/// A pattern as it was likely meant, of which a warning is told; nothing for other warnings.
pub fn pattern_mend(
    alloc: Global,
    kind: WarningKind,
    pattern: &[u8],
) -> Result<Option<Vec<u8>>, AllocError>
    ensures { IfOk result
        (λ found. option_map (λ t. t.items) found ≡ Mending.pattern_mend kind pattern.now) }
{
    match kind {
        WarningKind::Unmatched(told) => pattern_meant(alloc, told, pattern),
        WarningKind::Unlikely(told) => likely_meant(alloc, told, pattern),
        _ => Ok(None),
    }
}

/// A clean line, as it was likely meant. `mend` is the pattern that was.
fn meant(
    alloc: Global,
    kind: WarningKind,
    clean: &[u8],
    mend: Option<Vec<u8>>,
) -> Result<Option<Vec<u8>>, AllocError>
    requires { option_map (λ t. t.items) mend ≡ Mending.pattern_mend kind clean.now }
    ensures { IfOk result (λ found. option_map (λ t. t.items) found
        ≡ Fixes.meant kind (line_of 0 clean.now)) }
{
    match kind {
        WarningKind::SpacedEquals => unspaced(alloc, clean),
        WarningKind::Misused(misuse) => property_meant(alloc, misuse, clean),
        WarningKind::Unmatched(_) => Ok(mend),
        WarningKind::Unlikely(_) => Ok(mend),
        _ => Ok(None),
    }
}

/// A line as it was likely meant, with what comes in it after its clean text.
fn whole(meant: Option<Vec<u8>>, source: &[u8], size: usize) -> Result<Option<Vec<u8>>, AllocError>
    ensures { IfOk result (λ found. option_map (λ t. t.items) found
        ≡ option_map (λ text. text ++ drop size source.now) (option_map (λ t. t.items) meant)) }
{
    let Some(text) = meant else {
        return Ok(None);
    };
    let mut line = text;
    line.extend_from_slice(rest_of(source, size))?;
    Ok(Some(line))
}

/// A line that is read, as it was likely meant. `mend` is the pattern that was.
fn fix(
    alloc: Global,
    kind: WarningKind,
    line: &Read<'_>,
    mend: Option<Vec<u8>>,
) -> Result<Option<Vec<u8>>, AllocError>
    requires { option_map (λ t. t.items) mend ≡ Mending.pattern_mend kind line.now.clean.now }
    ensures { IfOk result (λ found. option_map (λ t. t.items) found
        ≡ Fixes.fix kind (line_of 0 line.now.clean.now) line.now.text.now) }
{
    let text = meant(alloc, kind, line.clean, mend)?;
    whole(text, line.text, line.clean.len())
}

/// The same for a format that has it; nothing for any other.
pub fn fix_for(
    alloc: Global,
    format: Format,
    kind: WarningKind,
    line: &Read<'_>,
    mend: Option<Vec<u8>>,
) -> Result<Option<Vec<u8>>, AllocError>
    requires { option_map (λ t. t.items) mend ≡ Mending.pattern_mend kind line.now.clean.now }
    ensures { IfOk result (λ found. option_map (λ t. t.items) found
        ≡ Findings.fix_for format kind (line_of 0 line.now.clean.now) line.now.text.now) }
{
    match format {
        Format::Json | Format::Sarif => fix(alloc, kind, line, mend),
        Format::Text | Format::Github | Format::Patch => Ok(None),
    }
}
