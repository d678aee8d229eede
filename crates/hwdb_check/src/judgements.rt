//! Patterns that match no text that udev asks.
ghost use Rattle.std.specs.Prelude.{◌≡◌, ◌++◌, List, ℕ, ◌∷◌, codes, drop, filter, if◌then◌else◌, map, take, IfOk, OnOk};
ghost use Rattle.std.specs.Option.{option_map};
ghost use Rattle.hwdb_spec_commands.specs.FormTable.{asked};
ghost use Rattle.hwdb_spec_commands.specs.LikelyForms.{likely};
ghost use Rattle.hwdb_spec.specs.Forms.{all_bytes_from, is_expected, judged};
ghost use Rattle.hwdb_spec_commands.specs.Mends.{likely_after, mend_hint, mended};
ghost use Rattle.hwdb_spec_commands.specs.Fields;
ghost use Rattle.hwdb_spec_commands.specs.Fixes;
ghost use Rattle.hwdb_spec_commands.specs.Reports.{shown};
ghost use Rattle.hwdb_spec_commands.specs.Unmatched;

use crate::fields::{meant_field, odd_field};
use crate::fragile::push_before;
use crate::mends::{front_of, has, likely_after, push_mend, rest_of};
use crate::runs::{push_compare, push_runs, runs_of};
use hwdb_forms::{Judged, expected, judge_both, likely_prefix};
use hwdb_properties::{before, is_known};
use hwdb_spec::Judgement;
use hwdb_text::{LONGEST_MATCH, begins_with};
use std::alloc::{AllocError, Global};

/// A front of more bytes isn't looked at for what could come after it (our choice).
const LONGEST_FRONT: usize = 256;

/// What is said of a clean text.
#[derive(Clone, Copy)]
pub struct Said {
    /// Whether it is a pattern that matches no text that udev asks.
    pub judgement: Judgement,
    /// Whether it is one that matches such a text, and none that udev likely asks.
    pub likelihood: Judgement,
}

/// What is said of a clean text that is no pattern, or one of which nothing is to say.
fn nothing_said() -> Said
    ensures judgement { result.judgement ≡ Judgement.Fine }
    ensures likelihood { result.likelihood ≡ Judgement.Fine }
{
    Said {
        judgement: Judgement::Fine,
        likelihood: Judgement::Fine,
    }
}

/// Whether a pattern matches no text that udev asks, or none that it likely asks, by what is said of it.
pub fn is_unmatched(judgement: Judgement) -> bool
    ensures { result ≡ Unmatched.is_unmatched judgement }
{
    !matches!(judgement, Judgement::Fine)
}

/// What is said of a place with what is nearly the name of a field.
fn field_judgement(place: Option<usize>) -> Judgement
    ensures { result ≡ Fields.field_judgement place }
{
    match place {
        None => Judgement::Fine,
        Some(at) => Judgement::Dead(at),
    }
}

/// What is said of a pattern, of whose form this is said.
fn with_fields(told: Judgement, clean: &[u8]) -> Judgement
    ensures { result ≡ Fields.with_fields told clean.now }
{
    match told {
        Judgement::Fine => field_judgement(odd_field(clean)),
        Judgement::UnknownPrefix => Judgement::UnknownPrefix,
        Judgement::Dead(place) => Judgement::Dead(place),
    }
}

/// What is said of a pattern's likelihood: nothing, if no text that udev asks matches it.
fn likelihood_of(judged: Judged, clean: &[u8]) -> Judgement
    ensures { result
        ≡ (if Unmatched.is_unmatched judged.asked then Judgement.Fine
        else Fields.with_fields judged.likely clean.now) }
{
    if is_unmatched(judged.asked) {
        Judgement::Fine
    } else {
        with_fields(judged.likely, clean)
    }
}

/// What is said of a pattern. The only error, here and below, is `AllocError`.
fn said_of_pattern(alloc: Global, clean: &[u8]) -> Result<Said, AllocError>
    ensures judgement { IfOk result (λ said. said.judgement ≡ judged asked clean.now) }
    ensures likelihood { IfOk result (λ said. said.likelihood
        ≡ (if Unmatched.is_unmatched (judged asked clean.now) then Judgement.Fine
        else Fields.with_fields (judged likely clean.now) clean.now)) }
{
    let judged = judge_both(alloc, clean)?;
    Ok(Said {
        judgement: judged.asked,
        likelihood: likelihood_of(judged, clean),
    })
}

/// What is said of a clean text, if it is a pattern.
#[tactic(auto, unfolding(hwdb_spec_commands::specs::Unmatched::judgement_of, hwdb_spec_commands::specs::Unmatched::likelihood_of))]
pub fn said_of(alloc: Global, clean: &[u8]) -> Result<Said, AllocError>
    ensures judgement { IfOk result
        (λ said. said.judgement ≡ Unmatched.judgement_of clean.now) }
    ensures likelihood { IfOk result
        (λ said. said.likelihood ≡ Unmatched.likelihood_of clean.now) }
{
    if clean.is_empty() {
        return Ok(nothing_said());
    }
    if begins_with(b' ', clean) {
        return Ok(nothing_said());
    }
    if begins_with(b'\t', clean) {
        return Ok(nothing_said());
    }
    if clean.len() > LONGEST_MATCH {
        return Ok(nothing_said());
    }
    let said = said_of_pattern(alloc, clean)?;
    Ok(said)
}

/// What is printed of a judgement.
pub fn judgement_text(judgement: Judgement) -> &'static str
    ensures { result.now ≡ Unmatched.judgement_text judgement }
{
    match judgement {
        Judgement::Fine => "",
        Judgement::UnknownPrefix => "no string that udev asks begins like this",
        Judgement::Dead(_) => "no string that udev asks goes on like this",
    }
}

/// After how many bytes of its line a judgement is.
pub fn judgement_place(judgement: Judgement) -> usize
    ensures { result ≡ Unmatched.judgement_place judgement }
{
    match judgement {
        Judgement::Fine | Judgement::UnknownPrefix => 0,
        Judgement::Dead(place) => place,
    }
}

/// Adds what to do about a pattern that goes wrong after this front, which isn't too long.
#[tactic(auto, unfolding(hwdb_spec_commands::specs::Unmatched::expected_after))]
fn push_expected(alloc: Global, text: &mut Vec<u8>, front: &[u8]) -> Result<(), AllocError>
    ensures { OnOk result (text.new.items ≡ text.old.items
        ++ Unmatched.runs_hint (Unmatched.runs (Unmatched.expected_after front.now))) }
{
    let bytes = expected(alloc, front)?;
    let runs = runs_of(alloc, &bytes)?;
    push_runs(text, &runs)
}

/// Adds what to do about a pattern that goes wrong after this front.
fn push_place_hint(alloc: Global, text: &mut Vec<u8>, front: &[u8]) -> Result<(), AllocError>
    ensures { OnOk result (text.new.items ≡ text.old.items ++ Unmatched.place_hint front.now) }
{
    if front.len() > LONGEST_FRONT {
        return push_runs(text, &[]);
    }
    push_expected(alloc, text, front)
}

/// The beginning that was likely meant by that of a pattern.
#[tactic(auto, unfolding(hwdb_spec_commands::specs::Unmatched::meant_prefix))]
fn meant_prefix(alloc: Global, pattern: &[u8]) -> Result<Option<&'static [u8]>, AllocError>
    ensures { IfOk result
        (λ found. option_map (λ p. p.now) found ≡ Unmatched.meant_prefix pattern.now) }
{
    likely_prefix(alloc, pattern)
}

/// Adds which beginning was likely meant.
fn push_meant(text: &mut Vec<u8>, prefix: &[u8]) -> Result<(), AllocError>
    ensures { OnOk result
        (text.new.items ≡ text.old.items ++ Unmatched.prefix_hint (Some prefix.now)) }
{
    text.extend_from_slice(b"did you mean ")?;
    text.extend_from_slice(prefix)?;
    text.push(b'?')?;
    Ok(())
}

/// Adds which beginning was likely meant, or how patterns begin.
fn push_prefix(text: &mut Vec<u8>, found: Option<&'static [u8]>) -> Result<(), AllocError>
    ensures { OnOk result (text.new.items
        ≡ text.old.items ++ Unmatched.prefix_hint (option_map (λ p. p.now) found.entry)) }
{
    match found {
        None => {
            let hint = "begin it as udev's strings do, with evdev: or mouse: or usb: and the like";
            text.extend_from_slice(hint.as_bytes())?;
        }
        Some(prefix) => push_meant(text, prefix)?,
    }
    Ok(())
}

/// Adds what to do about a pattern that begins as no text does.
fn push_prefix_hint(alloc: Global, text: &mut Vec<u8>, pattern: &[u8]) -> Result<(), AllocError>
    ensures { OnOk result (text.new.items
        ≡ text.old.items ++ Unmatched.prefix_hint (Unmatched.meant_prefix pattern.now)) }
{
    let found = meant_prefix(alloc, pattern)?;
    push_prefix(text, found)
}

/// Whether a match line is likely a property that begins in the first column.
fn is_like_property(text: &[u8]) -> bool
    ensures { result ≡ Unmatched.is_like_property text.now }
{
    has(b'=', text) && is_known(before(b'=', text))
}

/// Whether a pattern of a mouse has a vendor in place of its bus.
fn lacks_bus(pattern: &[u8]) -> bool
    ensures { result ≡ Unmatched.lacks_bus pattern.now }
{
    pattern.starts_with(b"mouse:v")
}

/// Adds which bus a pattern of a mouse lacks.
fn push_bus_hint(text: &mut Vec<u8>, pattern: &[u8]) -> Result<(), AllocError>
    ensures { OnOk result (text.new.items ≡ text.old.items
        ++ (codes "after mouse: comes usb:, bluetooth: or ps2:, as in mouse:usb:"
        ++ shown (drop 6 pattern.now))) }
{
    let words = "after mouse: comes usb:, bluetooth: or ps2:, as in mouse:usb:";
    push_before(text, words, rest_of(pattern, 6))
}

/// Adds what to do about a pattern that goes wrong at a place, if it isn't known how it was meant.
fn push_other_hint(
    alloc: Global,
    text: &mut Vec<u8>,
    pattern: &[u8],
    place: usize,
) -> Result<(), AllocError>
    ensures { OnOk result
        (text.new.items ≡ text.old.items ++ Unmatched.dead_hint pattern.now place) }
{
    if is_like_property(pattern) {
        return text.extend_from_slice(b"a property? begin it with a space");
    }
    if lacks_bus(pattern) {
        return push_bus_hint(text, pattern);
    }
    push_place_hint(alloc, text, front_of(pattern, place))
}

/// Adds what to do about a pattern that goes wrong at a place: it is written as it was likely meant, or the bytes are named that could be
/// there. `mend` is what was meant.
fn push_dead_hint(
    alloc: Global,
    text: &mut Vec<u8>,
    pattern: &[u8],
    place: usize,
    mend: &Option<Vec<u8>>,
) -> Result<(), AllocError>
    requires { option_map (λ t. t.items) mend.now ≡ mended pattern.now place }
    ensures { OnOk result (text.new.items ≡ text.old.items ++ mend_hint pattern.now place
        (Unmatched.dead_hint pattern.now place) (mended pattern.now place)) }
{
    match mend {
        Some(meant) => push_mend(text, pattern, place, meant),
        None => push_other_hint(alloc, text, pattern, place),
    }
}

/// Adds what to do about a pattern with this judgement. `mend` is what was meant.
pub fn push_judgement_hint(
    alloc: Global,
    text: &mut Vec<u8>,
    judgement: Judgement,
    pattern: &[u8],
    mend: &Option<Vec<u8>>,
) -> Result<(), AllocError>
    requires { option_map (λ t. t.items) mend.now ≡ Fixes.pattern_meant judgement pattern.now }
    ensures { OnOk result (text.new.items
        ≡ text.old.items ++ Unmatched.judgement_hint judgement pattern.now) }
{
    match judgement {
        Judgement::Fine => Ok(()),
        Judgement::UnknownPrefix => push_prefix_hint(alloc, text, pattern),
        Judgement::Dead(place) => push_dead_hint(alloc, text, pattern, place, mend),
    }
}

/// Adds what to do about a pattern that likely goes wrong after this front, which isn't too long.
fn push_likely(alloc: Global, text: &mut Vec<u8>, front: &[u8]) -> Result<(), AllocError>
    ensures { OnOk result (text.new.items ≡ text.old.items
        ++ Unmatched.runs_hint (Unmatched.runs (likely_after front.now))) }
{
    let bytes = likely_after(alloc, front)?;
    let runs = runs_of(alloc, &bytes)?;
    push_runs(text, &runs)
}

/// Adds what to do about a pattern that likely goes wrong after this front.
fn push_likely_place_hint(alloc: Global, text: &mut Vec<u8>, front: &[u8]) -> Result<(), AllocError>
    ensures { OnOk result
        (text.new.items ≡ text.old.items ++ Unmatched.likely_place_hint front.now) }
{
    if front.len() > LONGEST_FRONT {
        return push_compare(text);
    }
    push_likely(alloc, text, front)
}

/// Adds what to do about a pattern that likely goes wrong at a place: as `push_dead_hint`.
fn push_likely_hint(
    alloc: Global,
    text: &mut Vec<u8>,
    pattern: &[u8],
    place: usize,
    mend: &Option<Vec<u8>>,
) -> Result<(), AllocError>
    requires { option_map (λ t. t.items) mend.now ≡ mended pattern.now place }
    ensures { OnOk result (text.new.items ≡ text.old.items ++ mend_hint pattern.now place
        (Unmatched.likely_place_hint (take place pattern.now)) (mended pattern.now place)) }
{
    match mend {
        Some(meant) => push_mend(text, pattern, place, meant),
        None => push_likely_place_hint(alloc, text, front_of(pattern, place)),
    }
}

/// The name of a field that was likely meant at a place of a pattern; an empty text if none was.
fn field_at(pattern: &[u8], place: usize) -> &'static [u8]
    ensures { result.now ≡ Fields.meant_field (drop place pattern.now) }
{
    meant_field(rest_of(pattern, place))
}

/// Adds what to do about a pattern that likely goes wrong at a place: which field was likely meant there, or what to do without that.
fn push_unlikely_hint(
    alloc: Global,
    text: &mut Vec<u8>,
    pattern: &[u8],
    place: usize,
    mend: &Option<Vec<u8>>,
) -> Result<(), AllocError>
    requires { option_map (λ t. t.items) mend.now
        ≡ Fixes.likely_meant (Judgement.Dead place) pattern.now }
    ensures { OnOk result (text.new.items
        ≡ text.old.items ++ Unmatched.likelihood_hint (Judgement.Dead place) pattern.now) }
{
    let field = field_at(pattern, place);
    if !field.is_empty() {
        return push_meant(text, field);
    }
    push_likely_hint(alloc, text, pattern, place, mend)
}

/// Adds what to do about a pattern of which this is said. `mend` is what was meant.
pub fn push_likelihood_hint(
    alloc: Global,
    text: &mut Vec<u8>,
    likelihood: Judgement,
    pattern: &[u8],
    mend: &Option<Vec<u8>>,
) -> Result<(), AllocError>
    requires { option_map (λ t. t.items) mend.now ≡ Fixes.likely_meant likelihood pattern.now }
    ensures { OnOk result (text.new.items
        ≡ text.old.items ++ Unmatched.likelihood_hint likelihood pattern.now) }
{
    match likelihood {
        Judgement::Fine => Ok(()),
        Judgement::UnknownPrefix => push_compare(text),
        Judgement::Dead(place) => push_unlikely_hint(alloc, text, pattern, place, mend),
    }
}
