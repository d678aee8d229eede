//! `list`: the hits that a database has for a device.
ghost use Rattle.std.specs.Prelude.{◌≡◌, ◌≢◌, ◌⊎◌, List, IfOk, IfErr, OnOk, IsErrOf, false, option_map};
ghost use Rattle.hwdb_query.specs.Views.{next_position};
ghost use Rattle.hwdb_spec.specs.Flushing.{HandsOn};
ghost use Rattle.hwdb_answers.specs.Asked.{after_of, IsListOf};
ghost use Rattle.hwdb_spec_commands.specs.Asked.{IsFrom, IsListFrom};
ghost use Rattle.hwdb_spec.specs.Folders.{Source};
ghost use Rattle.hwdb_spec.specs.Outputs.{CutShortOne, TookOne};
ghost use Rattle.hwdb_spec.specs.Written.{IsCompiled};
ghost use Rattle.hwdb_answers.specs.Lookups.{IsLastList};
ghost use Rattle.hwdb_spec_commands.specs.Listings.{IsListBeginning, IsListRefusal, IsPositionRefusal};

use crate::hit_lines::print_hits;
use hwdb_io::Sink;
use hwdb_query::{Position, compiled_answers_are_last, paged_cursor};
use hwdb_reader::check;
use hwdb_spec::ToolError;
use std::alloc::Global;

/// How many hits are held at most.
const PAGE: usize = 64;

/// The hits that are asked for.
#[derive(Clone, Copy)]
pub struct ListAsked<'a> {
    /// The device.
    pub device: &'a [u8],
    /// The text of a position. The hits begin after it, or without it with the first one.
    pub after: Option<&'a str>,
    /// How many at most.
    pub limit: Option<u64>,
    /// Whether as JSON.
    pub json: bool,
}

/// The position that a text spells, if there is a text.
pub(crate) fn position_of(alloc: Global, after: Option<&str>) -> Result<Option<Position>, ToolError>
    ensures spelled { IfOk result
        (λ p. IsFrom (option_map (λ t. t.now) after.entry) (next_position p)) }
    ensures refusals { IfErr result (IsPositionRefusal (option_map (λ t. t.now) after.entry)) }
{
    match after {
        Some(text) => Ok(Some(Position::read(alloc, text)?)),
        None => Ok(None),
    }
}

/// Prints a line for each of the hits that are asked for, as text or as JSON. At most a page of 64 hits is held. Over the
/// database of some files the hits are exactly the last assignments of each pattern and key that the files have.
pub fn print_list<O: Sink>(
    alloc: Global,
    bytes: &[u8],
    asked: ListAsked<'_>,
    out: &mut O,
) -> Result<(), ToolError>
    ensures printed { OnOk result (TookOne (IsListOf asked.entry bytes.now)
        (O.taken out.old) (O.taken out.new) (O.failures out.old) (O.failures out.new)) }
    ensures headline { OnOk result ((etc usr : List Source) → IsCompiled etc usr bytes.now
        → TookOne (IsLastList asked.entry.json asked.entry.device.now (after_of asked.entry)
        asked.entry.limit etc usr)
        (O.taken out.old) (O.taken out.new) (O.failures out.old) (O.failures out.new)) }

    ensures refusals { IfErr result (IsListRefusal (after_of asked.entry) bytes.now) }
    ensures cut_short { IsErrOf result ToolError.Write
        → CutShortOne (IsListOf asked.entry bytes.now)
        (O.taken out.old) (O.taken out.new) (O.failures out.old) (O.failures out.new) }
    ensures whole_lines { IsErrOf result ToolError.Memory → (out.new ≡ out.old)
        ⊎ TookOne (IsListBeginning asked.entry.json asked.entry.device.now (after_of asked.entry)
        asked.entry.limit bytes.now)
        (O.taken out.old) (O.taken out.new) (O.failures out.old) (O.failures out.new) }
    ensures untouched { IfErr result
        (λ e. e ≢ ToolError.Write → e ≢ ToolError.Memory → out.new ≡ out.old) }
    ensures hands_on { HandsOn (O.is_flushed out.old) (O.is_flushed out.new)
        (O.failures out.old) (O.failures out.new) }
{
    compiled_answers_are_last();
    let after = position_of(alloc, asked.after)?;
    let db = check(bytes)?;
    let mut hits = paged_cursor(alloc, &db, asked.device, after.as_ref(), PAGE)?;
    print_hits(alloc, &mut hits, asked.limit, asked.json, out)
}

/// Prints the hits as `print_list` does, as text.
pub fn run_list<O: Sink>(
    alloc: Global,
    bytes: &[u8],
    device: &[u8],
    after: Option<&str>,
    limit: Option<u64>,
    out: &mut O,
) -> Result<(), ToolError>
    ensures printed { let from = option_map (λ t. t.now) after.entry in
        OnOk result (TookOne (IsListFrom false device.now from limit bytes.now)
        (O.taken out.old) (O.taken out.new) (O.failures out.old) (O.failures out.new)) }
    ensures headline { let from = option_map (λ t. t.now) after.entry in
        OnOk result ((etc usr : List Source) → IsCompiled etc usr bytes.now
        → TookOne (IsLastList false device.now from limit etc usr)
        (O.taken out.old) (O.taken out.new) (O.failures out.old) (O.failures out.new)) }

    ensures refusals { IfErr result
        (IsListRefusal (option_map (λ t. t.now) after.entry) bytes.now) }
    ensures cut_short { let from = option_map (λ t. t.now) after.entry in
        IsErrOf result ToolError.Write
        → CutShortOne (IsListFrom false device.now from limit bytes.now)
        (O.taken out.old) (O.taken out.new) (O.failures out.old) (O.failures out.new) }
    ensures whole_lines { let from = option_map (λ t. t.now) after.entry in
        IsErrOf result ToolError.Memory → (out.new ≡ out.old)
        ⊎ TookOne (IsListBeginning false device.now from limit bytes.now)
        (O.taken out.old) (O.taken out.new) (O.failures out.old) (O.failures out.new) }
    ensures untouched { IfErr result
        (λ e. e ≢ ToolError.Write → e ≢ ToolError.Memory → out.new ≡ out.old) }
    ensures hands_on { HandsOn (O.is_flushed out.old) (O.is_flushed out.new)
        (O.failures out.old) (O.failures out.new) }
{
    let asked = ListAsked {
        device,
        after,
        limit,
        json: false,
    };
    print_list(alloc, bytes, asked, out)
}
