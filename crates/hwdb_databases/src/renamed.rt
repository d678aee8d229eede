//! Changes by record: each pattern once, with a line for each change below it. A record whose patterns alone changed is told as that.
ghost use Rattle.std.specs.Prelude.{◌≡◌, ◌≤◌, ◌++◌, if◌then◌else◌, flat_map, length, map, option_map, IfOk, OnOk, List, false, true};
ghost use Rattle.hwdb_spec.specs.Texts.{place_text};
ghost use Rattle.hwdb_spec_commands.specs.Renamed as spec;
ghost use Rattle.hwdb_spec_commands.specs.Renamed.{Group as Told, groups};
ghost use Rattle.hwdb_databases.specs.Internal.Renaming.{IsCameNoted, IsOf, IsWentNoted, at, first_pattern, group_in, group_shown, is_other, run_in, shown};
ghost use Rattle.hwdb_databases.specs.Views.{assignment_of, change_shown};

use crate::device_lines::{push_all, push_heading, push_marked, push_told};
use crate::groups::{Group, group_of};
use crate::json_changes::pattern_of;
use crate::pairs::Pair;
use crate::texts::is_same;
use hwdb_query::StoredAssignment;
use hwdb_show::push_name;
use itoa::Buffer;
use std::alloc::{AllocError, Global};
use std::collections::BTreeMap;

/// Whether a change has another pattern.
fn is_other(pattern: &[u8], change: Pair<'_, '_>) -> bool
    ensures { result ≡ is_other pattern.now (change_shown change.entry) }
{
    !is_same(pattern, pattern_of(change))
}

/// How many of the first changes have a pattern.
fn run_len(pattern: &[u8], changes: &[Pair<'_, '_>]) -> usize
    ensures value { result ≡ run_in pattern.now changes.now }
    ensures within { result ≤ length changes.now }
{
    let mut n = 0;
    while n < changes.len() && !is_other(pattern, changes[n]) {
        n += 1;
    }
    n
}

/// Changes by pattern.
pub(crate) fn groups_of<'g, 'r, 'a>(
    alloc: Global,
    changes: &'g [Pair<'r, 'a>],
) -> Result<Vec<Group<'g, 'r, 'a>>, AllocError>
    ensures { IfOk result (λ all. map shown all.items ≡ groups (map change_shown changes.now)) }
{
    let mut all = Vec::new(alloc);
    let mut from = 0;
    while from < changes.len() {
        let end = from + 1 + run_len(pattern_of(changes[from]), &changes[from + 1..]);
        let group = group_of(alloc, &changes[from..end])?;
        all.push(group)?;
        from = end;
    }
    Ok(all)
}

/// What is known of some properties: the changes of the first pattern that came with them, and whether one went with them.
#[derive(Clone, Copy)]
pub(crate) struct Moved<'g, 'r, 'a> {
    pub came: Option<&'g [Pair<'r, 'a>]>,
    pub went: bool,
}

/// By the properties.
type Moves<'t, 'g, 'r, 'a> = BTreeMap<&'t [u8], Moved<'g, 'r, 'a>>;

/// What is known of these properties.
fn moved_at<'g, 'r, 'a>(moves: &Moves<'_, 'g, 'r, 'a>, text: &[u8]) -> Moved<'g, 'r, 'a>
    ensures { group_shown result ≡ at moves.now text.now }
{
    match moves.get(text) {
        Some(moved) => *moved,
        None => Moved {
            came: None,
            went: false,
        },
    }
}

/// Notes a pattern that came with some properties before those that were noted.
fn note_came<'t, 'g, 'r, 'a>(
    moves: &mut Moves<'t, 'g, 'r, 'a>,
    group: &'t Group<'g, 'r, 'a>,
) -> Result<(), AllocError>
    ensures { OnOk result (IsCameNoted moves.old (shown group.now) moves.new) }
{
    let Some(text) = &group.came else {
        return Ok(());
    };
    let before = moved_at(moves, text.as_slice());
    let now = Moved {
        came: Some(group.changes),
        went: before.went,
    };
    moves.insert(text.as_slice(), now)?;
    Ok(())
}

/// Notes a pattern that went with some properties.
fn note_went<'t, 'g, 'r, 'a>(
    moves: &mut Moves<'t, 'g, 'r, 'a>,
    group: &'t Group<'g, 'r, 'a>,
) -> Result<(), AllocError>
    ensures { OnOk result (IsWentNoted moves.old (shown group.now) moves.new) }
{
    let Some(text) = &group.went else {
        return Ok(());
    };
    let before = moved_at(moves, text.as_slice());
    let now = Moved {
        came: before.came,
        went: true,
    };
    moves.insert(text.as_slice(), now)?;
    Ok(())
}

/// What is known of the properties of some patterns. The last pattern is noted first.
fn moves_of<'t, 'g, 'r, 'a>(
    alloc: Global,
    groups: &'t [Group<'g, 'r, 'a>],
) -> Result<Moves<'t, 'g, 'r, 'a>, AllocError>
    ensures { IfOk result (λ moves. IsOf moves (map shown groups.now)) }
{
    let mut moves = BTreeMap::new(alloc);
    let mut left = groups.len();
    while left > 0 {
        left -= 1;
        let group = &groups[left];
        note_came(&mut moves, group)?;
        note_went(&mut moves, group)?;
    }
    Ok(moves)
}

/// The pattern of some changes.
pub(crate) fn pattern_in<'r>(changes: &[Pair<'r, '_>]) -> &'r [u8]
    ensures { result.now ≡ first_pattern (map change_shown changes.now) }
{
    match changes.split_first() {
        Some((first, _)) => pattern_of(*first),
        None => b"",
    }
}

/// Adds where an assignment is.
pub(crate) fn push_place(text: &mut Vec<u8>, f: &StoredAssignment<'_>) -> Result<(), AllocError>
    ensures { OnOk result (text.new.items ≡ text.old.items
        ++ place_text (assignment_of f.now).path (assignment_of f.now).position.line) }
{
    let mut number = Buffer::new();
    push_name(text, f.path)?;
    text.push(b':')?;
    text.extend_from_slice(number.format(f.line).as_bytes())?;
    Ok(())
}

/// Adds where the first of some changes that came is.
fn push_first_place(text: &mut Vec<u8>, changes: &[Pair<'_, '_>]) -> Result<(), AllocError>
    ensures { OnOk result
        (text.new.items ≡ text.old.items ++ spec.first_place (map change_shown changes.now)) }
{
    match changes.split_first() {
        Some((Pair::New(new), _)) => push_place(text, new),
        _ => Ok(()),
    }
}

/// Adds the pattern that came for another one, and its place.
fn push_new_line(text: &mut Vec<u8>, new: &[Pair<'_, '_>]) -> Result<(), AllocError>
    ensures { OnOk result (text.new.items ≡ text.old.items
        ++ spec.new_line (group_in (map change_shown new.now))) }
{
    text.extend_from_slice(b">\t")?;
    text.extend_from_slice(pattern_in(new))?;
    text.push(b'\t')?;
    push_first_place(text, new)?;
    text.push(b'\n')?;
    Ok(())
}

/// Adds a property that stayed, and where it was.
fn push_kept(text: &mut Vec<u8>, change: Pair<'_, '_>) -> Result<(), AllocError>
    ensures { OnOk result
        (text.new.items ≡ text.old.items ++ spec.kept_line (change_shown change.entry)) }
{
    match change {
        Pair::Old(old) => {
            push_marked(text, b'=', old)?;
            text.push(b'\n')?;
            Ok(())
        }
        other => push_told(text, other),
    }
}

/// Adds properties that stayed.
fn push_all_kept(text: &mut Vec<u8>, changes: &[Pair<'_, '_>]) -> Result<(), AllocError>
    ensures { OnOk result (text.new.items
        ≡ text.old.items ++ flat_map spec.kept_line (map change_shown changes.now)) }
{
    for change in changes {
        push_kept(text, *change)?;
    }
    Ok(())
}

/// Adds a pattern that went, the one that came for it, and the properties of both.
fn push_renamed(
    text: &mut Vec<u8>,
    old: &[Pair<'_, '_>],
    new: &[Pair<'_, '_>],
) -> Result<(), AllocError>
    ensures { OnOk result (text.new.items ≡ text.old.items
        ++ spec.renamed_text (group_in (map change_shown old.now))
        (group_in (map change_shown new.now))) }
{
    push_heading(text, pattern_in(old))?;
    push_new_line(text, new)?;
    push_all_kept(text, old)
}

/// Adds a pattern, and below it a line for each of its changes.
fn push_plain(text: &mut Vec<u8>, changes: &[Pair<'_, '_>]) -> Result<(), AllocError>
    ensures { OnOk result (text.new.items ≡ text.old.items
        ++ spec.group_text (group_in (map change_shown changes.now))) }
{
    push_heading(text, pattern_in(changes))?;
    push_all(text, changes)
}

/// Adds a pattern, or the one that came for it.
fn push_old(
    text: &mut Vec<u8>,
    changes: &[Pair<'_, '_>],
    new: Option<&[Pair<'_, '_>]>,
) -> Result<(), AllocError>
    ensures { OnOk result (text.new.items ≡ text.old.items
        ++ spec.unless_renamed (group_in (map change_shown changes.now))
        (option_map (λ s. group_in (map change_shown s.now)) new.entry)) }
{
    match new {
        Some(new) => push_renamed(text, changes, new),
        None => push_plain(text, changes),
    }
}

/// Adds a pattern that came, unless it is the first that came with its properties.
fn push_later(
    text: &mut Vec<u8>,
    changes: &[Pair<'_, '_>],
    first: Option<&[Pair<'_, '_>]>,
) -> Result<(), AllocError>
    ensures { OnOk result (text.new.items ≡ text.old.items
        ++ spec.unless_first (group_in (map change_shown changes.now))
        (option_map (λ s. group_in (map change_shown s.now)) first.entry)) }
{
    if let Some(first) = first {
        if is_same(pattern_in(first), pattern_in(changes)) {
            return Ok(());
        }
    }
    push_plain(text, changes)
}

/// Adds a pattern that came, unless it is told where another one went.
fn push_new(
    text: &mut Vec<u8>,
    changes: &[Pair<'_, '_>],
    moved: Moved<'_, '_, '_>,
) -> Result<(), AllocError>
    ensures { OnOk result (text.new.items ≡ text.old.items ++ (if moved.entry.went
        then spec.unless_first (group_in (map change_shown changes.now)) (group_shown moved.entry).0
        else spec.group_text (group_in (map change_shown changes.now)))) }
{
    if moved.went {
        return push_later(text, changes, moved.came);
    }
    push_plain(text, changes)
}

/// Adds what is told of a pattern that didn't go whole.
fn push_rest(
    text: &mut Vec<u8>,
    moves: &Moves<'_, '_, '_, '_>,
    group: &Group<'_, '_, '_>,
) -> Result<(), AllocError>
    ensures { OnOk result ((all : List Told) → IsOf moves.now all
        → text.new.items ≡ text.old.items ++ spec.came_text all (shown group.now)
        (spec.properties true (shown group.now).changes)) }
{
    match &group.came {
        Some(own) => push_new(text, group.changes, moved_at(moves, own.as_slice())),
        None => push_plain(text, group.changes),
    }
}

/// Adds what is told of a pattern.
fn push_group(
    text: &mut Vec<u8>,
    moves: &Moves<'_, '_, '_, '_>,
    group: &Group<'_, '_, '_>,
) -> Result<(), AllocError>
    ensures { OnOk result ((all : List Told) → IsOf moves.now all
        → text.new.items ≡ text.old.items ++ spec.text_among all (shown group.now)) }
{
    match &group.went {
        Some(own) => push_old(text, group.changes, moved_at(moves, own.as_slice()).came),
        None => push_rest(text, moves, group),
    }
}

/// Adds what is told of each pattern.
fn push_groups(
    text: &mut Vec<u8>,
    moves: &Moves<'_, '_, '_, '_>,
    groups: &[Group<'_, '_, '_>],
) -> Result<(), AllocError>
    ensures { OnOk result ((all : List Told) → IsOf moves.now all → text.new.items
        ≡ text.old.items ++ flat_map (spec.text_among all) (map shown groups.now)) }
{
    for group in groups {
        push_group(text, moves, group)?;
    }
    Ok(())
}

/// Adds changes by record.
pub(crate) fn push_grouped(
    alloc: Global,
    text: &mut Vec<u8>,
    changes: &[Pair<'_, '_>],
) -> Result<(), AllocError>
    ensures { OnOk result (text.new.items ≡ text.old.items
        ++ spec.grouped_text (map change_shown changes.now)) }
{
    let groups = groups_of(alloc, changes)?;
    let moves = moves_of(alloc, &groups)?;
    push_groups(text, &moves, &groups)
}
