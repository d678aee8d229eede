//! Jumps, and what is told of the lines of files.
ghost use Rattle.std.specs.Prelude.{◌≡◌, ◌++◌, ◌∷◌, [], map, filter, not, IfOk, OnOk};
ghost use Rattle.std.specs.List.{list_any};
ghost use Rattle.hwdb_spec.specs.Lines.{is_none};
ghost use Rattle.hwdb_rulefiles.specs.PairViews.{value_view};
ghost use Rattle.hwdb_rulefiles.specs.RuleTokens.{is_word};
ghost use Rattle.hwdb_rulefiles.specs.LineViews.{line_of};
ghost use Rattle.hwdb_rulefiles.specs.Views.{text_of};
ghost use Rattle.hwdb_ruleevents.specs.Reasons;
ghost use Rattle.hwdb_ruleevents.specs.ReasonViews.{reason_of};
ghost use Rattle.hwdb_ruleevents.specs.Telling;
ghost use Rattle.hwdb_ruleevents.specs.Effects.{with_chosen};
ghost use Rattle.hwdb_ruleevents.specs.Internal;
ghost use Rattle.hwdb_ruleevents.specs.Events.{turn};
ghost use Rattle.hwdb_ruleevents.specs.ChangeViews.{change_of, held_of};
ghost use Rattle.hwdb_ruleevents.specs.EffectViews.{knowledge_of};
ghost use Rattle.hwdb_ruleevents.specs.TellViews.{told_of, turn_of};
ghost use Rattle.hwdb_ruleevents.specs.FileViews.{lines_of, progress_of, story_of, ways_of};

use crate::changes::{Change, Held, all_held};
use crate::effects::{Commands, Knowledge};
use crate::parents::Parent;
use crate::reasons::{Reason, add_past, by_holds, decide, has_lookup};
use crate::telling::{Place, Told, known_after, tell_line};
use hwdb_rulefiles::RuleLine;
use std::alloc::{AllocError, Global};

/// Where the ways are of which one is taken: here, or at labels for which they wait.
#[derive(Drop)]
pub struct Ways<'a> {
    here: bool,
    waiting: Vec<&'a [u8]>,
}

/// What is told of lines.
#[derive(Drop)]
pub struct Story<'a> {
    /// Their lookups, in their order.
    pub told: Vec<Told<'a>>,
    /// Why those with lookups ask, or don't.
    pub reasons: Vec<Reason<'a>>,
    /// What is known of properties after them.
    pub changes: Vec<Held>,
    /// What is known of the parent that they chose.
    pub parent: Parent<'a>,
}

/// What is told of the lines so far, and where the ways are.
#[derive(Drop)]
pub struct Progress<'a> {
    story: Story<'a>,
    ways: Ways<'a>,
}

fn is_label(label: &Option<Vec<u8>>, name: &[u8]) -> bool
    ensures { result ≡ is_word (value_view label.now) name.now }
{
    match label {
        None => false,
        Some(text) => text.as_slice() == name,
    }
}

/// Whether a way waits for a line. All are looked at: the time grows with the labels times the jumps that are open.
fn waits(label: &Option<Vec<u8>>, waiting: &[&[u8]]) -> bool
    ensures { result ≡ list_any (is_word (value_view label.now)) (map text_of waiting.now) }
{
    for name in waiting {
        if is_label(label, name) {
            return true;
        }
    }
    false
}

/// The ways that wait for another line.
fn others<'a>(
    alloc: Global,
    label: &Option<Vec<u8>>,
    waiting: &[&'a [u8]],
) -> Result<Vec<&'a [u8]>, AllocError>
    ensures { IfOk result (λ all. map text_of all.items
        ≡ filter (λ name. not (is_word (value_view label.now) name)) (map text_of waiting.now)) }
{
    let mut all = Vec::new(alloc);
    for name in waiting {
        if !is_label(label, name) {
            all.push(*name)?;
        }
    }
    Ok(all)
}

/// Those that waited for a line with a name are here.
fn arrived_at<'a>(
    alloc: Global,
    label: &Option<Vec<u8>>,
    ways: Ways<'a>,
) -> Result<Ways<'a>, AllocError>
    ensures { IfOk result (λ w. ways_of w
        ≡ Telling.arrived (value_view label.now) (ways_of ways.entry)) }
{
    let here = ways.here || waits(label, &ways.waiting);
    let waiting = others(alloc, label, &ways.waiting)?;
    Ok(Ways { here, waiting })
}

/// Those that waited for a line are here. Most lines have no name.
#[tactic(auto, using(crate::proofs::TellLemmas::nobody_arrives))]
fn arrived<'a>(
    alloc: Global,
    label: &Option<Vec<u8>>,
    ways: Ways<'a>,
) -> Result<Ways<'a>, AllocError>
    ensures { IfOk result (λ w. ways_of w
        ≡ Telling.arrived (value_view label.now) (ways_of ways.entry)) }
{
    match label {
        None => Ok(ways),
        Some(_) => arrived_at(alloc, label, ways),
    }
}

/// A way waits for a line with this name.
fn waiting_for<'a>(here: bool, ways: Ways<'a>, name: &'a [u8]) -> Result<Ways<'a>, AllocError>
    ensures { IfOk result
        (λ w. ways_of w ≡ Telling.waiting_for here (ways_of ways.entry) name.now) }
{
    let mut waiting = ways.waiting;
    waiting.push(name)?;
    Ok(Ways { here, waiting })
}

/// A line that comes to its end, or may come to it, jumps.
fn jumped<'a>(
    passed: Option<bool>,
    goto: &'a Option<Vec<u8>>,
    ways: Ways<'a>,
) -> Result<Ways<'a>, AllocError>
    ensures { IfOk result (λ w. ways_of w
        ≡ Telling.jumped passed (value_view goto.now) (ways_of ways.entry)) }
{
    match goto {
        None => Ok(ways),
        Some(name) => match passed {
            Some(false) => Ok(ways),
            Some(true) => waiting_for(false, ways, name),
            None => waiting_for(ways.here, ways, name),
        },
    }
}

/// A line without a lookup that some way comes to.
fn tried_plain<'a, C: Commands>(
    alloc: Global,
    knowledge: &Knowledge<'a, C>,
    at: Place,
    progress: Progress<'a>,
    line: &'a RuleLine,
) -> Result<Progress<'a>, AllocError>
    ensures progress { IfOk result (λ p. progress_of p ≡
        Internal.tried (knowledge_of (C.known knowledge.now.commands.now) knowledge.now.facts)
        at.sure (turn_of at) (progress_of progress.entry) (line_of line.now)) }
    ensures reasons { IfOk result (λ p. p.story.reasons ≡ progress.entry.story.reasons) }
{
    let Progress { story, ways } = progress;
    let Story {
        mut told,
        reasons,
        changes,
        parent,
    } = story;
    let now = knowledge.with_parent(parent);
    let after = known_after(alloc, at.sure, &now, &changes, line)?;
    let mut tale = tell_line(alloc, &now, at, changes, line)?;
    told.append(&mut tale.told)?;
    let ways = jumped(tale.passed, &line.goto, ways)?;
    Ok(Progress {
        story: Story {
            told,
            reasons,
            changes: tale.changes,
            parent: after.facts.parent,
        },
        ways,
    })
}

/// A line with a lookup that some way comes to.
fn tried_asking<'a, C: Commands>(
    alloc: Global,
    knowledge: &Knowledge<'a, C>,
    at: Place,
    progress: Progress<'a>,
    line: &'a RuleLine,
) -> Result<Progress<'a>, AllocError>
    ensures progress { IfOk result (λ p. progress_of p ≡
        Internal.tried (knowledge_of (C.known knowledge.now.commands.now) knowledge.now.facts)
        at.sure (turn_of at) (progress_of progress.entry) (line_of line.now)) }
    ensures reasons { IfOk result (λ p. map reason_of p.story.reasons.items
        ≡ map reason_of progress.entry.story.reasons.items ++ (Reasons.reason_here (with_chosen
        (knowledge_of (C.known knowledge.now.commands.now) knowledge.now.facts)
        (progress_of progress.entry).story.parent) at.sure (ways_of progress.entry.ways).waiting
        (turn_of at) (progress_of progress.entry).story.changes (line_of line.now) ∷ [])) }
{
    let Progress { story, ways } = progress;
    let Story {
        mut told,
        mut reasons,
        changes,
        parent,
    } = story;
    let now = knowledge.with_parent(parent);
    let decided = decide(alloc, &knowledge.facts.sight, &changes, &line.tokens)?;
    let after = known_after(alloc, at.sure, &now, &changes, line)?;
    let mut tale = tell_line(alloc, &now, at, changes, line)?;
    let place = (at, ways.waiting.as_slice());
    reasons.push(by_holds(alloc, place, decided, &line.tokens, &tale.told)?)?;
    told.append(&mut tale.told)?;
    let ways = jumped(tale.passed, &line.goto, ways)?;
    Ok(Progress {
        story: Story {
            told,
            reasons,
            changes: tale.changes,
            parent: after.facts.parent,
        },
        ways,
    })
}

/// A line that some way comes to.
fn tried<'a, C: Commands>(
    alloc: Global,
    knowledge: &Knowledge<'a, C>,
    at: Place,
    progress: Progress<'a>,
    line: &'a RuleLine,
) -> Result<Progress<'a>, AllocError>
    ensures progress { IfOk result (λ p. progress_of p ≡
        Internal.tried (knowledge_of (C.known knowledge.now.commands.now) knowledge.now.facts)
        at.sure (turn_of at) (progress_of progress.entry) (line_of line.now)) }
    ensures reasons { IfOk result (λ p. map reason_of p.story.reasons.items
        ≡ map reason_of progress.entry.story.reasons.items ++ Reasons.reasons_here (with_chosen
        (knowledge_of (C.known knowledge.now.commands.now) knowledge.now.facts)
        (progress_of progress.entry).story.parent) at.sure (ways_of progress.entry.ways).waiting
        (turn_of at) (progress_of progress.entry).story.changes (line_of line.now)) }
{
    if has_lookup(&line.tokens) {
        tried_asking(alloc, knowledge, at, progress, line)
    } else {
        tried_plain(alloc, knowledge, at, progress, line)
    }
}

/// A line that no way comes to.
fn passed_over<'a>(
    alloc: Global,
    at: Place,
    progress: Progress<'a>,
    line: &RuleLine,
) -> Result<Progress<'a>, AllocError>
    ensures progress { IfOk result (λ p. progress_of p ≡ progress_of progress.entry) }
    ensures reasons { IfOk result (λ p. map reason_of p.story.reasons.items
        ≡ map reason_of progress.entry.story.reasons.items ++ Reasons.reasons_past
        (ways_of progress.entry.ways).waiting (turn_of at) (line_of line.now)) }
{
    let Progress { mut story, ways } = progress;
    add_past(alloc, &mut story.reasons, &ways.waiting, at, line)?;
    Ok(Progress { story, ways })
}

/// Whether no way waits.
#[tactic(auto, using(crate::proofs::TellLemmas::nobody_waits))]
fn is_nobody(waiting: &[&[u8]]) -> bool
    ensures { result ≡ is_none (map text_of waiting.now) }
{
    waiting.is_empty()
}

/// One more line.
fn step<'a, C: Commands>(
    alloc: Global,
    knowledge: &Knowledge<'a, C>,
    place: (usize, usize),
    progress: Progress<'a>,
    line: &'a RuleLine,
) -> Result<Progress<'a>, AllocError>
    ensures progress { IfOk result (λ p. progress_of p ≡
        Internal.step (knowledge_of (C.known knowledge.now.commands.now) knowledge.now.facts)
        (turn place.0 place.1) (progress_of progress.entry) (line_of line.now)) }
    ensures reasons { IfOk result (λ p. map reason_of p.story.reasons.items
        ≡ map reason_of progress.entry.story.reasons.items ++ Reasons.reasons_at (with_chosen
        (knowledge_of (C.known knowledge.now.commands.now) knowledge.now.facts)
        (progress_of progress.entry).story.parent)
        (Telling.arrived (value_view line.now.label) (ways_of progress.entry.ways))
        (turn place.0 place.1) (progress_of progress.entry).story.changes (line_of line.now)) }
{
    let Progress { story, ways } = progress;
    let ways = arrived(alloc, &line.label, ways)?;
    let at = Place {
        file: place.0,
        line: place.1,
        sure: is_nobody(&ways.waiting),
    };
    if ways.here {
        tried(alloc, knowledge, at, Progress { story, ways }, line)
    } else {
        passed_over(alloc, at, Progress { story, ways }, line)
    }
}

/// What is told of the lines of a file.
fn tell_lines<'a, C: Commands>(
    alloc: Global,
    knowledge: &Knowledge<'a, C>,
    file: usize,
    story: Story<'a>,
    lines: &'a [RuleLine],
) -> Result<Story<'a>, AllocError>
    ensures told { IfOk result (λ s. story_of s ≡ Telling.story_before (story_of story.entry).told
        (Telling.tell_lines (with_chosen
        (knowledge_of (C.known knowledge.now.commands.now) knowledge.now.facts)
        (story_of story.entry).parent)
        file 0 (story_of story.entry).changes Telling.start (map line_of lines.now))) }
    ensures reasons { IfOk result (λ s. map reason_of s.reasons.items
        ≡ map reason_of story.entry.reasons.items ++ Reasons.reasons_of_lines (with_chosen
        (knowledge_of (C.known knowledge.now.commands.now) knowledge.now.facts)
        (story_of story.entry).parent)
        file 0 (story_of story.entry).changes Telling.start (map line_of lines.now)) }
{
    let mut progress = Progress {
        story,
        ways: Ways {
            here: true,
            waiting: Vec::new(alloc),
        },
    };
    for (number, line) in lines.iter().enumerate() {
        progress = step(alloc, knowledge, (file, number), progress, line)?;
    }
    Ok(progress.story)
}

/// What is told of the lookups of rules files, one after the other, and why lines ask or don't, with what is known of properties before them.
///
/// # Errors
///
/// `AllocError` at any allocation that fails.
pub fn tell_files<'a, C: Commands>(
    alloc: Global,
    knowledge: &Knowledge<'a, C>,
    changes: &[Change<'_>],
    files: &[&'a [RuleLine]],
) -> Result<Story<'a>, AllocError>
    ensures told { IfOk result (λ s. map told_of s.told.items ≡ Telling.tell_files
        (knowledge_of (C.known knowledge.now.commands.now) knowledge.now.facts)
        0 (map change_of changes.now)
        (map lines_of files.now)) }
    ensures reasons { IfOk result (λ s. map reason_of s.reasons.items
        ≡ Reasons.reasons_of_files
        (knowledge_of (C.known knowledge.now.commands.now) knowledge.now.facts)
        0 (map change_of changes.now)
        (map lines_of files.now)) }
{
    let mut story = Story {
        told: Vec::new(alloc),
        reasons: Vec::new(alloc),
        changes: all_held(alloc, changes)?,
        parent: knowledge.facts.parent,
    };
    for (number, lines) in files.iter().enumerate() {
        story = tell_lines(alloc, knowledge, number, story, lines)?;
    }
    Ok(story)
}
