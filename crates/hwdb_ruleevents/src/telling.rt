//! What is told of the tokens of a line, and of a line.
ghost use Rattle.std.specs.Prelude.{◌≡◌, ◌++◌, ◌∷◌, [], map, true, false, Option, Some, None, IfOk, OnOk};
ghost use Rattle.hwdb_rulefiles.specs.PairViews.{value_view};
ghost use Rattle.hwdb_rulefiles.specs.TokenViews.{token_of};
ghost use Rattle.hwdb_rulefiles.specs.LineViews.{line_of};
ghost use Rattle.hwdb_rulerun.specs.Telling as RunTelling;
ghost use Rattle.hwdb_rulerun.specs.Views.{entry_view, known_of, sight_of};
ghost use Rattle.hwdb_ruleevents.specs.Telling;
ghost use Rattle.hwdb_ruleevents.specs.Effects;
ghost use Rattle.hwdb_ruleevents.specs.Texts;
ghost use Rattle.hwdb_ruleevents.specs.Parents;
ghost use Rattle.hwdb_ruleevents.specs.ParentViews.{chosen_of};
ghost use Rattle.hwdb_ruleevents.specs.ChangeViews.{held_of};
ghost use Rattle.hwdb_ruleevents.specs.EffectViews.{effect_view, knowledge_of};
ghost use Rattle.hwdb_ruleevents.specs.TellViews.{turn_of, told_of, tale_of};

use crate::changes::{Held, Value, put_all, value_for, value_in};
use crate::effects::{Commands, Effect, Knowledge, assigned_told, effect_of, is_env, known_as};
use crate::parents::{Parent, by_reached, first_tokens, is_for_all, parent_told};
use crate::texts::text_told;
use hwdb_rulefiles::{Operator, RuleLine, Token, TokenKind};
use hwdb_rulerun::{
    Entry, Sight, and_then, by_operator_told, has_parents, is_lookup, line_told, runs,
};
use std::alloc::{AllocError, Global};

/// A lookup that is told.
#[derive(Drop)]
pub struct Told<'a> {
    /// The number of its file, from 0.
    pub file: usize,
    /// The number of its line among those of the file, from 0.
    pub line: usize,
    /// Its token.
    pub token: &'a Token,
    /// The text of its command, if it is known.
    pub text: Option<Vec<u8>>,
    /// What is known of MODALIAS when it is asked.
    pub alias: Value,
    /// Whether it is asked, or may be asked.
    pub certain: bool,
}

/// What is told of a line: its lookups, whether it comes to its end, and what is known of properties after it.
#[derive(Drop)]
pub struct Tale<'a> {
    /// Its lookups.
    pub told: Vec<Told<'a>>,
    /// Whether it comes to its end.
    pub passed: Option<bool>,
    /// What is known of properties.
    pub changes: Vec<Held>,
}

/// A line that is tried, or that may be tried.
#[derive(Clone, Copy)]
pub struct Place {
    /// The number of its file.
    pub file: usize,
    /// Its number among the lines of the file.
    pub line: usize,
    /// Whether it is tried for certain.
    pub sure: bool,
}

impl Place {
    /// The same line, tried for certain or not.
    fn with(self, sure: bool) -> Place
        ensures line { turn_of result ≡ turn_of self }
        ensures sure { result.sure ≡ sure }
    {
        Place {
            file: self.file,
            line: self.line,
            sure,
        }
    }
}

/// Whether a lookup with this text is certain.
fn is_certain(sure: bool, text: &Option<Vec<u8>>) -> bool
    ensures { result ≡ Telling.is_certain sure (value_view text.now) }
{
    match text {
        None => false,
        Some(_) => sure,
    }
}

pub(crate) fn is_no(passes: Option<bool>) -> bool
    ensures { result ≡ Telling.is_no passes }
{
    match passes {
        Some(false) => true,
        _ => false,
    }
}

/// Whether what comes after a condition is certain.
fn is_sure(sure: bool, passes: Option<bool>) -> bool
    ensures { result ≡ Telling.is_sure sure passes }
{
    match passes {
        None => false,
        Some(_) => sure,
    }
}

/// What a line sees of the properties that it names.
pub(crate) fn entries<'a>(
    alloc: Global,
    changes: &'a [Held],
    tokens: &'a [Token],
) -> Result<Vec<Entry<'a>>, AllocError>
    ensures { IfOk result (λ all. map entry_view all.items
        ≡ map (Telling.entry_for (map held_of changes.now)) (map token_of tokens.now)) }
{
    let mut all = Vec::new(alloc);
    for token in tokens {
        all.push(Entry {
            name: &token.attribute,
            value: value_in(changes, &token.attribute),
        })?;
    }
    Ok(all)
}

/// Some conditions of a line, as far as they are known, by the properties that its tokens name.
pub(crate) fn holds(
    alloc: Global,
    sight: &Sight<'_>,
    changes: &[Held],
    tokens: &[Token],
    conditions: &[Token],
) -> Result<Option<bool>, AllocError>
    ensures { IfOk result (λ told. told ≡ RunTelling.line_told
        (Telling.sight_at (sight_of sight.now) (map held_of changes.now)
        (map token_of tokens.now))
        (map token_of conditions.now)) }
{
    let entries = entries(alloc, changes, tokens)?;
    let seen = Sight {
        action: sight.action,
        path: sight.path,
        own: sight.own,
        parents: sight.parents,
        properties: &entries,
        closed: false,
    };
    line_told(alloc, &seen, conditions)
}

/// What is known when the tokens of a line are run.
fn known_in<'a, C: Commands>(
    alloc: Global,
    knowledge: &Knowledge<'a, C>,
    changes: &[Held],
    line: &RuleLine,
) -> Result<Knowledge<'a, C>, AllocError>
    ensures { IfOk result (λ k. knowledge_of (C.known k.commands.now) k.facts ≡
        Telling.known_in (knowledge_of (C.known knowledge.now.commands.now) knowledge.now.facts)
        (map held_of changes.now) (line_of line.now)) }
{
    let parent = parent_told(
        alloc,
        &knowledge.facts.sight,
        &line.tokens,
        knowledge.facts.parent,
    )?;
    Ok(knowledge.with_parent(parent))
}

/// The parent after a line that is tried, or may be tried.
fn parent_after<'a, C: Commands>(
    alloc: Global,
    sure: bool,
    knowledge: &Knowledge<'a, C>,
    changes: &[Held],
    tokens: &[Token],
) -> Result<Parent<'a>, AllocError>
    ensures { IfOk result (λ p. chosen_of p ≡ Parents.parent_after_told sure
        (Telling.sight_at (sight_of knowledge.now.facts.sight) (map held_of changes.now)
        (map token_of tokens.now))
        (map token_of tokens.now) (chosen_of knowledge.now.facts.parent)) }
{
    if !has_parents(tokens) {
        return Ok(knowledge.facts.parent);
    }
    let reached = holds(
        alloc,
        &knowledge.facts.sight,
        changes,
        tokens,
        first_tokens(tokens),
    )?;
    let new = parent_told(
        alloc,
        &knowledge.facts.sight,
        tokens,
        knowledge.facts.parent,
    )?;
    Ok(by_reached(sure, reached, new, knowledge.facts.parent))
}

/// What is known after a line that is tried, or may be tried.
pub fn known_after<'a, C: Commands>(
    alloc: Global,
    sure: bool,
    knowledge: &Knowledge<'a, C>,
    changes: &[Held],
    line: &RuleLine,
) -> Result<Knowledge<'a, C>, AllocError>
    ensures { IfOk result (λ k. knowledge_of (C.known k.commands.now) k.facts
        ≡ Telling.known_after sure
        (knowledge_of (C.known knowledge.now.commands.now) knowledge.now.facts)
        (map held_of changes.now)
        (line_of line.now)) }
{
    let sure = if is_for_all(line) { sure } else { false };
    let parent = parent_after(alloc, sure, knowledge, changes, &line.tokens)?;
    Ok(knowledge.with_parent(parent))
}

/// The effect of ENV, by the text of its value.
fn env_effect(
    alloc: Global,
    changes: &[Held],
    token: &Token,
    text: &Option<Vec<u8>>,
) -> Result<Effect, AllocError>
    ensures { IfOk result (λ e. effect_view e ≡ Telling.env_effect (map held_of changes.now)
        (token_of token.now) (value_view text.now)) }
{
    let old = value_in(changes, &token.attribute);
    let value = assigned_told(alloc, token.operator, &token.value, text, old)?;
    let name = Vec::from_slice(alloc, &token.attribute)?;
    let mut new = Vec::new(alloc);
    new.push(Held::Put(name, known_as(&token.attribute, value)))?;
    Ok(Effect {
        succeeds: None,
        changes: new,
    })
}

/// The effect of a token, by the text of its value.
fn effect_by_text<C: Commands>(
    alloc: Global,
    knowledge: &Knowledge<'_, C>,
    changes: &[Held],
    token: &Token,
    text: &Option<Vec<u8>>,
) -> Result<Effect, AllocError>
    ensures { IfOk result (λ e. effect_view e
        ≡ Telling.effect_by_text
        (knowledge_of (C.known knowledge.now.commands.now) knowledge.now.facts)
        (map held_of changes.now) (token_of token.now) (value_view text.now)) }
{
    if is_env(token.kind) {
        return env_effect(alloc, changes, token, text);
    }
    effect_of(alloc, knowledge.commands, changes, token, text)
}

/// Whether a line goes on after something that succeeds, or not.
fn passes_by(kind: TokenKind, operator: Operator, succeeds: Option<bool>) -> Option<bool>
    ensures { result ≡ Telling.passes_by kind operator succeeds }
{
    if runs(kind) {
        return by_operator_told(operator, succeeds);
    }
    Some(true)
}

impl<'a> Tale<'a> {
    /// Nothing is told yet.
    fn new(alloc: Global, changes: Vec<Held>) -> Tale<'a>
        ensures { tale_of result ≡ Telling.ended true (map held_of changes.items) }
    {
        Tale {
            told: Vec::new(alloc),
            passed: Some(true),
            changes,
        }
    }

    /// Adds the lookup of a token, with the text of its value.
    fn ask(
        &mut self,
        alloc: Global,
        at: Place,
        token: &'a Token,
        text: Option<Vec<u8>>,
    ) -> Result<(), AllocError>
        ensures { OnOk result (tale_of self.new ≡ Telling.asked (tale_of self.old)
            (Telling.told_by_text (tale_of self.old).changes (value_view text) at.sure (turn_of at)
            (token_of token.now))) }
    {
        if !is_lookup(token) {
            return Ok(());
        }
        let certain = is_certain(at.sure, &text);
        let alias = value_for(alloc, value_in(&self.changes, b"MODALIAS"))?;
        self.told.push(Told {
            file: at.file,
            line: at.line,
            token,
            text,
            alias,
            certain,
        })?;
        Ok(())
    }

    /// A token is run, or may be run. Gives whether it is passed.
    fn run<C: Commands>(
        &mut self,
        alloc: Global,
        knowledge: &Knowledge<'a, C>,
        at: Place,
        token: &'a Token,
    ) -> Result<Option<bool>, AllocError>
        ensures tale { OnOk result (tale_of self.new ≡ Telling.run_in
            (knowledge_of (C.known knowledge.now.commands.now) knowledge.now.facts)
            at.sure (turn_of at) (tale_of self.old)
            (token_of token.now)) }
        ensures passes { IfOk result (λ passes. passes ≡ Telling.passes_told (token_of token.now)
            (Telling.effect_told
            (knowledge_of (C.known knowledge.now.commands.now) knowledge.now.facts)
            (tale_of self.old).changes (token_of token.now))) }
    {
        let text = text_told(alloc, knowledge, &self.changes, token)?;
        let effect = effect_by_text(alloc, knowledge, &self.changes, token, &text)?;
        let passes = passes_by(token.kind, token.operator, effect.succeeds);
        self.ask(alloc, at, token, text)?;
        self.passed = and_then(self.passed, passes);
        put_all(alloc, &mut self.changes, at.sure, effect.changes)?;
        Ok(passes)
    }
}

/// Tokens that run, or that may run.
#[tactic(auto, using(crate::proofs::TellLemmas::goes_on, crate::proofs::TellLemmas::stops, crate::proofs::TellLemmas::no_token))]
fn tell_tokens<'a, C: Commands>(
    alloc: Global,
    knowledge: &Knowledge<'a, C>,
    at: Place,
    changes: Vec<Held>,
    tokens: &'a [Token],
) -> Result<Tale<'a>, AllocError>
    ensures { IfOk result (λ tale. tale_of tale
        ≡
        Telling.tell_tokens (knowledge_of (C.known knowledge.now.commands.now) knowledge.now.facts)
        at.sure (turn_of at)
        (map held_of changes.items) (map token_of tokens.now)) }
{
    let mut tale = Tale::new(alloc, changes);
    let mut sure = at.sure;
    for token in tokens {
        let here = at.with(sure);
        let passes = tale.run(alloc, knowledge, here, token)?;
        if is_no(passes) {
            return Ok(tale);
        }
        sure = is_sure(sure, passes);
    }
    Ok(tale)
}

/// Nothing is told of a line whose conditions don't hold.
fn ended<'a>(alloc: Global, changes: Vec<Held>) -> Tale<'a>
    ensures { tale_of result ≡ Telling.ended false (map held_of changes.items) }
{
    Tale {
        told: Vec::new(alloc),
        passed: Some(false),
        changes,
    }
}

/// A line whose conditions hold, or may hold, or don't.
fn tell_by<'a, C: Commands>(
    alloc: Global,
    knowledge: &Knowledge<'a, C>,
    at: Place,
    tale: (Option<bool>, Vec<Held>),
    tokens: &'a [Token],
) -> Result<Tale<'a>, AllocError>
    ensures { IfOk result (λ t. tale_of t
        ≡ Telling.tell_by tale.0
        (knowledge_of (C.known knowledge.now.commands.now) knowledge.now.facts) at.sure (turn_of at)
        (map held_of tale.1.items) (map token_of tokens.now)) }
{
    let (holds, changes) = tale;
    if is_no(holds) {
        let mut told = ended(alloc, changes);
        told.passed = and_then(holds, told.passed);
        return Ok(told);
    }
    let here = at.with(is_sure(at.sure, holds));
    let mut told = tell_tokens(alloc, knowledge, here, changes, tokens)?;
    told.passed = and_then(holds, told.passed);
    Ok(told)
}

/// A line that is tried, or that may be tried.
pub fn tell_line<'a, C: Commands>(
    alloc: Global,
    knowledge: &Knowledge<'a, C>,
    at: Place,
    changes: Vec<Held>,
    line: &'a RuleLine,
) -> Result<Tale<'a>, AllocError>
    ensures { IfOk result (λ tale. tale_of tale ≡
        Telling.tell_line (knowledge_of (C.known knowledge.now.commands.now) knowledge.now.facts)
        at.sure (turn_of at) (map held_of changes.items) (line_of line.now)) }
{
    let holds = holds(
        alloc,
        &knowledge.facts.sight,
        &changes,
        &line.tokens,
        &line.tokens,
    )?;
    let here = known_in(alloc, knowledge, &changes, line)?;
    tell_by(alloc, &here, at, (holds, changes), &line.tokens)
}
