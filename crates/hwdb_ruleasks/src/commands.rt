//! What is known of what builtins and programs do.
ghost use Rattle.std.specs.Prelude.{◌≡◌, ◌++◌, ◌∷◌, [], map, IfOk, OnOk};
ghost use Rattle.hwdb_rulecommands.specs.Views.{text_of, texts_view};
ghost use Rattle.hwdb_rulefiles.specs.PairViews.{value_view};
ghost use Rattle.hwdb_rulefiles.specs.TokenViews.{token_of};
ghost use Rattle.hwdb_query.specs.Views.{explained_values};
ghost use Rattle.hwdb_ruleevents.specs.Changes.{Open, Put};
ghost use Rattle.hwdb_ruleevents.specs.ChangeViews.{held_of, value_of};
ghost use Rattle.hwdb_ruleevents.specs.EffectViews.{effect_view};
ghost use Rattle.hwdb_ruleevents.specs.Effects;
ghost use Rattle.hwdb_rulerun.specs.Views.{known_of};
ghost use Rattle.hwdb_rules.specs.Views.{kinds_of};
ghost use Rattle.hwdb_sysfs.specs.Views.{ancestor_of};
ghost use Rattle.hwdb_spec_rules.specs.DeviceCommands as spec;
ghost use Rattle.hwdb_ruleasks.specs.Views.{questions_view, tells_of};

use crate::answers::{first_told, first_value};
use crate::lookups::{address_questions, questions_in};
use crate::usb::usb_effect;
use hwdb_query::Explained;
use hwdb_reader::Db;
use hwdb_rulecommands::{Builtin, builtin_of, may_set, program_may_set};
use hwdb_ruleevents::{Commands, Effect, Held, Value, known_as, value_in};
use hwdb_rulefiles::{Token, TokenKind, first_word};
use hwdb_rulerun::Known;
use hwdb_rules::{Kinds, Question, has_some_events, kinds_by_bits};
use hwdb_sysfs::Ancestor;
use std::alloc::{AllocError, Global};

/// Kinds of input devices of which nothing is known.
const OTHER_KINDS: [&[u8]; 7] = [
    b"ID_INPUT_KEY",
    b"ID_INPUT_TABLET",
    b"ID_INPUT_TOUCHSCREEN",
    b"ID_INPUT_POINTINGSTICK",
    b"ID_INPUT_SWITCH",
    b"ID_INPUT_WIDTH_MM",
    b"ID_INPUT_HEIGHT_MM",
];

/// Adds a property that is set. The only error, here and below, is `AllocError`.
pub(crate) fn push_put(
    alloc: Global,
    all: &mut Vec<Held>,
    name: &[u8],
    value: Value,
) -> Result<(), AllocError>
    ensures { OnOk result (map held_of all.new.items
        ≡ map held_of all.old.items ++ (Put name.now (value_of value) ∷ [])) }
{
    let name = Vec::from_slice(alloc, name)?;
    all.push(Held::Put(name, value))?;
    Ok(())
}

/// Adds names that may be set.
pub(crate) fn opened(alloc: Global, all: &mut Vec<Held>, starts: &[&[u8]]) -> Result<(), AllocError>
    ensures { OnOk result (map held_of all.new.items
        ≡ map held_of all.old.items ++ map Open (map text_of starts.now)) }
{
    for start in starts {
        all.push(Held::Open(Vec::from_slice(alloc, start)?))?;
    }
    Ok(())
}

/// Adds properties that may be set, or not.
pub(crate) fn push_untold(
    alloc: Global,
    all: &mut Vec<Held>,
    names: &[&[u8]],
) -> Result<(), AllocError>
    ensures { OnOk result (map held_of all.new.items
        ≡ map held_of all.old.items ++ map spec.untold (map text_of names.now)) }
{
    for name in names {
        push_put(alloc, all, *name, Value::Unknown)?;
    }
    Ok(())
}

/// Of a command the names are known that it may set.
fn may(alloc: Global, starts: &[&[u8]]) -> Result<Effect, AllocError>
    ensures { IfOk result (λ e. effect_view e ≡ spec.may (map text_of starts.now)) }
{
    let mut changes = Vec::new(alloc);
    opened(alloc, &mut changes, starts)?;
    Ok(Effect {
        succeeds: None,
        changes,
    })
}

/// Nothing is known.
fn anything(alloc: Global) -> Result<Effect, AllocError>
    ensures { IfOk result (λ e. effect_view e ≡ Effects.anything) }
{
    let mut changes = Vec::new(alloc);
    changes.push(Held::Open(Vec::new(alloc)))?;
    Ok(Effect {
        succeeds: None,
        changes,
    })
}

/// The effect of a program.
fn program_effect(alloc: Global, command: &[u8]) -> Result<Effect, AllocError>
    ensures { IfOk result (λ e. effect_view e ≡ spec.program_effect command.now) }
{
    match program_may_set(command) {
        None => anything(alloc),
        Some(starts) => may(alloc, starts),
    }
}

/// A value that is set; one of no bytes is none.
pub(crate) fn value_for(alloc: Global, text: &[u8]) -> Result<Value, AllocError>
    ensures { IfOk result (λ v. value_of v
        ≡ Effects.known_value (Effects.some_text text.now)) }
{
    if text.is_empty() {
        return Ok(Value::Missing);
    }
    Ok(Value::Text(Vec::from_slice(alloc, text)?))
}

/// Adds what an answer gives.
fn push_given(alloc: Global, all: &mut Vec<Held>, told: &[Explained<'_>]) -> Result<(), AllocError>
    ensures { OnOk result (map held_of all.new.items ≡ map held_of all.old.items
        ++ map spec.given (explained_values told.now)) }
{
    for one in told {
        let value = value_for(alloc, first_value(&one.answers))?;
        push_put(alloc, all, one.key, known_as(one.key, value))?;
    }
    Ok(())
}

/// The effect of an answer.
fn answered(alloc: Global, told: &[Explained<'_>]) -> Result<Effect, AllocError>
    ensures { IfOk result (λ e. effect_view e
        ≡ spec.answered (explained_values told.now)) }
{
    let mut changes = Vec::new(alloc);
    push_given(alloc, &mut changes, told)?;
    Ok(Effect {
        succeeds: Some(!told.is_empty()),
        changes,
    })
}

/// The effect of strings that are asked one after another, if they are known.
fn asked_effect(
    alloc: Global,
    db: Option<&Db<'_>>,
    questions: &Option<Vec<Question>>,
) -> Result<Effect, AllocError>
    ensures { IfOk result (λ e. effect_view e ≡ spec.asked_effect
        (tells_of db.entry) (questions_view questions.now)) }
{
    match questions {
        None => anything(alloc),
        Some(questions) => {
            let told = first_told(alloc, db, questions)?;
            answered(alloc, &told)
        }
    }
}

/// The effect of the builtin hwdb.
fn hwdb_effect(
    alloc: Global,
    db: Option<&Db<'_>>,
    chain: &[Ancestor],
    alias: Known<'_>,
    text: &Option<Vec<u8>>,
) -> Result<Effect, AllocError>
    ensures { IfOk result (λ e. effect_view e ≡ spec.hwdb_effect (tells_of db.entry)
        (map ancestor_of chain.now) (known_of alias.entry) (value_view text.now)) }
{
    match text {
        None => anything(alloc),
        Some(text) => {
            let questions = questions_in(alloc, chain, alias, text)?;
            asked_effect(alloc, db, &questions)
        }
    }
}

/// Adds a property that is set to 1, if that is so.
fn put_one(alloc: Global, all: &mut Vec<Held>, holds: bool, name: &[u8]) -> Result<(), AllocError>
    ensures { OnOk result (map held_of all.new.items
        ≡ map held_of all.old.items ++ spec.put_one holds name.now) }
{
    if !holds {
        return Ok(());
    }
    let one = Vec::from_slice(alloc, b"1")?;
    push_put(alloc, all, name, Value::Text(one))
}

/// Adds the kinds of an input device.
fn put_kinds(alloc: Global, all: &mut Vec<Held>, kinds: Kinds) -> Result<(), AllocError>
    ensures { OnOk result (map held_of all.new.items
        ≡ map held_of all.old.items ++ spec.kinds_put (kinds_of kinds)) }
{
    put_one(alloc, all, kinds.mouse, b"ID_INPUT_MOUSE")?;
    put_one(alloc, all, kinds.touchpad, b"ID_INPUT_TOUCHPAD")?;
    put_one(alloc, all, kinds.joystick, b"ID_INPUT_JOYSTICK")?;
    put_one(alloc, all, kinds.accelerometer, b"ID_INPUT_ACCELEROMETER")
}

/// The effect of the builtin input_id.
fn input_effect(alloc: Global, chain: &[Ancestor]) -> Result<Effect, AllocError>
    ensures { IfOk result (λ e. effect_view e
        ≡ spec.input_effect (map ancestor_of chain.now)) }
{
    let none = Kinds {
        mouse: false,
        touchpad: false,
        joystick: false,
        accelerometer: false,
    };
    let mut changes = Vec::new(alloc);
    put_one(alloc, &mut changes, has_some_events(chain), b"ID_INPUT")?;
    put_kinds(alloc, &mut changes, kinds_by_bits(alloc, none, chain)?)?;
    opened(alloc, &mut changes, &OTHER_KINDS)?;
    Ok(Effect {
        succeeds: Some(true),
        changes,
    })
}

/// Adds the properties that an answer may give.
fn push_gifts(alloc: Global, all: &mut Vec<Held>, told: &[Explained<'_>]) -> Result<(), AllocError>
    ensures { OnOk result (map held_of all.new.items ≡ map held_of all.old.items
        ++ map spec.may_give (explained_values told.now)) }
{
    for one in told {
        push_put(alloc, all, one.key, Value::Unknown)?;
    }
    Ok(())
}

/// The effect of the builtin net_id.
fn net_effect(alloc: Global, db: Option<&Db<'_>>, chain: &[Ancestor]) -> Result<Effect, AllocError>
    ensures { IfOk result (λ e. effect_view e
        ≡ spec.net_effect (tells_of db.entry) (map ancestor_of chain.now)) }
{
    let questions = address_questions(alloc, chain)?;
    let told = first_told(alloc, db, &questions)?;
    let mut changes = Vec::new(alloc);
    opened(alloc, &mut changes, may_set(Builtin::NetId))?;
    push_gifts(alloc, &mut changes, &told)?;
    Ok(Effect {
        succeeds: None,
        changes,
    })
}

/// What is known of commands, by what sysfs has of a device and its parents, and by a database that answers.
#[derive(Clone, Copy)]
pub(crate) struct DeviceCommands<'a> {
    /// The device and its parents.
    pub(crate) chain: &'a [Ancestor],
    /// The database.
    pub(crate) db: Option<&'a Db<'a>>,
}

/// The effect of a builtin.
fn builtin_effect(
    alloc: Global,
    of: DeviceCommands<'_>,
    builtin: Option<Builtin>,
    text: &Option<Vec<u8>>,
    changes: &[Held],
) -> Result<Effect, AllocError>
    ensures { IfOk result (λ e. effect_view e ≡ spec.builtin_effect
        (tells_of of.entry.db) (map ancestor_of of.entry.chain.now) builtin
        (value_view text.now) (map held_of changes.now)) }
{
    match builtin {
        None => anything(alloc),
        Some(Builtin::Hwdb) => {
            let alias = value_in(changes, b"MODALIAS");
            hwdb_effect(alloc, of.db, of.chain, alias, text)
        }
        Some(Builtin::InputId) => input_effect(alloc, of.chain),
        Some(Builtin::UsbId) => usb_effect(alloc, of.chain, changes),
        Some(Builtin::NetId) => net_effect(alloc, of.db, of.chain),
        Some(builtin) => may(alloc, may_set(builtin)),
    }
}

/// Whether a token runs a program.
fn is_program(kind: TokenKind) -> bool
    ensures { result ≡ spec.is_program kind }
{
    match kind {
        TokenKind::ImportProgram => true,
        _ => false,
    }
}

impl Commands for DeviceCommands<'_> {
    ghost known = { λ c. spec.commands (tells_of c.db) (map ancestor_of c.chain.now) };

    fn effect(
        &self,
        alloc: Global,
        token: &Token,
        text: &Option<Vec<u8>>,
        changes: &[Held],
    ) -> Result<Effect, AllocError> {
        if is_program(token.kind) {
            return program_effect(alloc, &token.value);
        }
        builtin_effect(
            alloc,
            *self,
            builtin_of(first_word(&token.value)),
            text,
            changes,
        )
    }
}
