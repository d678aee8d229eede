//! The keys of udev(7), and what each of them takes, as `parse_token` of udev-rules.c has it.
ghost use Rattle.std.specs.Prelude.{◌≡◌, ◌≤◌, length, Option};
ghost use Rattle.std.specs.Str.{bytes_eq};
ghost use Rattle.hwdb_rulefiles.specs.RuleKeys;
ghost use Rattle.hwdb_rulefiles.specs.PairViews.{attribute_of};

use crate::findings::FindingKind;
use crate::pairs::Operator;

/// A key.
#[derive(Clone, Copy, Debug, PartialEq, Eq)]
pub enum Key {
    Action,
    Devpath,
    Kernel,
    Subsystem,
    Driver,
    Const,
    Test,
    ProgramResult,
    Kernels,
    Subsystems,
    Drivers,
    Attrs,
    Tags,
    Symlink,
    Name,
    Env,
    Tag,
    Attr,
    Sysctl,
    Program,
    Import,
    Options,
    Owner,
    Group,
    Mode,
    Seclabel,
    Run,
    Goto,
    Label,
}

/// What a key takes in braces.
#[derive(Clone, Copy)]
pub enum Need {
    /// Nothing.
    Nothing,
    /// A name.
    Name,
    /// A constant of udev.
    Constant,
    /// A mode, or nothing.
    Mode,
    /// Where properties come from.
    Source,
    /// What is run, or nothing.
    Command,
}

/// Which operators a key takes.
#[derive(Clone, Copy)]
pub enum Range {
    /// Those that compare.
    Conditions,
    /// All.
    All,
    /// All but `-=`.
    NoRemove,
    /// Those that set, but for `-=`.
    Effects,
    /// `=` alone.
    OnlyAssign,
}

/// Whether two texts are the same.
pub fn is_same(text: &[u8], word: &[u8]) -> bool
    ensures { result ≡ bytes_eq text.now word.now }
{
    text == word
}

/// Keys that are compared.
fn condition_key(name: &[u8]) -> Option<Key>
    ensures { result ≡ RuleKeys.condition_key name.now }
{
    if is_same(name, b"ACTION") {
        return Some(Key::Action);
    }
    if is_same(name, b"DEVPATH") {
        return Some(Key::Devpath);
    }
    if is_same(name, b"KERNEL") {
        return Some(Key::Kernel);
    }
    if is_same(name, b"SUBSYSTEM") {
        return Some(Key::Subsystem);
    }
    if is_same(name, b"DRIVER") {
        return Some(Key::Driver);
    }
    if is_same(name, b"CONST") {
        return Some(Key::Const);
    }
    if is_same(name, b"TEST") {
        return Some(Key::Test);
    }
    if is_same(name, b"RESULT") {
        return Some(Key::ProgramResult);
    }
    None
}

/// Keys that are compared with a device or one of its parents.
fn parent_key(name: &[u8]) -> Option<Key>
    ensures { result ≡ RuleKeys.parent_key name.now }
{
    if is_same(name, b"KERNELS") {
        return Some(Key::Kernels);
    }
    if is_same(name, b"SUBSYSTEMS") {
        return Some(Key::Subsystems);
    }
    if is_same(name, b"DRIVERS") {
        return Some(Key::Drivers);
    }
    if is_same(name, b"ATTRS") {
        return Some(Key::Attrs);
    }
    if is_same(name, b"TAGS") {
        return Some(Key::Tags);
    }
    None
}

/// Keys that are compared or set.
fn either_key(name: &[u8]) -> Option<Key>
    ensures { result ≡ RuleKeys.either_key name.now }
{
    if is_same(name, b"SYMLINK") {
        return Some(Key::Symlink);
    }
    if is_same(name, b"NAME") {
        return Some(Key::Name);
    }
    if is_same(name, b"ENV") {
        return Some(Key::Env);
    }
    if is_same(name, b"TAG") {
        return Some(Key::Tag);
    }
    if is_same(name, b"ATTR") {
        return Some(Key::Attr);
    }
    if is_same(name, b"SYSCTL") {
        return Some(Key::Sysctl);
    }
    if is_same(name, b"PROGRAM") {
        return Some(Key::Program);
    }
    if is_same(name, b"IMPORT") {
        return Some(Key::Import);
    }
    None
}

/// Keys that are set.
fn effect_key(name: &[u8]) -> Option<Key>
    ensures { result ≡ RuleKeys.effect_key name.now }
{
    if is_same(name, b"OPTIONS") {
        return Some(Key::Options);
    }
    if is_same(name, b"OWNER") {
        return Some(Key::Owner);
    }
    if is_same(name, b"GROUP") {
        return Some(Key::Group);
    }
    if is_same(name, b"MODE") {
        return Some(Key::Mode);
    }
    if is_same(name, b"SECLABEL") {
        return Some(Key::Seclabel);
    }
    if is_same(name, b"RUN") {
        return Some(Key::Run);
    }
    if is_same(name, b"GOTO") {
        return Some(Key::Goto);
    }
    if is_same(name, b"LABEL") {
        return Some(Key::Label);
    }
    None
}

/// The key with this name.
pub fn key_of(name: &[u8]) -> Option<Key>
    ensures { result ≡ RuleKeys.key_of name.now }
{
    if let Some(key) = condition_key(name) {
        return Some(key);
    }
    if let Some(key) = parent_key(name) {
        return Some(key);
    }
    if let Some(key) = either_key(name) {
        return Some(key);
    }
    effect_key(name)
}

/// What a key takes in braces.
fn need_of(key: Key) -> Need
    ensures { result ≡ RuleKeys.need_of key }
{
    match key {
        Key::Env | Key::Attr | Key::Sysctl | Key::Attrs | Key::Seclabel => Need::Name,
        Key::Const => Need::Constant,
        Key::Test => Need::Mode,
        Key::Import => Need::Source,
        Key::Run => Need::Command,
        _ => Need::Nothing,
    }
}

/// Which operators a key takes.
fn range_of(key: Key) -> Range
    ensures { result ≡ RuleKeys.range_of key }
{
    match key {
        Key::Symlink | Key::Tag => Range::All,
        Key::Name | Key::Env | Key::Attr | Key::Sysctl | Key::Program | Key::Import => {
            Range::NoRemove
        }
        Key::Options | Key::Owner | Key::Group | Key::Mode | Key::Seclabel | Key::Run => {
            Range::Effects
        }
        Key::Goto | Key::Label => Range::OnlyAssign,
        _ => Range::Conditions,
    }
}

/// Whether an operator compares.
pub fn compares(operator: Operator) -> bool
    ensures { result ≡ RuleKeys.compares operator }
{
    matches!(operator, Operator::Match | Operator::NoMatch)
}

/// Whether a range has an operator.
fn has(range: Range, operator: Operator) -> bool
    ensures { result ≡ RuleKeys.has range operator }
{
    match range {
        Range::Conditions => compares(operator),
        Range::All => true,
        Range::NoRemove => !matches!(operator, Operator::Remove),
        Range::Effects => !compares(operator) && !matches!(operator, Operator::Remove),
        Range::OnlyAssign => matches!(operator, Operator::Assign),
    }
}

/// How many octal digits a text begins with.
fn octal_len(text: &[u8]) -> usize
    ensures value { result ≡ RuleKeys.octal_len text.now }
    ensures within { result ≤ length text.now }
{
    let mut at = 0;
    while at < text.len() && is_octal(text[at]) {
        at += 1;
    }
    at
}

fn is_octal(byte: u8) -> bool
    ensures { result ≡ RuleKeys.is_octal byte }
{
    matches!(byte, b'0'..=b'7')
}

/// How many zeros a text begins with.
fn zeros_len(text: &[u8]) -> usize
    ensures value { result ≡ RuleKeys.zeros_len text.now }
    ensures within { result ≤ length text.now }
{
    let mut at = 0;
    while at < text.len() && text[at] == b'0' {
        at += 1;
    }
    at
}

/// Whether a text is a mode, or empty: at most four octal digits after its zeros.
fn is_mode(text: &[u8]) -> bool
    ensures { result ≡ RuleKeys.is_mode text.now }
{
    if octal_len(text) != text.len() {
        return false;
    }
    text.len() - zeros_len(text) <= 4
}

fn is_constant(text: &[u8]) -> bool
    ensures { result ≡ RuleKeys.is_constant text.now }
{
    is_same(text, b"arch") || is_same(text, b"virt") || is_same(text, b"cvm")
}

fn is_source(text: &[u8]) -> bool
    ensures { result ≡ RuleKeys.is_source text.now }
{
    is_same(text, b"file")
        || is_same(text, b"program")
        || is_same(text, b"builtin")
        || is_same(text, b"db")
        || is_same(text, b"cmdline")
        || is_same(text, b"parent")
}

fn is_command(text: &[u8]) -> bool
    ensures { result ≡ RuleKeys.is_command text.now }
{
    is_same(text, b"program") || is_same(text, b"builtin")
}

/// What is wrong with an attribute that isn't there.
fn lack(need: Need) -> Option<FindingKind>
    ensures { result ≡ RuleKeys.lack need }
{
    match need {
        Need::Name | Need::Constant | Need::Source => Some(FindingKind::NoAttribute),
        Need::Nothing | Need::Mode | Need::Command => None,
    }
}

/// Whether a need takes an attribute.
fn takes(need: Need, attribute: &[u8]) -> bool
    ensures { result ≡ RuleKeys.takes need attribute.now }
{
    match need {
        Need::Nothing => false,
        Need::Name => !attribute.is_empty(),
        Need::Constant => is_constant(attribute),
        Need::Mode => is_mode(attribute),
        Need::Source => is_source(attribute),
        Need::Command => is_command(attribute),
    }
}

/// How the error is called if a need doesn't take an attribute.
fn mismatch(need: Need) -> FindingKind
    ensures { result ≡ RuleKeys.mismatch need }
{
    match need {
        Need::Nothing => FindingKind::SpareAttribute,
        Need::Name => FindingKind::NoAttribute,
        _ => FindingKind::WrongAttribute,
    }
}

/// What is wrong with the attribute of a key.
fn attribute_fault(key: Key, attribute: Option<&[u8]>) -> Option<FindingKind>
    ensures { result ≡ RuleKeys.attribute_fault key (attribute_of attribute.entry) }
{
    let need = need_of(key);
    match attribute {
        None => lack(need),
        Some(attribute) => {
            if takes(need, attribute) {
                None
            } else {
                Some(mismatch(need))
            }
        }
    }
}

/// Whether the value of a key may have an `i` before it.
fn may_fold(key: Key, operator: Operator) -> bool
    ensures { result ≡ RuleKeys.may_fold key operator }
{
    match key {
        Key::Test | Key::Program | Key::Import => false,
        _ => compares(operator),
    }
}

/// What is wrong with a pair whose value isn't looked at.
pub fn form_fault(
    key: Key,
    attribute: Option<&[u8]>,
    operator: Operator,
    folds: bool,
) -> Option<FindingKind>
    ensures { result ≡ RuleKeys.form_fault key (attribute_of attribute.entry) operator folds }
{
    if let Some(kind) = attribute_fault(key, attribute) {
        return Some(kind);
    }
    if !has(range_of(key), operator) {
        return Some(FindingKind::WrongOperator);
    }
    if folds && !may_fold(key, operator) {
        return Some(FindingKind::WrongPrefix);
    }
    None
}

/// The operator that udev takes in place of one.
pub fn operator_for(key: Key, operator: Operator) -> Operator
    ensures { result ≡ RuleKeys.operator_for key operator }
{
    match key {
        Key::Program | Key::Import => as_condition(operator),
        Key::Options => as_option(operator),
        _ => {
            if is_taken_as_set(key, operator) {
                Operator::Assign
            } else {
                operator
            }
        }
    }
}

fn as_condition(operator: Operator) -> Operator
    ensures { result ≡ RuleKeys.as_condition operator }
{
    match operator {
        Operator::NoMatch => Operator::NoMatch,
        _ => Operator::Match,
    }
}

fn as_option(operator: Operator) -> Operator
    ensures { result ≡ RuleKeys.as_option operator }
{
    match operator {
        Operator::Add => Operator::Assign,
        _ => operator,
    }
}

/// Whether udev says that it takes `=` in place of the operator.
pub fn is_taken_as_set(key: Key, operator: Operator) -> bool
    ensures { result ≡ RuleKeys.is_taken_as_set key operator }
{
    match (key, operator) {
        (Key::Name | Key::Owner | Key::Group | Key::Mode, Operator::Add) => true,
        (Key::Attr | Key::Sysctl, Operator::Add | Operator::AssignFinal) => true,
        (Key::Env | Key::Tag | Key::Seclabel, Operator::AssignFinal) => true,
        _ => false,
    }
}
