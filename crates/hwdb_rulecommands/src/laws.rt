//! What is proved of the definitions alone. These functions do nothing: what each of them ensures is a law.
ghost use Rattle.hwdb_rulecommands.specs.Laws.{LookupLaws, NameLaws, WordLaws};
ghost use Rattle.hwdb_rulecommands.specs.Rows.{BuiltinRows, LookupRows, SettableRows, WordRows};

/// Plain words, and texts within quotes, are words as they are.
#[tactic(auto, using(crate::proofs::WordLemmas::word_laws_hold))]
pub fn word_laws()
    ensures { WordLaws }
{}

/// The text of a command of hwdb is its first word that is no option, and an option that isn't followed makes the command unknown.
#[tactic(auto, using(crate::proofs::LookupLemmas::lookup_laws_hold))]
pub fn lookup_laws()
    ensures { LookupLaws }
{}

/// The whole name of each builtin names it, and a program's name is the last one of its path.
#[tactic(auto, using(crate::proofs::NameLemmas::name_laws_hold))]
pub fn name_laws()
    ensures { NameLaws }
{}

/// Commands and their words.
#[tactic(auto, using(crate::proofs::ComputedRows::word_rows_hold))]
pub fn word_rows()
    ensures { WordRows }
{}

/// Words of the builtin hwdb.
#[tactic(auto, using(crate::proofs::ComputedRows::lookup_rows_hold))]
pub fn lookup_rows()
    ensures { LookupRows }
{}

/// Words and builtins.
#[tactic(auto, using(crate::proofs::ComputedRows::builtin_rows_hold))]
pub fn builtin_rows()
    ensures { BuiltinRows }
{}

/// What builtins and programs may set.
#[tactic(auto, using(crate::proofs::ComputedRows::settable_rows_hold))]
pub fn settable_rows()
    ensures { SettableRows }
{}
