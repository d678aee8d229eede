//! Laws over the definitions alone. Each function does nothing: its contract is the law, for callers whose proofs need
//! it.
ghost use Rattle.hwdb_forms.specs.Laws.{EachFits, FormsAreTested, FrontsAreLongest, FrontsAreTested, LikelyTextsAreAsked, TextsAreFound, TextsAreShortest, TextsFit};
ghost use Rattle.hwdb_forms.specs.TextRows.{AmongRows, ByteRows, CountedRows, FilledRows, NamedTextRows, RepeatedRows, UsbTextRows, WayRows};
ghost use Rattle.hwdb_spec_commands.specs.FormTable.{known};
ghost use Rattle.hwdb_spec_commands.specs.LikelyForms.{narrow};

/// The computing test `can_match` is true exactly if the tokens match some text of one of the forms.
#[tactic(auto, using(crate::proofs::AnswerLemmas::forms_tested))]
pub fn forms_are_tested()
    ensures { FormsAreTested }
{}

/// The computing test `can_begin` is true exactly if some text of one of the forms begins with what the tokens match.
#[tactic(auto, using(crate::proofs::AnswerLemmas::fronts_tested))]
pub fn fronts_are_tested()
    ensures { FrontsAreTested }
{}

/// What is found as the longest front is one, and no longer one is.
pub fn fronts_are_longest()
    ensures { FrontsAreLongest }
{}

/// The text that is given of forms has one of them, and the tokens match it.
pub fn texts_fit()
    ensures { TextsFit }
{}

/// If the tokens match some text of one of the forms, a text is given.
pub fn texts_are_found()
    ensures { TextsAreFound }
{}

/// No text of one of the forms that the tokens match is shorter than the one that is given.
pub fn texts_are_shortest()
    ensures { TextsAreShortest }
{}

/// Each form has a text: so none of them is empty.
#[tactic(auto, using(crate::proofs::ExampleLemmas::known_fit))]
pub fn examples_fit()
    ensures { EachFits known }
{}

/// Each narrower form has a text.
#[tactic(auto, using(crate::proofs::ExampleLemmas::narrow_fit))]
pub fn narrow_examples_fit()
    ensures { EachFits narrow }
{}

/// What udev likely asks is asked: no narrower form has a text that the others haven't.
#[tactic(auto, using(crate::proofs::WithinLemmas::likely_asked))]
pub fn likely_texts_are_asked()
    ensures { LikelyTextsAreAsked }
{}

/// Worked rows of the shortest texts: counted bytes, any number of them, ways, forms, and bytes that are seldom used.
pub fn text_rows()
    ensures counted { CountedRows }
    ensures repeated { RepeatedRows }
    ensures ways { WayRows }
    ensures among { AmongRows }
    ensures bytes { ByteRows }
    ensures filled { FilledRows }
{}

/// Worked rows of the shortest texts of forms that udev asks.
pub fn asked_text_rows()
    ensures usb { UsbTextRows }
    ensures named { NamedTextRows }
{}
