//! Laws over the definitions alone. Each function does nothing: its contract is the law.
ghost use Rattle.hwdb_show.specs.Laws.{FittingIsWhole, FrontIsShown, MarkIsAtEnd, MarkIsBelowByte, WindowRow};
ghost use Rattle.hwdb_show.specs.Shell.{WordRows, WordsAreRead};

/// The mark is below the byte of its place, wherever that is in a line.
pub fn marks_are_below()
    ensures byte { MarkIsBelowByte }
    ensures end { MarkIsAtEnd }
{}

/// What is shown of a line that fits, of one with its place at its front, and of one with its place far in it.
#[tactic(auto, using(crate::proofs::WindowLemmas::whole, crate::proofs::WindowLemmas::front_shown, crate::proofs::WindowLemmas::window_row))]
pub fn lines_are_shown()
    ensures whole { FittingIsWhole }
    ensures front { FrontIsShown }
    ensures row { WindowRow }
{}

/// A shell reads a word as the text that it was made of. Worked rows.
#[tactic(auto, using(crate::proofs::WordLemmas::words_read, crate::proofs::WordLemmas::word_rows))]
pub fn words_are_read()
    ensures read { WordsAreRead }
    ensures rows { WordRows }
{}
