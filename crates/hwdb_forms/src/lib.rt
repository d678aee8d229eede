//! Which patterns can never match: no text that udev asks has them match it.
//!
//! Which texts are asked is known by forms (`Forms` of `hwdb_spec`, `FormTable` of `hwdb_spec_commands`): `usb:v`, four digits, `p`,
//! four digits and so on. A pattern is judged against all of them, so that a wildcard in its prefix needs no case of its own. Those that
//! are likely asked are known by narrower forms (`LikelyForms`), and one function judges by either.
//!
//! [`judge`] walks through a form, token by token. A form is a list of steps, and the walk keeps the places among them that it can be
//! at. So the time is at most the pattern's length times the forms'. One walk says whether the pattern matches a text of the form,
//! how many of its tokens a text begins with, and which bytes may come after them.
//!
//! | Module | What it does |
//! |---|---|
//! | `pieces` | forms as data |
//! | `table` | the forms that udev asks |
//! | `likely` | the forms that udev likely asks |
//! | `likely_names` | those of a name alone |
//! | `beginnings` | how their texts begin |
//! | `sets` | sets of bytes, and which tokens take one of theirs |
//! | `leads` | how pieces begin, before the first star |
//! | `plain` | patterns that are compared byte by byte, without a walk |
//! | `templates` | patterns of digits, which are compared with a text that a form is written as |
//! | `guesses` | the form that a pattern likely has |
//! | `steps` | the steps of a form |
//! | `walks` | walks through them |
//! | `bytes` | sets of bytes as numbers |
//! | `cells` | texts, and the bytes before them |
//! | `texts` | the shortest text of a form that a pattern matches |
//! | `judging` | what is said of a pattern |
//! | `expecting` | what can be written at a place of a pattern |
//! | `likeness` | which prefix was meant by one that nobody asks |
//! | `laws` | what is proved of the definitions alone |
#![tactic(auto)]

mod beginnings;
mod bytes;
mod cells;
mod expecting;
mod guesses;
mod judging;
mod laws;
mod leads;
mod likely;
mod likely_names;
mod likeness;
mod pieces;
mod plain;
mod sets;
mod steps;
mod table;
mod templates;
mod texts;
mod walks;

pub use beginnings::is_asked;
pub use cells::USUAL;
pub use expecting::{expected, expected_likely};
pub use judging::{Judged, judge, judge_both, judge_likely, prefix_of};
pub use laws::{
    asked_text_rows, examples_fit, forms_are_tested, fronts_are_longest, fronts_are_tested,
    likely_texts_are_asked, narrow_examples_fit, text_rows, texts_are_found, texts_are_shortest,
    texts_fit,
};
pub use likeness::likely_prefix;
pub use texts::asked_text;
