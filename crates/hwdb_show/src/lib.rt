//! How bytes are shown: lines of a text with a mark below them, texts in colour, and values of JSON.
//!
//! | Module | What it does |
//! |---|---|
//! | `shown` | lines as they are shown, and the mark below them |
//! | `visible` | texts and names without bytes that a terminal would act on |
//! | `colours` | texts in colour |
//! | `json_values` | values of JSON, token by token |
//! | `escapes` | JSON's text with DEL and U+0080 to U+009F escaped |
//! | `words` | words of a shell, as commands that are told have them |
//! | `laws` | what is proved of the definitions alone |
#![tactic(auto)]

mod colours;
mod escapes;
mod json_values;
mod laws;
mod shown;
mod visible;
mod words;

pub use colours::{colours_are_taken_out, painted};
pub use json_values::{
    closed, ended, put_bytes, put_count, put_flag, put_member, put_number, put_text,
};
pub use laws::{lines_are_shown, marks_are_below, words_are_read};
pub use shown::{push_byte, push_mark_line, push_shown, push_shown_line};
pub use visible::{
    names_forge_no_line, push_name, push_visible, shown_has_no_control, write_visible,
};
pub use words::push_word;
