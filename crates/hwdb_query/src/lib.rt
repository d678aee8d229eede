//! What a checked hardware database answers for a device.
//!
//! The answers are the assignments that survived in the database and whose pattern matches the device. They are in
//! order by file priority, line, pattern and key (hwdb(7); that the order goes on by pattern and key is our choice).
//! `specs/Answers` defines them as a filter and an order over all assignments of the database's tree.
//!
//! There are three ways to have them: [`cursor`] by pages, [`effective`] as one value a key, [`explain`] as all answers
//! of each key. All take memory for what they hold. Beside a page of 0 hits, their only error is a failed allocation.
//!
//! | Module | What it does |
//! |---|---|
//! | `hit` | the hits, and the order of their positions |
//! | `position` | positions and their texts |
//! | `spelling` | the parts of a position's text |
//! | `hit_page` | the one list of hits of a cursor, never longer than its page |
//! | `descent` | one descent of the tree along the live paths |
//! | `long_path` | the path of a node, whose end isn't copied before something needs it |
//! | `among` | the effective list, the explanation and a page of answers that were collected elsewhere |
//! | `collector` | what takes the assignments of a descent: a page, the last hits, or all hits |
//! | `next_page` | a page that is filled |
//! | `refill` | one filling of a page: the least hits after a position |
//! | `cursors` | the cursor: pages of answers after a position |
//! | `start` | a new cursor |
//! | `last_hits` | the last hit of each key |
//! | `properties` | the effective list |
//! | `all_hits` | all hits, each at its position |
//! | `answer` | answers, and those of one key |
//! | `node_answers` | what the values of a node assign, as answers |
//! | `by_key` | answers by key |
//! | `explanations` | for each key its answers |
//! | `laws` | what is proved of the definitions alone |
#![tactic(auto)]

mod all_hits;
mod among;
mod answer;
mod by_key;
mod collector;
mod cursors;
mod descent;
mod explanations;
mod hit;
mod hit_page;
mod last_hits;
mod laws;
mod long_path;
mod next_page;
mod node_answers;
mod position;
mod properties;
mod refill;
mod spelling;
mod start;

pub use among::{effective_among, explained_among, page_among};
pub use answer::{Explained, StoredAssignment};
pub use cursors::Cursor;
pub use explanations::explain;
pub use hit::Hit;
pub use hwdb_spec::{CursorError, PositionError};
pub use laws::{
    after_each_next, answers_are_the_maps, compiled_answers_are_last, databases_show_one_map,
    explained_are_effective, fillings_of_a_run, last_assignments_are_last, last_rows,
    positions_are_read_back,
};
pub use node_answers::push_answers;
pub use position::Position;
pub use properties::effective;
pub use start::{cursor, paged_cursor};
