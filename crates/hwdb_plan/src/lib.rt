//! Commands as plans: what is asked of the file system, what follows each answer, and what a run leaves then.
//!
//! A plan is data. A command's function follows its plan: it gives what the plan ends in. So what is so of all plans is so of all
//! commands, and no law has a case for one of them.
//!
//! | File of `specs/` | Says |
//! |---|---|
//! | `Plans` | a plan, what it ends in, and when a result follows it |
//! | `Ended` | what a run leaves whose plan ends so |
//! | `Laws` | what is so of every plan |
//! | `Asking` | the database that a command asks for, as the front of a plan |
//! | `Input` | standard input, in place of a path that words give |
//! | `Given` | what is at a path that words give, or standard input |
//! | `Files` | files that are read one after another, as the front of a plan |
//! | `Folders` | the text files of both folders, as the front of a plan |
//! | `OwnRules` | the machine's own rules files, as the front of a plan |
//! | `GivenFolders` | what given paths mean: themselves, or the text files of their folders |
//! | `Verify`, `Dump`, `Test`, `Near`, `Check` | the plans of these commands |
//! | `Answers` | those of `query` and `explain`, also of devices of standard input |
//! | `List`, `Ask` | those of `list` and `ask` |
//! | `Device` | that of `device`, over what sysfs shows |
//! | `Report` | that of `device --from`, over what an export of udev's database tells |
//! | `Sides` | the bytes of a side of `diff`, as the front of a plan |
//! | `Diff` | that of `diff`, over two sides |
//! | `Status` | that of `status`, and the test that two maps say the same |
//! | `Keys` | that of `keys`, which asks nothing |
//! | `OverText` | `--text`, as a function from plans to plans |
//! | `TextLaws` | what is so of plans that say a text after the rest |
//! | `Advice` | what is said if a command prints nothing, as a function from plans to plans |
//! | `Readable` | the text files of both folders, of which some may be left out, as the front of a plan |
//! | `Update`, `Put` | the plans of `update`, and their end |
//! | `Putting` | what a run leaves that puts a database in its place |
//!
//! `laws` shows the laws.
#![tactic(auto)]

mod laws;

pub use laws::{
    advice_rows, advised_is_no_more, advised_is_said, answers_leave_all, done_is_one,
    only_asked_matters, over_is_no_more, over_is_over, plans_end_alike, said_is_after,
    said_is_no_more, shows_after,
};
