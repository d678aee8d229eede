//! A long run of stars among a database's strings.
//!
//! A pattern may have many stars, one after another, and many nodes may share them as their prefix. Read at each node,
//! 6 MB of them keep a lookup busy for seconds. So a lookup looks once where such a run is, and reads none of it later.
//! In databases made of text files runs are short: a look at a few bytes finds none.
ghost use Rattle.std.specs.Prelude.{List, ℕ, ◌≤◌, ◌<◌, length};
ghost use Rattle.hwdb_reader.specs.Internal.Stars.{AreStars};

/// Stars from one place on, before another one; none if these are equal.
#[derive(Clone, Copy)]
pub struct StarRun {
    pub(crate) from: usize,
    pub(crate) end: usize,
}

/// How many places are looked at. A run is found for sure if it has more than this part of the strings.
const PROBES: usize = 16;

/// How many bytes there are at least from one of these places to the next one.
const STEP: usize = 4096;

/// No stars.
pub fn no_stars() -> StarRun
    ensures stars { (b : List ℕ) → AreStars b result.from result.end }
    ensures order { result.from ≤ result.end }
{
    StarRun { from: 0, end: 0 }
}

/// The stars around a place.
fn stars_around(bytes: &[u8], at: usize) -> StarRun
    requires { at ≤ length bytes.now }
    ensures stars { AreStars bytes.now result.from result.end }
    ensures order { result.from ≤ result.end }
{
    let mut from = at;
    while from > 0 && bytes[from - 1] == b'*' {
        from -= 1;
    }
    let mut end = at;
    while end < bytes.len() && bytes[end] == b'*' {
        end += 1;
    }
    StarRun { from, end }
}

/// A run of stars in the bytes from `first` on: the longest of those around a few places. Looks at these places alone,
/// and reads each run that it finds there.
pub fn long_stars(bytes: &[u8], first: usize) -> StarRun
    ensures { AreStars bytes.now result.from result.end }
{
    let mut found = no_stars();
    if bytes.len() < first {
        return found;
    }
    let step = (bytes.len() - first) / PROBES;
    if step < STEP {
        return found;
    }
    let mut at = first;
    while bytes.len() - at > step {
        at += step;
        if bytes[at] == b'*' && found.end <= at {
            let run = stars_around(bytes, at);
            if run.end - run.from > found.end - found.from {
                found = run;
            }
        }
    }
    found
}
