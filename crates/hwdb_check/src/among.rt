//! Whether some findings are all among others, in their order: then none of them is new.
ghost use Rattle.std.specs.Prelude.{◌≡◌, ◌≤◌, ◌∷◌, [], List, ℕ, drop, length, true};
ghost use Rattle.hwdb_spec_commands.specs.Findings.{Finding};
ghost use Rattle.hwdb_spec_commands.specs.Patches;
ghost use Rattle.hwdb_check.specs.Among;
ghost use Rattle.hwdb_check.specs.Among.{AreSoFar, now_at};
ghost use Rattle.hwdb_check.specs.Found.{finds, kept_of};

use crate::findings::Found;
use hwdb_properties::same;

/// The line of a finding, if there is a mend for it, else nothing: it is compared with that of others.
pub fn own_source(found: &Found) -> &[u8]
    ensures { result.now ≡ Among.own_source (kept_of found.now) }
{
    if found.fix.is_some() {
        &found.source
    } else {
        &[]
    }
}

/// Whether two findings are seen to be the same one, of texts whose lines may differ.
fn are_one(one: &Found, other: &Found) -> bool
    ensures { result ≡ true
        → Among.number_mark (kept_of one.now) ≡ Among.number_mark (kept_of other.now) }
{
    if one.line != other.line {
        return false;
    }
    if !same(own_source(one), own_source(other)) {
        return false;
    }
    if !same(one.kind.as_bytes(), other.kind.as_bytes()) {
        return false;
    }
    same(&one.path, &other.path)
}

/// How many of some findings are met with one more of others: the next of them, if it is the same one.
fn met_with(now: &[Found], met: usize, known: &Found) -> usize
    requires { met ≤ length now.now }
    ensures within { result ≤ length now.now }
    ensures goes { (marks left : List (List ℕ)) (all : List Finding)
        → AreSoFar marks all (now_at (drop met now.now))
        (Among.number_mark (kept_of known.now) ∷ left)
        → AreSoFar marks all (now_at (drop result now.now)) left }
{
    if met == now.len() {
        return met;
    }
    if !are_one(&now[met], known) {
        return met;
    }
    met + 1
}

/// Whether some findings are seen to be all among others, in their order. A step is taken for each of the others.
pub fn are_among(before: &[Found], now: &[Found]) -> bool
    ensures { result ≡ true → Patches.worse (finds before.now) (finds now.now) ≡ [] }
{
    let mut met = 0;
    for known in before {
        met = met_with(now, met, known);
    }
    met == now.len()
}
