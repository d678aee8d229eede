//! The database that answers a stream of devices, and the one that replaces it.
ghost use Rattle.std.specs.Prelude.{◌≡◌, ◌++◌, ℕ, IfOk, IfSome, List, None, Some, codes, false, true};
ghost use Rattle.hwdb_spec.specs.System.{asked_database};
ghost use Rattle.hwdb_spec_commands.specs.Reloads.{kept_line, taken_line};
ghost use Rattle.hwdb_spec.specs.Visible.{shown_name};
ghost use Rattle.hwdb_tool.specs.Reloading.{AreNone, IsCalm};

use crate::databases::{ETC_FOLDER, USR_FOLDER, asked, database_path};
use hwdb_answers::Renewal;
use hwdb_reader::check;
use hwdb_show::push_name;
use hwdb_system::{Identity, System};
use std::alloc::{AllocError, Global};

/// What is in the places of both databases. If something is in that of `/etc`, the other one isn't looked at: it isn't asked.
#[derive(Clone, Copy)]
struct Identities {
    etc: Option<Identity>,
    usr: Option<Identity>,
}

impl Identities {
    /// Those of no file.
    fn none() -> Identities
        ensures { AreNone result }
    {
        Identities {
            etc: None,
            usr: None,
        }
    }

    /// One look at the files, and another one only if nothing is in the place of `/etc`.
    fn new<D: System>(system: &D, etc: &str, usr: &str) -> Identities
        ensures { D.Store.tells → AreNone result }
    {
        match system.identity(etc) {
            Some(found) => Identities {
                etc: Some(found),
                usr: None,
            },
            None => Identities {
                etc: None,
                usr: system.identity(usr),
            },
        }
    }

    /// Whether these are the same files.
    fn are(&self, others: Identities) -> bool
        ensures { AreNone self.now → AreNone others → result ≡ true }
    {
        match (self.etc, self.usr, others.etc, others.usr) {
            (None, None, None, None) => true,
            (etc, usr, other_etc, other_usr) => etc == other_etc && usr == other_usr,
        }
    }
}

/// The places of both databases, and what was there.
#[derive(Drop)]
pub struct Watch {
    /// The path of that of `/etc`, with the root in front.
    etc: String,
    /// The path of that of `/usr/lib`.
    usr: String,
    /// What was there when the database was read that answers.
    seen: Identities,
    /// What is no database.
    bad: Option<Identities>,
    /// Whether it was said that what is there can't be taken.
    is_failing: bool,
    /// Whether the places are looked at.
    is_on: bool,
}

impl Watch {
    /// What is there now.
    pub fn new<D: System>(alloc: Global, root: &str, system: &D) -> Result<Watch, AllocError>
        ensures { D.Store.tells → IfOk result IsCalm }
    {
        let etc = database_path(alloc, root, ETC_FOLDER)?;
        let usr = database_path(alloc, root, USR_FOLDER)?;
        let seen = Identities::new(system, etc.as_str(), usr.as_str());
        Ok(Watch {
            etc,
            usr,
            seen,
            bad: None,
            is_failing: false,
            is_on: true,
        })
    }

    /// Looks at no place.
    pub fn off(alloc: Global) -> Watch
        ensures { IsCalm result }
    {
        Watch {
            etc: String::new(alloc),
            usr: String::new(alloc),
            seen: Identities::none(),
            bad: None,
            is_failing: false,
            is_on: false,
        }
    }

    /// What is there now.
    fn identities<D: System>(&self, system: &D) -> Identities
        ensures { D.Store.tells → AreNone result }
    {
        Identities::new(system, self.etc.as_str(), self.usr.as_str())
    }

    /// Whether this is what was found to be no database.
    fn is_bad(&self, now: Identities) -> bool {
        match self.bad {
            Some(bad) => bad.are(now),
            None => false,
        }
    }

    /// The path of what is there now.
    fn path(&self, now: Identities) -> &str {
        match now.etc {
            Some(_) => &self.etc,
            None => &self.usr,
        }
    }

    /// The line to say if what is there now can't be taken. It is said once.
    fn kept(&mut self, alloc: Global, now: Identities) -> Option<Vec<u8>>
        ensures { IfSome result (λ line. (path : List ℕ) × (line.items ≡ kept_line path)) }
    {
        if self.is_failing {
            return None;
        }
        let line = kept_line(alloc, self.path(now)).ok()?;
        self.is_failing = true;
        Some(line)
    }

    /// The line to say if what is there now answers: one, if it was said before that it can't.
    fn taken(&mut self, alloc: Global, now: Identities) -> Option<Vec<u8>>
        ensures line { IfSome result (λ line. (path : List ℕ) × (line.items ≡ taken_line path)) }
        ensures calm { IsCalm self.old → IsCalm self.new × (result ≡ None) }
    {
        if !self.is_failing {
            return None;
        }
        let line = taken_line(alloc, self.path(now)).ok()?;
        self.is_failing = false;
        Some(line)
    }
}

/// The line that says this of a path.
fn line_of(alloc: Global, path: &str, said: &[u8]) -> Result<Vec<u8>, AllocError>
    ensures { IfOk result
        (λ line. line.items ≡ codes "hwdb: " ++ (shown_name path.now ++ said.now)) }
{
    let mut line = b"hwdb: ".to_vec(alloc)?;
    push_name(&mut line, path.as_bytes())?;
    line.extend_from_slice(said)?;
    Ok(line)
}

/// The line that is said once what came at a path can't be taken.
fn kept_line(alloc: Global, path: &str) -> Result<Vec<u8>, AllocError>
    ensures { IfOk result (λ line. line.items ≡ kept_line path.now) }
{
    line_of(
        alloc,
        path,
        b": no database that can be read is there now; the one before answers. 'hwdb verify' says more\n",
    )
}

/// The line that is said once a database is there again.
fn taken_line(alloc: Global, path: &str) -> Result<Vec<u8>, AllocError>
    ensures { IfOk result (λ line. line.items ≡ taken_line path.now) }
{
    line_of(alloc, path, b": a database is there again, and answers\n")
}

/// The bytes of the database that is asked. If it is watched, they are read anew once another file is in its place. As long as
/// that one can't be read, or is no database, those before it answer.
#[derive(Drop)]
pub struct Asked<'a, D: System> {
    pub alloc: Global,
    pub root: &'a str,
    pub system: &'a D,
    /// The bytes.
    pub bytes: Vec<u8>,
    /// The places that are watched.
    pub watch: Watch,
}

impl<'a, D: System> Renewal for Asked<'a, D> {
    ghost held = { λ a. a.bytes.items };

    ghost stays = { λ a. D.Store.tells
        × (asked_database a.root.now (D.Store.seen a.system.now) ≡ Some a.bytes.items)
        × IsCalm a.watch };

    fn bytes(&self) -> &[u8] {
        &self.bytes
    }

    fn renew(&mut self) -> Option<Vec<u8>> {
        if !self.watch.is_on {
            return None;
        }
        let now = self.watch.identities(self.system);
        if self.watch.seen.are(now) {
            return self.watch.taken(self.alloc, now);
        }
        if self.watch.is_bad(now) {
            return None;
        }
        let Ok(found) = asked(self.alloc, self.root, self.system) else {
            return self.watch.kept(self.alloc, now);
        };
        if check(&found.bytes).is_err() {
            self.watch.bad = Some(now);
            return self.watch.kept(self.alloc, now);
        }
        self.watch.seen = now;
        self.watch.bad = None;
        self.bytes = found.bytes;
        self.watch.taken(self.alloc, now)
    }
}
