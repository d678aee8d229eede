//! Where a path below a root leads: each link on the way is followed inside the root, as if the root were `/`.
ghost use Rattle.std.specs.Prelude.{◌≡◌, ◌<◌, All, None, Some, false, length, map, option_map, string_bytes, IfErr, IfOk, IfSome};
ghost use Rattle.hwdb_spec.specs.Lines.{has};
ghost use Rattle.hwdb_spec_commands.specs.Refusals.{IsUnentered};
ghost use Rattle.hwdb_system.specs.Roots.{IsBelow, IsName, below};

use crate::place::Place;
use hwdb_io::Cause;
use hwdb_spec_commands::Refusal;
use hwdb_sysfs::{LINK_LOOP, NO_FOLDER};
use std::alloc::{AllocError, Global};
use std::path::PathBuf;
use std::rt::Files;
use std::{fs, io};

/// How many links are followed on the way to one place: as many as Linux follows.
const MAX_LINKS: usize = 40;

/// What a link that masks a text file says. It counts by its text: a root may have no devices.
const NULL: &str = "/dev/null";

/// The first name of a path, and what comes after it; None at the path's end.
fn first_name(path: &str) -> Option<(&str, &str)>
    ensures plain { IfSome result (λ parts. has 47 parts.0.now ≡ false) }
    ensures shorter { IfSome result (λ parts. length parts.1.now < length path.now) }
{
    if path.is_empty() {
        return None;
    }
    match path.split_once('/') {
        Some(parts) => Some(parts),
        None => Some((path, "")),
    }
}

/// Goes on by a name. If a link is there, its text is returned, and the place is where that begins.
fn step<R: Files>(rt: &R, place: &mut Place<'_>, name: &str) -> io::Result<Option<PathBuf>>
    requires { has 47 name.now ≡ false }
    ensures { place.new.root ≡ place.old.root }
{
    match name {
        "" | "." => Ok(None),
        ".." => {
            place.check_folder(rt)?;
            place.leave();
            Ok(None)
        }
        name => {
            place.enter(name)?;
            let link = place.link(rt)?;
            if let Some(text) = &link {
                place.leave();
                if text.as_str().starts_with('/') {
                    place.go_to_root();
                }
            }
            Ok(link)
        }
    }
}

/// Goes on by the names of a path, up to the first link: its text, and what is left of the path.
fn walk<'t, R: Files>(
    rt: &R,
    place: &mut Place<'_>,
    path: &'t str,
) -> io::Result<Option<(PathBuf, &'t str)>>
    ensures { place.new.root ≡ place.old.root }
{
    let mut left = path;
    'names: while let Some((name, after)) = first_name(left) {
        left = after;
        if let Some(link) = step(rt, place, name)? {
            return Ok(Some((link, left)));
        }
    }
    Ok(None)
}

/// Where a path leads inside a root. Names of nothing are kept, so that they can be made.
///
/// Errors are a loop of links, a name below something that is no folder, and what the system says.
fn place_in<R: Files>(alloc: Global, rt: &R, root: &str, path: &str) -> io::Result<String>
    ensures { IfOk result (λ place. IsBelow root.now (string_bytes place)) }
{
    let mut place = Place::of_root(alloc, root);
    let mut left = String::from_str(alloc, path)?;
    for _ in 0..=MAX_LINKS {
        let Some((link, after)) = walk(rt, &mut place, left.as_str())? else {
            return Ok(place.path()?);
        };
        if after.is_empty() && link.as_str() == NULL {
            return null_in(alloc, root);
        }
        let mut next = link.into_string();
        next.push_str("/")?;
        next.push_str(after)?;
        left = next;
    }
    Err(io::Error::from_raw_os_error(LINK_LOOP))
}

/// The place of a root's /dev/null.
fn null_in(alloc: Global, root: &str) -> io::Result<String>
    ensures { IfOk result (λ place. IsBelow root.now (string_bytes place)) }
{
    let mut place = String::from_str(alloc, root)?;
    place.push_str(NULL)?;
    Ok(place)
}

/// The root below which a store finds its files, if it was given one.
#[derive(Drop)]
pub struct Root {
    alloc: Global,
    root: Option<String>,
    /// A folder, and where it leads.
    folder: String,
    place: String,
}

impl Root {
    /// No root: each path leads where the system has it lead.
    pub fn none(alloc: Global) -> Root
        ensures { result.root ≡ None }
    {
        Root {
            alloc,
            root: None,
            folder: String::new(alloc),
            place: String::new(alloc),
        }
    }

    /// This root, of which the caller knows that it is a folder; an empty one is none.
    pub fn below(alloc: Global, root: &str) -> Result<Root, AllocError>
        ensures none { length root.now ≡ 0 → IfOk result (λ r. r.root ≡ None) }
        ensures named { 0 < length root.now
            → IfOk result (λ r. option_map string_bytes r.root ≡ Some root.now) }
    {
        let mut below = Root::none(alloc);
        if root.is_empty() {
            return Ok(below);
        }
        let named = String::from_str(alloc, root)?;
        below.root = Some(named);
        Ok(below)
    }

    /// Takes a root; an empty one is none. What is no folder is an error.
    pub fn enter<R: Files>(&mut self, rt: &R, root: &str) -> Result<(), Refusal>
        ensures { IfErr result (IsUnentered root.now) }
    {
        if root.is_empty() {
            return Ok(());
        }
        match fs::metadata(rt, root) {
            Ok(found) if found.is_dir() => {
                self.root = Some(String::from_str(self.alloc, root)?);
                Ok(())
            }
            Ok(_) => Err(Refusal::read(self.alloc, root.as_bytes(), Cause::System(NO_FOLDER))),
            Err(error) => Err(Refusal::read(self.alloc, root.as_bytes(), Cause::of(&error))),
        }
    }

    /// Where a path leads, each link on it followed.
    pub fn place_of<R: Files>(&self, rt: &R, path: &str) -> io::Result<String>
        ensures { IfSome self.now.root
            (λ root. IfOk result (λ place. IsBelow (string_bytes root) (string_bytes place))) }
    {
        match &self.root {
            Some(root) => {
                let root = root.as_str();
                place_in(self.alloc, rt, root, rest_of(root, path))
            }
            None => Ok(String::from_str(self.alloc, path)?),
        }
    }

    /// Where a path leads, each link on it followed, without a root too: no name on the way is a link's then.
    pub fn real_path_of<R: Files>(&self, rt: &R, path: &str) -> io::Result<String>
        ensures { IfSome self.now.root
            (λ root. IfOk result (λ place. IsBelow (string_bytes root) (string_bytes place))) }
    {
        match &self.root {
            Some(_) => self.place_of(rt, path),
            None => place_in(self.alloc, rt, "", path),
        }
    }

    /// Where a path is: where its folder leads, and its last name, which may be that of a link.
    pub fn entry_of<R: Files>(&self, rt: &R, path: &str) -> io::Result<String> {
        match path.rsplit_once('/') {
            Some((folder, name)) => {
                let mut place = self.place_of(rt, folder)?;
                place.push_str("/")?;
                place.push_str(name)?;
                Ok(place)
            }
            None => Ok(String::from_str(self.alloc, path)?),
        }
    }

    /// Whether a place is that of the root's /dev/null.
    pub fn is_null(&self, place: &str) -> bool {
        match &self.root {
            Some(root) => rest_of(root.as_str(), place) == NULL,
            None => false,
        }
    }

    /// Where a folder leads. For the folder that was asked for last it takes no memory.
    pub fn folder_of<R: Files>(&mut self, rt: &R, folder: &str) -> io::Result<&str> {
        if self.folder.as_str() != folder {
            self.place = self.place_of(rt, folder)?;
            self.folder = String::from_str(self.alloc, folder)?;
        }
        Ok(self.place.as_str())
    }
}

/// What a path below a root has after the root.
fn rest_of<'a>(root: &str, path: &'a str) -> &'a str {
    match path.strip_prefix(root) {
        Some(rest) => rest,
        None => path,
    }
}
