//! A place below a root.
ghost use Rattle.std.specs.Prelude.{◌≡◌, All, map, string_bytes, IfOk};
ghost use Rattle.hwdb_system.specs.Roots.{IsName, below};

use std::alloc::{AllocError, Global};
use std::io::{self, ErrorKind};
use std::path::PathBuf;
use std::rt::Files;

/// A place below a root: the names that lead to it from the root. Links among them were followed.
#[derive(Drop)]
pub struct Place<'a> {
    alloc: Global,
    pub root: &'a str,
    names: Vec<String>,
    ghost inward: { All IsName (map string_bytes names.items) },
}

impl<'a> Place<'a> {
    /// The root itself.
    pub fn of_root(alloc: Global, root: &'a str) -> Place<'a>
        ensures { result.root.now ≡ root.now }
    {
        Place {
            alloc,
            root,
            names: Vec::new(alloc),
        }
    }

    /// The place as a path.
    pub fn path(&self) -> Result<String, AllocError>
        ensures { IfOk result (λ path. string_bytes path
            ≡ below self.now.root.now (map string_bytes self.now.names.items)) }
    {
        let mut path = String::from_str(self.alloc, self.root)?;
        for name in &self.names {
            path.push_str("/")?;
            path.push_str(name.as_str())?;
        }
        Ok(path)
    }

    /// The text of the link that is there, if one is.
    pub fn link<R: Files>(&self, rt: &R) -> io::Result<Option<PathBuf>> {
        let path = self.path()?;
        match rt.symlink_metadata(path.as_str()) {
            Ok(found) if found.is_symlink() => Ok(Some(rt.read_link(self.alloc, path.as_str())?)),
            Ok(_) => Ok(None),
            Err(error) if error.kind() == ErrorKind::NotFound => Ok(None),
            Err(error) => Err(error),
        }
    }

    /// What is no folder is an error: it has none above it.
    pub fn check_folder<R: Files>(&self, rt: &R) -> io::Result<()> {
        let mut path = self.path()?;
        path.push_str("/.")?;
        rt.symlink_metadata(path.as_str())?;
        Ok(())
    }

    /// Goes on to a name in this place. The only error is want of memory.
    pub fn enter(&mut self, name: &str) -> Result<(), AllocError>
        requires { IsName name.now }
        ensures { self.new.root ≡ self.old.root }
    {
        let name = String::from_str(self.alloc, name)?;
        self.names.push(name).map_err(AllocError::from)?;
        Ok(())
    }

    /// Goes back to the folder above; at the root it stays.
    pub fn leave(&mut self)
        ensures { self.new.root ≡ self.old.root }
    {
        let _ = self.names.pop();
    }

    /// Goes back to the root.
    pub fn go_to_root(&mut self)
        ensures { self.new.root ≡ self.old.root }
    {
        self.names.clear();
    }
}
