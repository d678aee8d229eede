//! Text files, compiled.
use hwdb_compile::{SourceFile, compile};
use std::alloc::Global;
use std::test::Fail;

/// How large a database may be in these tests.
const LIMIT: u32 = 1_000_000;

/// Files with these names and texts.
fn files(alloc: Global, texts: &[(&str, &str)]) -> Result<Vec<SourceFile>, Fail> {
    let mut files = Vec::new(alloc);
    for (name, text) in texts {
        let name = String::from_str(alloc, name)?;
        let bytes = Vec::from_slice(alloc, text.as_bytes())?;
        files.push(SourceFile { name, bytes })?;
    }
    Ok(files)
}

/// The database of files with these names and texts.
pub fn compiled(
    alloc: Global,
    etc: &[(&str, &str)],
    usr: &[(&str, &str)],
) -> Result<Vec<u8>, Fail> {
    let etc = files(alloc, etc)?;
    let usr = files(alloc, usr)?;
    Ok(compile(alloc, &etc, &usr, LIMIT)?.database)
}
