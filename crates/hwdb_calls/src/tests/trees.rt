//! Trees that are filled by hand, with the path `/etc/udev/hwdb.d/1.hwdb` and priority 1.
use crate::fixtures::has_no_zero;
use hwdb_text::Assignment;
use hwdb_writer::{Assignments, StoreError, write};
use std::alloc::{AllocError, Global};
use std::process::Abort;
use std::test::Fail;

/// An assignment with the value `v`.
fn assignment(
    alloc: Global,
    line: u32,
    pattern: &[u8],
    key: &[u8],
) -> Result<Assignment, AllocError> {
    Ok(Assignment {
        priority: 1,
        line,
        pattern: Vec::from_slice(alloc, pattern)?,
        key: Vec::from_slice(alloc, key)?,
        value: Vec::from_slice(alloc, b"v")?,
        path: Vec::from_slice(alloc, b"/etc/udev/hwdb.d/1.hwdb")?,
    })
}

/// The assignments of the patterns, each with the keys from line 2 on.
fn assignments(
    alloc: Global,
    patterns: &[&[u8]],
    keys: &[&[u8]],
) -> Result<Vec<Assignment>, AllocError> {
    let mut all = Vec::new(alloc);
    for pattern in patterns {
        let mut line = 2;
        for key in keys {
            let one = assignment(alloc, line, pattern, key)?;
            all.push(one)?;
            line = 3;
        }
    }
    Ok(all)
}

/// Puts one assignment.
fn put<'t>(
    rt: &impl Abort,
    tree: &mut Assignments<'t>,
    a: &'t Assignment,
) -> Result<(), AllocError> {
    assert!(rt; a.priority > 0);
    assert!(rt; a.pattern.len() <= 4096);
    assert!(rt; has_no_zero(&a.pattern));
    assert!(rt; has_no_zero(&a.key));
    assert!(rt; has_no_zero(&a.value));
    assert!(rt; has_no_zero(&a.path));
    tree.put(a)
}

/// The database of the patterns, each with the keys from line 2 on.
fn database(
    rt: &impl Abort,
    alloc: Global,
    patterns: &[&[u8]],
    keys: &[&[u8]],
    max_bytes: u32,
) -> Result<Result<Vec<u8>, StoreError>, Fail> {
    let all = assignments(alloc, patterns, keys)?;
    let mut tree = Assignments::new(alloc);
    for one in &all {
        put(rt, &mut tree, one)?;
    }
    Ok(write(alloc, &tree, max_bytes))
}

/// A database is refused by one byte, and below the header alone, and below the nodes.
#[test]
fn sizes(rt: HostRuntime) -> Result<(), Fail> {
    let alloc = rt.alloc();
    let k: &[&[u8]] = &[b"K"];
    let k_and_l: &[&[u8]] = &[b"K", b"L"];
    let cases: [(&[&[u8]], &[&[u8]], u32); 9] = [
        (&[], k, 105),
        (&[b"a"], k, 206),
        (&[b""], k, 166),
        (&[b"ab"], k, 208),
        (&[b"abc", b"abd"], k, 320),
        (&[b"abd", b"abc"], k, 320),
        (&[b"abc", b"ab"], k, 280),
        (&[b"ab", b"abc"], k, 280),
        (&[b"a"], k_and_l, 241),
    ];
    for (patterns, keys, size) in &cases {
        let bytes = database(&rt, alloc, patterns, keys, *size)??;
        assert_eq!(rt; bytes.len(), *size as usize);
        for limit in [size.saturating_sub(1), 90, 0] {
            let refused = database(&rt, alloc, patterns, keys, limit)?;
            assert!(rt; matches!(&refused, Err(StoreError::TooLarge)));
        }
    }
    Ok(())
}
