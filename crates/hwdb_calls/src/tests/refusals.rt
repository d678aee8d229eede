//! The line of each error.
use hwdb_answers::ToolError;
use hwdb_io::Cause;
use hwdb_io::testing::MemorySink;
use hwdb_reader::DbFault;
use hwdb_system::{Refusal, refuse_for};
use std::alloc::Global;
use std::process::Abort;
use std::test::Fail;

/// Compares the line of an error.
fn says(rt: &impl Abort, alloc: Global, refusal: &Refusal, line: &str) {
    let mut err: MemorySink<256> = MemorySink::new();
    refuse_for(alloc, refusal, &mut err);
    assert_eq!(rt; err.taken(), line.as_bytes(), "{line}");
}

#[test]
fn without_a_path(rt: HostRuntime) {
    let rows = [
        (ToolError::TooManyFiles, "hwdb: more than 65535 files\n"),
        (
            ToolError::TooManyLines,
            "hwdb: a file has more than 4294967295 lines\n",
        ),
        (
            ToolError::TooLarge,
            "hwdb: the database would be larger than 268435456 bytes\n",
        ),
        (ToolError::BadPosition, "hwdb: bad position\n"),
        (ToolError::Read, "hwdb: cannot read\n"),
        (
            ToolError::TooLong,
            "hwdb: a file is longer than 268435456 bytes\n",
        ),
        (ToolError::Write, "hwdb: cannot write\n"),
        (ToolError::Memory, "hwdb: out of memory\n"),
    ];
    for (error, line) in rows {
        says(&rt, rt.alloc(), &Refusal::from(error), line);
    }
    says(&rt, rt.alloc(), &Refusal::NoDatabase, "hwdb: no database\n");
}

#[test]
fn of_a_database(rt: HostRuntime) {
    let rows = [
        (DbFault::Short, "hwdb: bad database: B1\n"),
        (DbFault::Signature, "hwdb: bad database: B2\n"),
        (DbFault::RecordSizes, "hwdb: bad database: B3\n"),
        (DbFault::Lengths, "hwdb: bad database: B4\n"),
        (DbFault::Strings, "hwdb: bad database: B5\n"),
        (DbFault::Place(136), "hwdb: bad database: B6 at 136\n"),
        (DbFault::Depth(80), "hwdb: bad database: B7 at 80\n"),
        (DbFault::ChildOrder(160), "hwdb: bad database: B8 at 160\n"),
        (DbFault::StringOffset(0), "hwdb: bad database: B9 at 0\n"),
        (DbFault::KeyOrder(7), "hwdb: bad database: B10 at 7\n"),
        (
            DbFault::Priority(u64::MAX),
            "hwdb: bad database: B11 at 18446744073709551615\n",
        ),
    ];
    for (fault, line) in rows {
        says(
            &rt,
            rt.alloc(),
            &Refusal::from(ToolError::BadDatabase(fault)),
            line,
        );
    }
}

/// Compares the line of an error at a path.
fn says_of(
    rt: &impl Abort,
    alloc: Global,
    error: ToolError,
    path: &[u8],
    cause: Option<Cause>,
    line: &str,
) {
    says(rt, alloc, &Refusal::at(alloc, error, path, cause), line);
}

/// Of a path, with its cause; and which cause is that of a pipe whose reader went away.
#[test]
fn over_a_path(rt: HostRuntime) -> Result<(), Fail> {
    let rows = [
        (ToolError::Read, None, "hwdb: cannot read /x/y\n"),
        (
            ToolError::Read,
            Some(Cause::System(2)),
            "hwdb: cannot read /x/y: No such file or directory\n",
        ),
        (
            ToolError::Read,
            Some(Cause::Name),
            "hwdb: cannot read /x/y: the name is not UTF-8\n",
        ),
        (
            ToolError::Read,
            Some(Cause::Link),
            "hwdb: cannot read /x/y: Is a link to nothing\n",
        ),
        (
            ToolError::Read,
            Some(Cause::Folder),
            "hwdb: cannot read /x/y: Is a directory\n",
        ),
        (
            ToolError::Read,
            Some(Cause::Pipe),
            "hwdb: cannot read /x/y: Is a named pipe\n",
        ),
        (
            ToolError::Read,
            Some(Cause::Socket),
            "hwdb: cannot read /x/y: Is a socket\n",
        ),
        (
            ToolError::Read,
            Some(Cause::Device),
            "hwdb: cannot read /x/y: Is a device\n",
        ),
        (
            ToolError::Read,
            Some(Cause::Unknown),
            "hwdb: cannot read /x/y: Unknown error\n",
        ),
        (
            ToolError::Write,
            Some(Cause::System(28)),
            "hwdb: cannot write /x/y: No space left on device\n",
        ),
        (
            ToolError::Write,
            Some(Cause::Nothing),
            "hwdb: cannot write /x/y: Nothing was written\n",
        ),
        (
            ToolError::Write,
            Some(Cause::Memory),
            "hwdb: cannot write /x/y: Cannot allocate memory\n",
        ),
        (
            ToolError::TooLong,
            None,
            "hwdb: /x/y is longer than 268435456 bytes\n",
        ),
        (ToolError::Write, None, "hwdb: cannot write /x/y\n"),
        (ToolError::Memory, None, "hwdb: out of memory\n"),
        (
            ToolError::BadDatabase(DbFault::KeyOrder(7)),
            None,
            "hwdb: bad database: B10 at 7: /x/y: make it anew with 'hwdb update'\n",
        ),
        (
            ToolError::BadDatabase(DbFault::Signature),
            None,
            "hwdb: bad database: B2: /x/y: make it anew with 'hwdb update'\n",
        ),
        // Of this the path isn't said.
        (ToolError::BadPosition, None, "hwdb: bad position\n"),
    ];
    for (error, cause, line) in rows {
        says_of(&rt, rt.alloc(), error, b"/x/y", cause, line);
    }
    assert!(rt; Cause::System(32).is_broken_pipe());
    assert!(rt; !Cause::System(28).is_broken_pipe());
    assert!(rt; !Cause::Pipe.is_broken_pipe());
    Ok(())
}
