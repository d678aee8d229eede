//! The calls of the commands without their clauses. A test compares what they did, and its proof is short if it has
//! only plain values before it.
use hwdb_answers::ToolError;
use hwdb_io::Sink;
use std::alloc::Global;

/// What `query` prints of a device.
pub fn query<O: Sink>(
    alloc: Global,
    bytes: &[u8],
    device: &[u8],
    out: &mut O,
) -> Result<(), ToolError> {
    hwdb_answers::run_query(alloc, bytes, device, out)
}

/// What `list` prints.
pub fn list<O: Sink>(
    alloc: Global,
    bytes: &[u8],
    device: &[u8],
    after: Option<&str>,
    limit: Option<u64>,
    out: &mut O,
) -> Result<(), ToolError> {
    hwdb_answers::run_list(alloc, bytes, device, after, limit, out)
}

/// What `ask` prints of a text file.
pub fn ask<O: Sink, E: Sink>(
    alloc: Global,
    file: &str,
    bytes: &[u8],
    device: &[u8],
    out: &mut O,
    err: &mut E,
) -> Result<(), ToolError> {
    hwdb_answers::ask(alloc, file, bytes, device, out, err)
}
