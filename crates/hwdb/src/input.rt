//! What a run reads as its input: standard input, or of `scan` the device that its words name.
use hwdb_tool::{Job, Task, WordsFault, open_below, read_words, root_of, scanned_path};
use std::alloc::AllocError;
use std::fs::File;
use std::io::{self, ErrorKind, Read, Stdin};

/// The command that reads a device in place of standard input.
const SCAN: &str = "scan";

/// What is read.
#[derive(Drop)]
pub enum Input {
    Standard(Stdin),
    Device(File),
    /// A device that can't be opened. The first read fails for that reason, so that the program says it as of any read.
    Unopened(Option<io::Error>),
}

impl Read for Input {
    fn read(&mut self, buf: &mut [u8]) -> io::Result<usize> {
        match self {
            Input::Standard(stream) => stream.read(buf),
            Input::Device(file) => file.read(buf),
            Input::Unopened(error) => match error.take() {
                Some(error) => Err(error),
                None => Err(io::Error::from(ErrorKind::Other)),
            },
        }
    }
}

/// The path of the device that a job reads, if it reads one.
fn device_of(rt: &HostRuntime, job: &Job) -> Result<Option<String>, AllocError> {
    match &job.task {
        Task::Scan(args) => { scanned_path(rt.alloc(), root_of(job), args.device.as_str()) },
        _ => Ok(None),
    }
}

/// A device that is opened, or isn't.
fn opened(rt: &HostRuntime, root: &str, path: &str) -> Input {
    match open_below(rt.alloc(), rt, root, path) {
        Ok(file) => Input::Device(file),
        Err(error) => Input::Unopened(Some(error)),
    }
}

/// What a run with these words reads. The only error is want of memory.
pub fn input_of(rt: &HostRuntime, words: &[String]) -> Result<Input, AllocError> {
    if !words.iter().any(|word| word.as_str() == SCAN) {
        return Ok(Input::Standard(rt.stdin()));
    }
    let job = match read_words(rt.alloc(), words) {
        Ok(job) => job,
        Err(WordsFault::Memory) => return Err(AllocError),
        Err(_) => return Ok(Input::Standard(rt.stdin())),
    };
    match device_of(rt, &job)? {
        Some(path) => Ok(opened(rt, root_of(&job), path.as_str())),
        None => Ok(Input::Standard(rt.stdin())),
    }
}
