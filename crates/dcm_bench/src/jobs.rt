// Jobs over memory, and the digest of what they leave.
use crate::digest::{Digest, mixed};
use crate::texts::{Text, numbered};
use arrayvec::ArrayVec;
use dcm_base::{MemIn, MemOut, Std, Watched};
use dcm_cli::run::run;
use dcm_cli::{Deidentify, Job, plan};
use dcm_files::{MemFile, MemSystem};
use dcm_tables::obey_in_memory;
use std::alloc::{AllocError, Global};
use std::io;
use std::io::{BufWriter, Write};

/// The bytes that an output is written by, as in the program.
const BUFFER: usize = 262_144;

/// The room for lines on standard error.
const LINES: usize = 4096;

/// The room for a table.
const TABLE: usize = 1 << 20;

/// The bytes that an input gives at a time, where nothing else is asked.
pub const PIECE: usize = 65_536;

/// The key of new unique identifiers.
const KEY: &[u8] = b"a key of thirty-two bytes, secret";

/// What stands for words that are refused.
const REFUSED: u64 = 1;

/// Jobs, one after another, and the digest of all that they left.
#[derive(Drop)]
pub struct Jobs {
    alloc: Global,
    total: u64,
}

/// The words of a line.
fn split<'a>(alloc: Global, line: &'a str) -> Result<Vec<&'a [u8]>, AllocError> {
    let mut words = Vec::new(alloc);
    for word in line.split(' ') {
        words.push(word.as_bytes())?;
    }
    Ok(words)
}

/// The digest of bytes.
fn sum_of(bytes: &[u8]) -> io::Result<u64> {
    let mut digest = Digest::new();
    digest.write_all(bytes)?;
    Ok(digest.sum())
}

/// The job of a plan, of which the taking out of identity gets a key.
fn keyed(job: Job) -> Job {
    match job {
        Job::Deidentify(what) => {
            let mut key = ArrayVec::new();
            let _ = key.try_extend_from_slice(KEY);
            Job::Deidentify(Deidentify {
                options: what.options,
                reports: what.reports,
                key,
            })
        }
        _ => job,
    }
}

/// Does a job, and answers the digest of its output, its lines and its status.
fn sum_of_job(alloc: Global, job: &Job, input: &[u8], step: usize) -> io::Result<u64> {
    let mut input = Watched::new(MemIn::new(input, step.max(1)));
    let writer = BufWriter::with_capacity(alloc, BUFFER, Digest::new())?;
    let mut out = Watched::new(Std::new(writer));
    let mut errors = Watched::new(MemOut::new(vec![in alloc; 0; LINES]?));
    let status = run(job, &mut input, &mut out, &mut errors).status;
    let (digest, _unwritten) = out.into_device().into_inner().into_parts();
    let lines = sum_of(errors.device().written())?;
    Ok(mixed(mixed(digest.sum(), lines), u64::from(status)))
}

impl Jobs {
    /// None yet.
    pub fn new(alloc: Global) -> Self {
        Jobs { alloc, total: 0 }
    }

    /// The digest of all.
    pub fn total(&self) -> u64 {
        self.total
    }

    /// Does what words ask for with an input that is given in pieces of this size.
    pub fn obey(&mut self, words: &[&[u8]], input: &[u8], step: usize) -> io::Result<()> {
        let sum = match plan(self.alloc, words) {
            Ok(planned) => sum_of_job(self.alloc, &keyed(planned.job), input, step)?,
            Err(_) => REFUSED,
        };
        self.total = mixed(self.total, sum);
        Ok(())
    }

    /// Does what the words of a line ask for.
    pub fn run(&mut self, line: &str, input: &[u8]) -> io::Result<()> {
        let words = split(self.alloc, line)?;
        self.obey(words.as_slice(), input, PIECE)
    }

    /// The same with an input that is given in pieces of this size.
    pub fn run_in_pieces(&mut self, line: &str, input: &[u8], step: usize) -> io::Result<()> {
        let words = split(self.alloc, line)?;
        self.obey(words.as_slice(), input, step)
    }

    /// Does one line, and then another with the output of the first.
    pub fn run_both(&mut self, first: &str, second: &str, input: &[u8]) -> io::Result<()> {
        let words = split(self.alloc, first)?;
        let Ok(planned) = plan(self.alloc, words.as_slice()) else {
            self.total = mixed(self.total, REFUSED);
            return Ok(());
        };
        let room = input.len().saturating_mul(8);
        let mut given = Watched::new(MemIn::new(input, PIECE));
        let mut out = Watched::new(Std::new(Vec::with_capacity(self.alloc, room)?));
        let mut errors = Watched::new(MemOut::new(vec![in self.alloc; 0; LINES]?));
        let status = run(&planned.job, &mut given, &mut out, &mut errors).status;
        let between = out.into_device().into_inner();
        let output = sum_of(between.as_slice())?;
        let lines = sum_of(errors.device().written())?;
        self.total = mixed(mixed(mixed(self.total, output), lines), u64::from(status));
        self.run(second, between.as_slice())
    }

    /// Makes a table of files, with the columns that the words of a line ask for.
    pub fn tabulate(&mut self, line: &str, files: &[Vec<u8>]) -> io::Result<()> {
        let alloc = self.alloc;
        let names = names_of(alloc, files.len())?;
        let mut words = split(alloc, line)?;
        for name in names.as_slice() {
            words.push(name.as_slice())?;
        }
        let files = mem_files(alloc, names.as_slice(), files)?;
        let room = MemOut::new(vec![in alloc; 0; TABLE]?);
        let system = MemSystem::new(files.as_slice(), b"", room);
        let errors = MemOut::new(vec![in alloc; 0; LINES]?);
        let obeyed = obey_in_memory(alloc, words.as_slice(), system, errors);
        let output = match &obeyed.written {
            Some(written) => sum_of(written.written())?,
            None => REFUSED,
        };
        let lines = sum_of(obeyed.errors.written())?;
        self.total = mixed(
            mixed(mixed(self.total, output), lines),
            u64::from(obeyed.status),
        );
        Ok(())
    }
}

/// Names of so many files.
fn names_of(alloc: Global, count: usize) -> Result<Vec<Text>, AllocError> {
    let mut names = Vec::new(alloc);
    for number in 0..count {
        names.push(numbered(b"series/image", number as u64, b".dcm"))?;
    }
    Ok(names)
}

/// Files with these names.
fn mem_files<'a>(
    alloc: Global,
    names: &'a [Text],
    files: &'a [Vec<u8>],
) -> Result<Vec<MemFile<'a>>, AllocError> {
    let mut all = Vec::new(alloc);
    for (name, file) in names.iter().zip(files) {
        all.push(MemFile {
            name: name.as_slice(),
            number: all.len() as u64,
            bytes: file.as_slice(),
        })?;
    }
    Ok(all)
}
