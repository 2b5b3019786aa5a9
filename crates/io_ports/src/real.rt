//! The trusted edge: sources over std's readers, sinks over std's writers, and a keeper over std's files. They tell
//! no content, since what a file or a terminal holds is not proved, and they count a fault at each error that std
//! answers.
ghost use Rattle.std.specs.Prelude.{◌≡◌, ◌≢◌, ◌≤◌, ◌<◌, length, if◌then◌else◌, is_err, IfOk, IfErr};
ghost use Rattle.std.specs.Io.KnownBytes.{ReadConsumes, WriteAppends};
ghost use Rattle.io_ports.specs.Counts.{next_count};
ghost use Rattle.io_ports.specs.Places.{IsWithin};

use crate::keeper::{Held, KeepFault, Keeper, MOST_HELD};
use crate::sink::{Sink, SinkFault};
use crate::source::{ReadEnd, ReadFailed, Source, read_up_to};
use std::alloc::Global;
use std::fs::OpenFile;
use std::io::{ErrorKind, Read, Write};
use std::rt::Files;
use std::{fs, io};

/// A reader, and how many of its calls failed.
#[derive(Drop)]
pub struct ReaderSource<R> {
    pub inner: R,
    pub faults: u64,
}

impl<R> ReaderSource<R> {
    /// A source over a reader.
    pub fn new(inner: R) -> Self
        ensures inner { result.inner ≡ inner }
        ensures faults { result.faults ≡ 0 }
    {
        ReaderSource { inner, faults: 0 }
    }
}

impl<R: Read> Source for ReaderSource<R> {
    ghost use Rattle.std.specs.declared.option.Option.TheVariants.{None};

    ghost left = { λ _. None };

    ghost faults = { λ s. s.faults };

    fn read(&mut self, buf: &mut [u8]) -> Result<usize, ReadFailed>
        requires { 0 < length buf.old }

        ensures bound { IfOk result (λ count. count ≤ length buf.new) }
        ensures faults { self.new.faults ≡
            (if is_err result then next_count self.old.faults else self.old.faults) }
        ensures never_falls { self.old.faults ≤ self.new.faults }

        // What std says of a reader in memory is passed on to those who call at that type.
        ensures passed { ReadConsumes
            (R.remaining self.old.inner) (R.remaining self.new.inner) result buf.new }
    {
        match self.inner.read(buf) {
            Ok(count) => Ok(count),
            Err(_) => {
                self.faults = self.faults.saturating_add(1);
                Err(ReadFailed)
            }
        }
    }
}

/// A writer, and how many of its calls failed.
#[derive(Drop)]
pub struct WriterSink<W> {
    pub inner: W,
    pub faults: u64,
}

impl<W> WriterSink<W> {
    /// A sink over a writer.
    pub fn new(inner: W) -> Self
        ensures inner { result.inner ≡ inner }
        ensures faults { result.faults ≡ 0 }
    {
        WriterSink { inner, faults: 0 }
    }
}

impl<W: Write> Sink for WriterSink<W> {
    ghost use Rattle.std.specs.declared.option.Option.TheVariants.{None};

    ghost held = { λ _. None };

    ghost faults = { λ s. s.faults };

    /// A writer that takes no byte has failed too.
    fn write(&mut self, _alloc: Global, bytes: &[u8]) -> Result<usize, SinkFault>
        requires { 0 < length bytes.now }

        ensures some { IfOk result (λ count. 1 ≤ count) }
        ensures bound { IfOk result (λ count. count ≤ length bytes.now) }
        ensures failed { IfErr result (λ fault. fault ≡ SinkFault.Failed) }
        ensures faults { self.new.faults ≡
            (if is_err result then next_count self.old.faults else self.old.faults) }
        ensures never_falls { self.old.faults ≤ self.new.faults }

        // What std says of a writer in memory is passed on to those who call at that type.
        ensures passed { WriteAppends
            (W.contents self.old.inner) (W.contents self.new.inner) result bytes.now }
    {
        match self.inner.write(bytes) {
            Ok(count) if 0 < count => Ok(count),
            _ => {
                self.faults = self.faults.saturating_add(1);
                Err(SinkFault::Failed)
            }
        }
    }
}

/// What a file is called while it is written, behind its path.
const UNFINISHED: &str = ".unfinished";

/// A file system, and how many calls failed on it.
#[derive(Drop)]
pub struct FileKeeper<R> {
    pub files: R,
    pub faults: u64,
}

impl<R> FileKeeper<R> {
    /// A keeper of the files of a file system, whose paths are those of the files.
    pub fn new(files: R) -> Self
        ensures files { result.files ≡ files }
        ensures faults { result.faults ≡ 0 }
    {
        FileKeeper { files, faults: 0 }
    }

    /// Counts a failed call.
    fn failed(&mut self) -> KeepFault
        ensures fault { result ≡ KeepFault.Failed }
        ensures files { self.new.files ≡ self.old.files }
        ensures faults { self.new.faults ≡ next_count self.old.faults }
        ensures never_falls { self.old.faults ≤ self.new.faults }
    {
        self.faults = self.faults.saturating_add(1);
        KeepFault::Failed
    }
}

impl<R: Files> Keeper for FileKeeper<R> {
    ghost use Rattle.std.specs.declared.option.Option.TheVariants.{None};

    ghost kept = { λ _ _. None };

    ghost faults = { λ s. s.faults };

    fn read_all(&mut self, alloc: Global, path: &str) -> Result<Held, KeepFault>
        ensures within { IfOk result (λ held. IsWithin held) }
        ensures counted { result ≡ Err KeepFault.Failed → self.new.faults ≡ next_count self.old.faults }
        ensures not_counted { result ≢ Err KeepFault.Failed → self.new.faults ≡ self.old.faults }
        ensures never_falls { self.old.faults ≤ self.new.faults }
    {
        let file = match fs::open(&self.files, path) {
            Ok(file) => file,
            Err(error) if error.kind() == ErrorKind::NotFound => return Ok(Held::Absent),
            Err(_) => return Err(self.failed()),
        };
        let read = read_up_to(alloc, &mut ReaderSource::new(file), MOST_HELD + 1);
        match read.end {
            ReadEnd::End => Ok(Held::Bytes(read.bytes)),
            ReadEnd::Limit => Ok(Held::TooLong),
            ReadEnd::Failed => Err(self.failed()),
            ReadEnd::OutOfMemory => Err(KeepFault::OutOfMemory),
        }
    }

    /// The bytes are written to a file beside the path, which then takes the path's place. So a process that ends in
    /// between leaves the old bytes.
    fn replace(&mut self, alloc: Global, path: &str, bytes: &[u8]) -> Result<(), KeepFault>
        ensures counted { result ≡ Err KeepFault.Failed → self.new.faults ≡ next_count self.old.faults }
        ensures not_counted { result ≢ Err KeepFault.Failed → self.new.faults ≡ self.old.faults }
        ensures never_falls { self.old.faults ≤ self.new.faults }
    {
        let Ok(beside) = format!(in alloc; "{path}{UNFINISHED}") else {
            return Err(KeepFault::OutOfMemory);
        };
        match put_in_place(&self.files, path, beside.as_str(), bytes) {
            Ok(()) => Ok(()),
            Err(_) => Err(self.failed()),
        }
    }
}

/// Gives a path these bytes, by a file of another path that then takes its place. What is no regular file, as a
/// terminal, is written to as it stands.
fn put_in_place<R: Files>(files: &R, path: &str, beside: &str, bytes: &[u8]) -> io::Result<()> {
    if fs::metadata(files, path).is_ok_and(|there| !there.is_file()) {
        return fs::write(files, path, bytes);
    }
    let put = write_new(files, beside, bytes).and_then(|()| fs::rename(files, beside, path));
    if put.is_err() {
        let _unfinished = fs::remove_file(files, beside);
    }
    put
}

/// Makes a file of these bytes, which are on the disk at the return.
fn write_new<R: Files>(files: &R, path: &str, bytes: &[u8]) -> io::Result<()> {
    let mut file = fs::create(files, path)?;
    file.write_all(bytes)?;
    file.sync_all()
}
