//! Files in the order of their names, as a list: one is put, dropped or counted.
ghost use Rattle.std.specs.Prelude.{◌≡◌, ◌≤◌, length, position, sum_by, Some, None, OnOk, OnErr, IfErr};
ghost use Rattle.std.specs.List.{position_or_len};
ghost use Rattle.project_form.specs.Files.{AreFiles, has_file, put_refusal, MOST_BYTES as most_bytes};
ghost use Rattle.project_form.specs.Kept.{is_kept_named, kept_length, kept_of, sources_of, stands_before_kept, with_kept, without_kept};
ghost use Rattle.project_form.specs.Puts.{IsPutFault};

use crate::fault::PutFault;
use crate::file::File;
use shape_data::Name;
use std::alloc::Global;
use std::cmp::Ordering;

/// The most files.
const MOST_FILES: usize = 256;

/// The most bytes of a file.
const MOST_FILE_BYTES: usize = 1_048_576;

/// The most bytes of all files together.
const MOST_BYTES: usize = 4_194_304;

/// Whether the file has this name.
fn is_named(name: &Name, file: &File) -> bool
    ensures { result ≡ is_kept_named name.now file.now }
{
    *file.name() == *name
}

/// Where the file of this name stands.
fn place_of(files: &[File], name: &Name) -> Option<usize>
    ensures { result ≡ position (is_kept_named name.now) files.now }
{
    files.iter().position(|file| is_named(name, file))
}

/// Whether the name stands before that of the file.
fn stands_before(name: &Name, file: &File) -> bool
    ensures { result ≡ stands_before_kept name.now file.now }
{
    name.cmp(file.name()) == Ordering::Less
}

/// Where the first file with a greater name stands.
fn first_greater(files: &[File], name: &Name) -> Option<usize>
    ensures { result ≡ position (stands_before_kept name.now) files.now }
{
    files.iter().position(|file| stands_before(name, file))
}

/// Where the first file with a greater name stands, or how many files there are.
fn place_before(files: &[File], name: &Name) -> usize
    ensures exact { result ≡ position_or_len (stands_before_kept name.now) files.now }
    ensures within { result ≤ length files.now }
{
    first_greater(files, name).unwrap_or(files.len())
}

/// How many bytes the files have together.
fn total(files: &[File]) -> usize
    requires { sum_by kept_length files.now ≤ most_bytes }
    ensures { result ≡ sum_by kept_length files.now }
{
    let mut count = 0;
    for file in files {
        count += file.len();
    }
    count
}

/// Of how many files the parse is kept.
pub fn count_kept(files: &[File]) -> u32
    requires { length files.now ≤ 256 }
    ensures { result ≡ kept_of files.now }
{
    let mut count = 0;
    for file in files {
        if file.is_kept() {
            count += 1;
        }
    }
    count
}

/// Puts other bytes under the name of the file that stands there.
fn replace(files: &mut Vec<File>, name: &Name, place: usize, bytes: Vec<u8>) -> Result<(), PutFault>
    requires there { position (is_kept_named name.now) files.old.items ≡ Some place }
    requires short { length bytes.items ≤ 1048576 }
    requires files { AreFiles (sources_of files.old.items) }
    ensures put { OnOk result (files.new.items ≡ with_kept name.now bytes.items files.old.items) }
    ensures may { OnOk result (put_refusal name.now bytes.items (sources_of files.old.items) ≡ None) }
    ensures fault { IfErr result (IsPutFault (put_refusal name.now bytes.items (sources_of files.old.items))) }
    ensures same { OnErr result (files.new.items ≡ files.old.items) }
{
    let others = total(files.as_slice()) - files[place].len();
    if others + bytes.len() > MOST_BYTES {
        return Err(PutFault::Code(144));
    }
    files[place].put(bytes);
    Ok(())
}

/// Puts a file more.
fn insert(alloc: Global, files: &mut Vec<File>, name: &Name, bytes: Vec<u8>) -> Result<(), PutFault>
    requires not_there { position (is_kept_named name.now) files.old.items ≡ None }
    requires short { length bytes.items ≤ 1048576 }
    requires files { AreFiles (sources_of files.old.items) }
    ensures put { OnOk result (files.new.items ≡ with_kept name.now bytes.items files.old.items) }
    ensures may { OnOk result (put_refusal name.now bytes.items (sources_of files.old.items) ≡ None) }
    ensures fault { IfErr result (IsPutFault (put_refusal name.now bytes.items (sources_of files.old.items))) }
    ensures same { OnErr result (files.new.items ≡ files.old.items) }
{
    if files.len() >= MOST_FILES {
        return Err(PutFault::Code(141));
    }
    if total(files.as_slice()) + bytes.len() > MOST_BYTES {
        return Err(PutFault::Code(144));
    }
    let place = place_before(files.as_slice(), name);
    let name = Name::of(alloc, name.as_bytes())?;
    files.insert(place, File::new(name, bytes))?;
    Ok(())
}

/// Puts a file under a name.
pub fn put_file(
    alloc: Global,
    files: &mut Vec<File>,
    name: &Name,
    bytes: Vec<u8>,
) -> Result<(), PutFault>
    requires { AreFiles (sources_of files.old.items) }
    ensures files { AreFiles (sources_of files.new.items) }
    ensures put { OnOk result (files.new.items ≡ with_kept name.now bytes.items files.old.items) }
    ensures may { OnOk result (put_refusal name.now bytes.items (sources_of files.old.items) ≡ None) }
    ensures fault { IfErr result (IsPutFault (put_refusal name.now bytes.items (sources_of files.old.items))) }
    ensures same { OnErr result (files.new.items ≡ files.old.items) }
{
    if bytes.len() > MOST_FILE_BYTES {
        return Err(PutFault::Code(143));
    }
    match place_of(files.as_slice(), name) {
        Some(place) => replace(files, name, place, bytes),
        None => insert(alloc, files, name, bytes),
    }
}

/// Drops the file of a name, and says whether there was one.
pub fn drop_named(files: &mut Vec<File>, name: &Name) -> bool
    requires { AreFiles (sources_of files.old.items) }
    ensures files { AreFiles (sources_of files.new.items) }
    ensures dropped { result ≡ has_file name.now (sources_of files.old.items) }
    ensures without { files.new.items ≡ without_kept name.now files.old.items }
{
    match place_of(files.as_slice(), name) {
        Some(place) => {
            drop(files.remove(place));
            true
        }
        None => false,
    }
}
