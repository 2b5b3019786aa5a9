//! Each keeper through its bound, with faults at given calls, and the trusted edge over real files.
use io_ports::{FileKeeper, Held, KeepFault, Keeper, MemoryKeeper, SteadyKeeper};
use std::alloc::{AllocError, Global};
use std::fs::File;
use std::path::PathBuf;
use std::process::Abort;
use std::test::Fail;
use std::{env, fs};

/// What a reading answers, with the bytes as a slice.
#[derive(Clone, Copy, PartialEq, Eq, Debug)]
enum Want<'a> {
    Absent,
    TooLong,
    Bytes(&'a [u8]),
    Failed,
}

/// A reading of this path answers so.
fn reads<K: Keeper>(rt: &impl Abort, alloc: Global, keeper: &mut K, path: &str, want: Want<'_>) {
    match keeper.read_all(alloc, path) {
        Ok(Held::Absent) => assert_eq!(rt; Want::Absent, want, "nothing under {path}"),
        Ok(Held::TooLong) => assert_eq!(rt; Want::TooLong, want, "too much under {path}"),
        Ok(Held::Bytes(bytes)) => {
            assert_eq!(rt;
                Want::Bytes(bytes.as_slice()),
                want,
                "the bytes under {path}"
            );
        }
        Err(fault) => {
            assert_eq!(rt; fault, KeepFault::Failed);
            assert_eq!(rt; Want::Failed, want, "a fault under {path}");
        }
    }
}

/// Two paths are there once they have bytes, each with its own, and keep the last ones.
fn keeps_paths_apart<K: Keeper>(
    rt: &impl Abort,
    alloc: Global,
    keeper: &mut K,
    one: &str,
    other: &str,
) {
    reads(rt, alloc, keeper, one, Want::Absent);
    assert_eq!(rt; keeper.replace(alloc, one, b"first"), Ok(()));
    reads(rt, alloc, keeper, other, Want::Absent);
    assert_eq!(rt; keeper.replace(alloc, other, b""), Ok(()));
    assert_eq!(rt; keeper.replace(alloc, one, b"the second"), Ok(()));
    reads(rt, alloc, keeper, one, Want::Bytes(b"the second"));
    reads(rt, alloc, keeper, other, Want::Bytes(b""));
}

/// A keeper whose calls of these numbers fail.
fn keeper_of(alloc: Global, fail_at: &[u64]) -> Result<MemoryKeeper, AllocError> {
    MemoryKeeper::new(alloc, Vec::from_slice(alloc, fail_at)?)
}

#[test]
fn keepers_in_memory_keep_paths_apart(rt: HostRuntime) {
    let alloc = rt.alloc();
    let mut steady = SteadyKeeper::new(alloc).expect(&rt, "memory");
    keeps_paths_apart(&rt, alloc, &mut steady, "s", "t");
    assert_eq!(rt;
        steady.get("s").unwrap_or(b"none"),
        b"the second".as_slice()
    );
    assert!(rt; steady.get("u").is_none());
    let mut memory = keeper_of(alloc, &[]).expect(&rt, "memory");
    keeps_paths_apart(&rt, alloc, &mut memory, "s", "");
    assert!(rt; memory.get("").unwrap_or(b"none").is_empty());
}

#[test]
fn the_calls_that_are_listed_fail(rt: HostRuntime) {
    let alloc = rt.alloc();
    let mut keeper = keeper_of(alloc, &[0, 2, 4]).expect(&rt, "memory");
    reads(&rt, alloc, &mut keeper, "s", Want::Failed);
    assert_eq!(rt; keeper.replace(alloc, "s", b"old"), Ok(()));
    assert_eq!(rt; keeper.replace(alloc, "s", b"new"), Err(KeepFault::Failed));
    reads(&rt, alloc, &mut keeper, "s", Want::Bytes(b"old"));
    reads(&rt, alloc, &mut keeper, "s", Want::Failed);
    reads(&rt, alloc, &mut keeper, "s", Want::Bytes(b"old"));
}

/// An empty folder.
fn new_folder(rt: &HostRuntime, name: &str) -> Result<PathBuf, Fail> {
    let folder = env::temp_dir(rt)?.join(rt.alloc(), name)?;
    if fs::exists(rt, folder.as_path())? {
        fs::remove_dir_all(rt, folder.as_path())?;
    }
    fs::create_dir(rt, folder.as_path())?;
    Ok(folder)
}

#[test]
fn a_file_with_a_byte_too_many_is_too_long(rt: HostRuntime) -> Result<(), Fail> {
    let alloc = rt.alloc();
    let folder = new_folder(&rt, "heapan_keepers_tests_long")?;
    let path = folder.join(alloc, "s")?;
    File::create(&rt, path.as_path())?.set_len(67_108_865)?;
    let mut keeper = FileKeeper::new(&rt);
    reads(&rt, alloc, &mut keeper, path.as_str(), Want::TooLong);
    fs::remove_dir_all(&rt, folder.as_path())?;
    Ok(())
}

#[test]
fn files_are_replaced_and_read(rt: HostRuntime) -> Result<(), Fail> {
    let alloc = rt.alloc();
    let folder = new_folder(&rt, "heapan_keepers_tests")?;
    let one = folder.join(alloc, "s")?;
    let other = folder.join(alloc, "t")?;
    let mut keeper = FileKeeper::new(&rt);
    keeps_paths_apart(&rt, alloc, &mut keeper, one.as_str(), other.as_str());
    assert_eq!(rt; keeper.faults, 0);

    // Nothing but the two files is left behind.
    let unfinished = folder.join(alloc, "s.unfinished")?;
    assert!(rt; !fs::exists(&rt, unfinished.as_path())?);

    // A folder is no file to read or to replace, and a file in no folder can't be made.
    reads(&rt, alloc, &mut keeper, folder.as_str(), Want::Failed);
    assert_eq!(rt;
        keeper.replace(alloc, folder.as_str(), b"x"),
        Err(KeepFault::Failed)
    );
    let nowhere = folder.join(alloc, "no/s")?;
    reads(&rt, alloc, &mut keeper, nowhere.as_str(), Want::Absent);
    assert_eq!(rt;
        keeper.replace(alloc, nowhere.as_str(), b"x"),
        Err(KeepFault::Failed)
    );
    assert_eq!(rt; keeper.faults, 3);
    fs::remove_dir_all(&rt, folder.as_path())?;
    Ok(())
}
