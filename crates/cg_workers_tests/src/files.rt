//! Files read and replaced: whole, half written, too long, missing; and the generations that they keep.

use cg_host::{Replacement, read_file, replace, store_generation, stored_generation};
use cg_links::write_bytes;
use cg_testing::{expect, expect_eq};
use cg_types::{Fault, Generation};
use std::alloc::Global;
use std::fs;
use std::fs::{File, Permissions};
use std::os::unix::fs::{MetadataExt, PermissionsExt, chown, symlink};
use std::rt::Files;
use std::test::Fail;

// The bytes of a file, or its fault.
fn found<R: Files<File = File>>(
    rt: &R,
    alloc: Global,
    path: &str,
) -> Result<Option<Vec<u8>>, Fault> {
    read_file(rt, alloc, path, 64)
}

// Tests whether a file has these bytes.
fn has<R: Files<File = File>>(rt: &R, alloc: Global, path: &str, bytes: &[u8]) -> bool {
    match found(rt, alloc, path) {
        Ok(Some(read)) => read.as_slice() == bytes,
        _ => false,
    }
}

// Tests whether there is no such file.
fn is_missing<R: Files<File = File>>(rt: &R, alloc: Global, path: &str) -> bool {
    match found(rt, alloc, path) {
        Ok(found) => found.is_none(),
        Err(_) => false,
    }
}

#[test]
fn a_file_is_made_and_replaced(rt: HostRuntime) -> Result<(), Fail> {
    let alloc = rt.alloc();
    let path = "cg_files_replaced";
    let _ = fs::remove_file(&rt, path);
    expect!(is_missing(&rt, alloc, path))?;
    expect!(replace(&rt, alloc, path, b"old and longer").is_ok())?;
    expect!(has(&rt, alloc, path, b"old and longer"))?;
    expect!(replace(&rt, alloc, path, b"new").is_ok())?;
    expect!(has(&rt, alloc, path, b"new"))?;
    expect!(is_missing(&rt, alloc, "cg_files_replaced.new"))?;
    let _ = fs::remove_file(&rt, path);
    Ok(())
}

#[test]
fn a_file_that_is_not_put_in_place_stays_aside(rt: HostRuntime) -> Result<(), Fail> {
    let alloc = rt.alloc();
    let path = "cg_files_begun";
    expect!(replace(&rt, alloc, path, b"old").is_ok())?;
    let mut new = Replacement::begin(&rt, alloc, path)?;
    write_bytes(&mut new.link, b"half")?;
    expect!(has(&rt, alloc, path, b"old"))?;
    expect!(has(&rt, alloc, "cg_files_begun.new", b"half"))?;
    new.put(&rt, path)?;
    expect!(has(&rt, alloc, path, b"half"))?;
    let _ = fs::remove_file(&rt, path);
    Ok(())
}

#[test]
fn a_file_in_no_folder_can_not_be_made(rt: HostRuntime) -> Result<(), Fail> {
    let alloc = rt.alloc();
    for path in ["cg_files_no_folder/file", "", "cg\0files"] {
        expect!(
            replace(&rt, alloc, path, b"new") == Err(Fault::WriteFault),
            "{path:?}"
        )?;
    }
    Ok(())
}

// Expects that what is at a path can't be replaced, and that no file is made beside it.
fn is_refused<R: Files<File = File>>(
    rt: &R,
    alloc: Global,
    path: &str,
    aside: &str,
) -> Result<(), Fail> {
    expect!(replace(rt, alloc, path, b"new") == Err(Fault::WriteFault))?;
    expect!(Replacement::begin(rt, alloc, path).err() == Some(Fault::WriteFault))?;
    expect!(is_missing(rt, alloc, aside))
}

#[test]
fn what_is_no_regular_file_is_not_replaced(rt: HostRuntime) -> Result<(), Fail> {
    let (alloc, path, link) = (rt.alloc(), "cg_files_folder", "cg_files_to_folder");
    let _ = fs::remove_dir(&rt, path);
    let _ = fs::remove_file(&rt, link);
    let new = Replacement::begin(&rt, alloc, path)?;
    fs::create_dir(&rt, path)?;
    expect!(new.put(&rt, path) == Err(Fault::WriteFault))?;
    fs::remove_file(&rt, "cg_files_folder.new")?;
    is_refused(&rt, alloc, path, "cg_files_folder.new")?;
    symlink(&rt, path, link)?;
    is_refused(&rt, alloc, link, "cg_files_to_folder.new")?;
    expect!(is_missing(&rt, alloc, "cg_files_folder.new"))?;
    is_refused(&rt, alloc, "/dev/full", "/dev/full.new")?;
    fs::remove_file(&rt, link)?;
    fs::remove_dir(&rt, path)?;
    Ok(())
}

#[test]
fn a_symlink_stays_and_its_file_is_replaced(rt: HostRuntime) -> Result<(), Fail> {
    let (alloc, path, link) = (rt.alloc(), "cg_files_linked", "cg_files_link");
    let _ = fs::remove_file(&rt, path);
    let _ = fs::remove_file(&rt, link);
    symlink(&rt, path, link)?;
    is_refused(&rt, alloc, link, "cg_files_link.new")?;
    expect!(is_missing(&rt, alloc, path))?;
    expect!(replace(&rt, alloc, path, b"old").is_ok())?;
    expect!(replace(&rt, alloc, link, b"new").is_ok())?;
    expect!(fs::symlink_metadata(&rt, link)?.is_symlink())?;
    expect!(has(&rt, alloc, path, b"new"))?;
    fs::remove_file(&rt, link)?;
    fs::remove_file(&rt, path)?;
    Ok(())
}

#[test]
fn a_new_file_is_not_opened_through_a_symlink(rt: HostRuntime) -> Result<(), Fail> {
    let (alloc, path, other) = (rt.alloc(), "cg_files_aside", "cg_files_other");
    let _ = fs::remove_file(&rt, path);
    let _ = fs::remove_file(&rt, "cg_files_aside.new");
    expect!(replace(&rt, alloc, other, b"other").is_ok())?;
    symlink(&rt, other, "cg_files_aside.new")?;
    expect!(replace(&rt, alloc, path, b"new").is_ok())?;
    expect!(has(&rt, alloc, path, b"new"))?;
    expect!(has(&rt, alloc, other, b"other"))?;
    fs::remove_file(&rt, path)?;
    fs::remove_file(&rt, other)?;
    Ok(())
}

#[test]
fn a_new_file_has_the_mode_and_the_owner_of_the_old_one(rt: HostRuntime) -> Result<(), Fail> {
    let (alloc, path) = (rt.alloc(), "cg_files_mode");
    let _ = fs::remove_file(&rt, path);
    for mode in [0o600, 0o640, 0o666] {
        expect!(replace(&rt, alloc, path, b"old").is_ok())?;
        fs::set_permissions(&rt, path, Permissions::from_mode(mode))?;
        // only the system's administrator may give a file away
        let _ = chown(&rt, path, Some(65534), Some(65534));
        let old = fs::metadata(&rt, path)?;
        expect!(replace(&rt, alloc, path, b"new").is_ok())?;
        let new = fs::metadata(&rt, path)?;
        expect!(has(&rt, alloc, path, b"new"))?;
        expect_eq!(new.mode() & 0o777, mode)?;
        expect_eq!((new.uid(), new.gid()), (old.uid(), old.gid()))?;
    }
    fs::remove_file(&rt, path)?;
    Ok(())
}

#[test]
fn a_file_longer_than_its_limit_is_no_text(rt: HostRuntime) -> Result<(), Fail> {
    let alloc = rt.alloc();
    let path = "cg_files_long";
    expect!(replace(&rt, alloc, path, &[b'x'; 64]).is_ok())?;
    expect!(has(&rt, alloc, path, &[b'x'; 64]))?;
    expect!(replace(&rt, alloc, path, &[b'x'; 65]).is_ok())?;
    expect!(found(&rt, alloc, path).err() == Some(Fault::BadText))?;
    expect!(found(&rt, alloc, "/dev/zero").err() == Some(Fault::BadText))?;
    let _ = fs::remove_file(&rt, path);
    Ok(())
}

#[test]
fn a_folder_can_not_be_read(rt: HostRuntime) -> Result<(), Fail> {
    expect!(found(&rt, rt.alloc(), ".").err() == Some(Fault::ReadFault))?;
    expect!(found(&rt, rt.alloc(), "/dev/null/x").err() == Some(Fault::ReadFault))
}

// Tests whether a file that holds these bytes keeps no generation, as `BadText`.
fn refuses<R: Files<File = File>>(rt: &R, alloc: Global, path: &str, bytes: &[u8]) -> bool {
    replace(rt, alloc, path, bytes).is_ok()
        && stored_generation(rt, alloc, path) == Err(Fault::BadText)
}

#[test]
fn a_generation_is_kept(rt: HostRuntime) -> Result<(), Fail> {
    let alloc = rt.alloc();
    let path = "cg_files_generation";
    let _ = fs::remove_file(&rt, path);
    expect!(stored_generation(&rt, alloc, path) == Ok(None))?;
    for number in [1, 1700000000, 2147483647] {
        let generation = Generation::new(number).ok_or("generation")?;
        store_generation(&rt, alloc, path, generation)?;
        expect!(stored_generation(&rt, alloc, path) == Ok(Some(generation)))?;
    }
    for bytes in [
        b"".as_slice(),
        b"0\n",
        b"x",
        b"5\n\n",
        b"2147483648\n",
        b"123456789012",
    ] {
        expect!(refuses(&rt, alloc, path, bytes), "{bytes:?}")?;
    }
    expect!(stored_generation(&rt, alloc, ".") == Err(Fault::ReadFault))?;
    let _ = fs::remove_file(&rt, path);
    Ok(())
}
