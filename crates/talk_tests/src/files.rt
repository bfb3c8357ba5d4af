//! A shelf that is a file, in a folder of the test's own.

use crate::expected::{expect_same, expect_that};
use crate::snapshots::WITH_PORTS;
use gas_snapshot::{FileShelf, Shelf};
use std::fs::Permissions;
use std::os::unix::fs as unix_fs;
use std::os::unix::fs::PermissionsExt;
use std::process::Abort;
use std::rt::Files;
use std::{fs, process};

// A gas with ports and without particles, in version 1.
fn snapshot() -> [u8; 1064] {
    let mut bytes = [0; 1064];
    bytes[..40].copy_from_slice(&WITH_PORTS);
    bytes
}

// A folder of a process's own.
fn folder_of(rt: &(impl Abort + AllocGlobal), id: u32) -> String {
    format!(in rt.alloc(); "/tmp/gaslab_shelf_{id}").expect(rt, "memory")
}

fn path_in(rt: &(impl Abort + AllocGlobal), folder: &str) -> String {
    format!(in rt.alloc(); "{folder}/gas").expect(rt, "memory")
}

// Seat 7's draft.
fn draft_of(rt: &(impl Abort + AllocGlobal), path: &str) -> String {
    format!(in rt.alloc(); "{path}.7.tmp").expect(rt, "memory")
}

fn has_no_draft(rt: &(impl Abort + AllocGlobal + Files), path: &str) {
    expect_that(&rt, fs::metadata(rt, draft_of(rt, path).as_str()).is_err());
}

fn holds_the_snapshot(rt: &(impl Abort + AllocGlobal + Files), path: &str) {
    let read = fs::read(rt, path).expect(rt, "a file");
    expect_same(&rt, read.as_slice(), snapshot().as_slice());
}

// A put succeeds or fails, and so many have failed then.
fn puts<K: Shelf>(rt: &impl Abort, shelf: &mut K, bytes: &[u8], succeeds: bool, failures: u64) {
    let done = shelf.put(bytes).is_ok();
    expect_same(&rt, (done, shelf.failures()), (succeeds, failures));
}

fn takes_the_place_of_the_last<K: Shelf>(
    rt: &(impl Abort + AllocGlobal + Files),
    shelf: &mut K,
    path: &str,
) {
    puts(rt, shelf, [1, 2, 3].as_slice(), true, 0);
    puts(rt, shelf, snapshot().as_slice(), true, 0);
    has_no_draft(rt, path);
    holds_the_snapshot(rt, path);
}

// What a link at the draft's place names is left as it was. The file keeps its mode.
fn follows_no_draft<K: Shelf>(
    rt: &(impl Abort + AllocGlobal + Files),
    shelf: &mut K,
    path: &str,
    target: &str,
) {
    fs::write(rt, target, b"a text").expect(rt, "a file");
    unix_fs::symlink(rt, target, draft_of(rt, path).as_str()).expect(rt, "a link");
    fs::set_permissions(rt, path, Permissions::from_mode(0o600)).expect(rt, "a mode");
    puts(rt, shelf, snapshot().as_slice(), true, 0);
    has_no_draft(rt, path);
    holds_the_snapshot(rt, path);
    let read = fs::read(rt, target).expect(rt, "a file");
    expect_same(&rt, read.as_slice(), b"a text".as_slice());
    let told = fs::symlink_metadata(rt, path).expect(rt, "a file");
    expect_same(&rt, told.permissions().mode() & 0o777, 0o600);
}

// What is no regular file stays: the put fails and leaves no draft.
fn leaves_links_and_folders<K: Shelf>(
    rt: &(impl Abort + AllocGlobal + Files),
    shelf: &mut K,
    path: &str,
    target: &str,
) {
    fs::remove_file(rt, path).expect(rt, "a file");
    unix_fs::symlink(rt, target, path).expect(rt, "a link");
    puts(rt, shelf, snapshot().as_slice(), false, 2);
    let read = fs::read(rt, path).expect(rt, "the link's file");
    expect_same(&rt, read.as_slice(), b"a text".as_slice());
    fs::remove_file(rt, path).expect(rt, "a link");
    fs::create_dir_all(rt, path).expect(rt, "a new folder");
    puts(rt, shelf, snapshot().as_slice(), false, 3);
    has_no_draft(rt, path);
}

// A folder where the draft would be: the put fails, is counted, and leaves the file that was there.
fn fails_and_leaves_the_file<K: Shelf>(
    rt: &(impl Abort + AllocGlobal + Files),
    shelf: &mut K,
    path: &str,
) {
    fs::create_dir_all(rt, draft_of(rt, path).as_str()).expect(rt, "a new folder");
    puts(rt, shelf, [1, 2, 3].as_slice(), false, 1);
    holds_the_snapshot(rt, path);
    fs::remove_dir_all(rt, draft_of(rt, path).as_str()).expect(rt, "no folder");
}

#[test]
fn file_shelf_keeps_the_last_put_that_succeeds(rt: HostRuntime) {
    let folder = folder_of(&rt, process::id(rt.process()));
    fs::create_dir_all(&rt, folder.as_str()).expect(&rt, "a new folder");
    let path = path_in(&rt, folder.as_str());
    let mut shelf = FileShelf::new(rt.alloc(), rt, path.as_str(), 7).expect(&rt, "memory");
    takes_the_place_of_the_last(&rt, &mut shelf, path.as_str());
    let target = format!(in rt.alloc(); "{folder}/target").expect(&rt, "memory");
    follows_no_draft(&rt, &mut shelf, path.as_str(), target.as_str());
    fails_and_leaves_the_file(&rt, &mut shelf, path.as_str());
    leaves_links_and_folders(&rt, &mut shelf, path.as_str(), target.as_str());
    fs::remove_dir_all(&rt, folder.as_str()).expect(&rt, "no folder");
    // If the folder is gone, the put fails and is counted.
    puts(&rt, &mut shelf, snapshot().as_slice(), false, 4);
}

#[test]
fn refused_shelf_writes_nothing(rt: HostRuntime) {
    if let Ok(shelf) = FileShelf::new(rt.alloc(), rt, "/tmp/gaslab_never_written", 3) {
        expect_same(&rt, shelf.failures(), 0);
    }
    expect_that(
        &rt,
        fs::metadata(&rt, "/tmp/gaslab_never_written.3.tmp").is_err(),
    );
}
