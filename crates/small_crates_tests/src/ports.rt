//! Real files, and files that do not fail.

use lx_ports::{DiskFiles, Files, LoadFault, SaveFault};
use memory_ports::SureFiles;
use std::fs;
use std::os::unix::fs::symlink;
use std::test::Fail;

/// Whether a load gave these bytes.
fn gave(answer: &Result<Vec<u8>, LoadFault>, bytes: &[u8]) -> bool {
    matches!(answer, Ok(loaded) if loaded.as_slice() == bytes)
}

/// A new file takes the place of the old one at the end of a save, and a failed save leaves nothing.
#[test]
fn a_real_save_is_whole_or_nothing(rt: HostRuntime) -> Result<(), Fail> {
    let alloc = rt.alloc();
    let folder = "folder_of_a_test.tmp";
    let (link, aim) = ("folder_of_a_test.tmp/link", "folder_of_a_test.tmp/aim");
    fs::create_dir(&rt, folder)?;
    symlink(&rt, "aim", link)?;
    let mut files = DiskFiles::new(rt);
    let first = files.save(link, &[1, 2]);
    let made = files.load(alloc, aim, 3);
    let second = files.save(link, &[3]);
    let replaced = files.load(alloc, aim, 3);
    let over_folder = files.save(folder, &[4]);
    let is_link = fs::symlink_metadata(&rt, link)?.is_symlink();
    fs::remove_file(&rt, link)?;
    fs::remove_file(&rt, aim)?;
    fs::remove_dir(&rt, folder)?;
    assert!(rt; first.is_ok() && second.is_ok() && is_link);
    assert!(rt; gave(&made, &[1, 2]) && gave(&replaced, &[3]));
    assert_eq!(rt; over_folder, Err(SaveFault::Failed));
    Ok(())
}

#[test]
fn sure_files_do_not_fail(rt: HostRuntime) -> Result<(), Fail> {
    let alloc = rt.alloc();
    let mut entries = Vec::new(alloc);
    entries.push((
        "a.obj".to_string(alloc)?,
        Vec::from_slice(alloc, &[1, 2, 3])?,
    ))?;
    let mut files = SureFiles::of(alloc, entries);
    assert!(rt; files.load(alloc, "a.obj", 3).is_ok());
    Ok(())
}
