//! Journals that are kept on the disk: links, and what nobody may lose by them.

use crate::tests::check_same;
use outcomes::Unwatched;
use pcml_files::SystemFiles;
use pcml_tool::command;
use std::io::ErrorKind;
use std::os::unix::fs::{PermissionsExt, symlink};
use std::process::Abort;
use std::rt::{Env, Files};
use std::sync::Wait;
use std::test::Fail;
use std::thread::Threads;
use std::{env, fs};

const SCRIPT: &str = "process a { sync always (7); }";

const JOURNAL: &str = "1 a.0.0 always (7)\n";

const OLD: &str = "old";

/// The name of a file in a folder.
fn at<R: AllocGlobal>(rt: &R, folder: &str, name: &str) -> Result<String, Fail> {
    Ok(format!(in rt.alloc(); "{folder}/{name}")?)
}

/// A new folder, with the script in it.
fn new_folder<R: AllocGlobal + Env + Files>(rt: &R) -> Result<String, Fail> {
    let all = env::temp_dir(rt)?.into_string();
    for number in 0..u32::MAX {
        let folder = format!(in rt.alloc(); "{all}/pcml_tests.{number}")?;
        match fs::create_dir(rt, folder.as_str()) {
            Ok(()) => {
                fs::write(rt, at(rt, &folder, "script")?.as_str(), SCRIPT)?;
                return Ok(folder);
            }
            Err(error) if error.kind() == ErrorKind::AlreadyExists => {}
            Err(error) => return Err(error.into()),
        }
    }
    Ok(all)
}

/// Runs the script of a folder and keeps its journal there under a name, with this on the error stream.
fn keep<R: Abort + AllocGlobal + Files + Input + Threads + Wait + Sync>(
    rt: &R,
    folder: &str,
    name: &str,
    err: &str,
) -> Result<(), Fail> {
    let script = at(rt, folder, "script")?;
    let to = at(rt, folder, name)?;
    let words = ["run", script.as_str(), "--quiet", "--journal", to.as_str()];
    let mut files = SystemFiles::new(rt);
    let mut out = Vec::new(rt.alloc());
    let mut told = Vec::new(rt.alloc());
    let status = command(
        rt,
        rt.alloc(),
        &words,
        &mut files,
        &mut out,
        &mut told,
        &mut Unwatched,
    );
    check_same(rt, told.as_slice(), err.as_bytes(), name);
    check_same(rt, status, u8::from(!err.is_empty()), name);
    Ok(())
}

/// The file of a folder holds this text.
fn check_file<R: Abort + AllocGlobal + Files>(
    rt: &R,
    folder: &str,
    name: &str,
    text: &str,
) -> Result<(), Fail> {
    let found = fs::read_to_string(rt, at(rt, folder, name)?.as_str())?;
    check_same(rt, found.as_str(), text, name);
    Ok(())
}

fn check_link<R: Abort + AllocGlobal + Files>(
    rt: &R,
    folder: &str,
    name: &str,
) -> Result<(), Fail> {
    let found = fs::symlink_metadata(rt, at(rt, folder, name)?.as_str())?;
    check_same(rt, found.is_symlink(), true, name);
    Ok(())
}

/// The file behind a link gets the journal, and keeps its mode; the link stays.
#[test]
fn a_link_is_followed(rt: HostRuntime) -> Result<(), Fail> {
    let folder = new_folder(&rt)?;
    let kept = at(&rt, &folder, "kept")?;
    fs::write(&rt, kept.as_str(), OLD)?;
    fs::set_permissions(&rt, kept.as_str(), fs::Permissions::from_mode(0o640))?;
    symlink(&rt, "kept", at(&rt, &folder, "link")?.as_str())?;
    symlink(&rt, "link", at(&rt, &folder, "link_to_link")?.as_str())?;
    for name in ["link", "link_to_link", "kept", "new"] {
        keep(&rt, &folder, name, "")?;
        check_file(&rt, &folder, name, JOURNAL)?;
        fs::write(&rt, kept.as_str(), OLD)?;
    }
    check_link(&rt, &folder, "link")?;
    check_link(&rt, &folder, "link_to_link")?;
    let mode = fs::metadata(&rt, kept.as_str())?.permissions().mode();
    check_same(&rt, mode & 0o777, 0o640, "the mode");
    fs::remove_dir_all(&rt, folder.as_str())?;
    Ok(())
}

/// Links, and what they lead to: each to no file that a journal may take the place of.
const LEADING_NOWHERE: [(&str, &str); 6] = [
    ("dangling", "none"),
    ("circle", "circle"),
    ("to_folder", "."),
    ("to_device", "/dev/full"),
    ("to_script", "script"),
    ("to_a_file_as_a_folder", "script/none"),
];

/// What no journal takes the place of stays as it was.
#[test]
fn what_is_no_file_for_a_journal_stays(rt: HostRuntime) -> Result<(), Fail> {
    let folder = new_folder(&rt)?;
    for (name, led) in &LEADING_NOWHERE {
        symlink(&rt, *led, at(&rt, &folder, name)?.as_str())?;
        keep(&rt, &folder, name, "fault 32\n")?;
        check_link(&rt, &folder, name)?;
    }
    for name in ["script", ".", "none/kept", "script/kept"] {
        keep(&rt, &folder, name, "fault 32\n")?;
    }
    check_file(&rt, &folder, "script", SCRIPT)?;
    fs::remove_dir_all(&rt, folder.as_str())?;
    Ok(())
}

/// What runs that were killed left behind stays too, however much it is, and stops no later one. A name may
/// be as long as the system takes it.
#[test]
fn left_overs_stop_no_run(rt: HostRuntime) -> Result<(), Fail> {
    let folder = new_folder(&rt)?;
    for number in 0..20u32 {
        let part = format!(in rt.alloc(); "{folder}/pcml.{number}.part")?;
        fs::write(&rt, part.as_str(), OLD)?;
    }
    let longest = format!(in rt.alloc(); "{:0>255}", 1)?;
    for name in ["kept", longest.as_str()] {
        keep(&rt, &folder, name, "")?;
        check_file(&rt, &folder, name, JOURNAL)?;
    }
    check_file(&rt, &folder, "pcml.0.part", OLD)?;
    check_file(&rt, &folder, "pcml.19.part", OLD)?;
    let next = fs::exists(&rt, at(&rt, &folder, "pcml.20.part")?.as_str())?;
    check_same(&rt, next, false, "a part is left behind");
    fs::remove_dir_all(&rt, folder.as_str())?;
    Ok(())
}
