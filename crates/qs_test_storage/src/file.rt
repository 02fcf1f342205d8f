//! A disk over a real file: bytes, zeros where nothing was written, one disk at a time, and faults.
ghost use Rattle.std.specs.Prelude.{◌≤◌};

use qs_disk::Disk;
use qs_disk_file::{DiskFile, FileDisk, Trouble};
use std::fs::Files;
use std::test::Fail;
use std::{env, fs, process};

// The path of a file that is not there, in the folder for temporary files.
fn new_path(rt: &HostRuntime, name: &str) -> Result<String, Fail> {
    let folder = env::temp_dir(rt)?;
    let id = process::id(rt.process());
    let path = format!(in rt.alloc(); "{}/qs_file_{name}_{id}", folder.as_str())?;
    if fs::exists(rt, path.as_str())? {
        fs::remove_file(rt, path.as_str())?;
    }
    Ok(path)
}

fn has<R: Files>(disk: &mut FileDisk<R>, at: u64, bytes: [u8; 3]) -> bool
where
    R::File: DiskFile,
    requires { at ≤ 16777213 }
{
    let mut buf = [7; 3];
    disk.read(at, &mut buf).is_ok() && buf == bytes
}

fn keeps<R: Files>(disk: &mut FileDisk<R>) -> bool
where
    R::File: DiskFile,
{
    has(disk, 0, [0; 3])
        && disk.write(4096, b"abc").is_ok()
        && disk.sync().is_ok()
        && has(disk, 4096, *b"abc")
        && has(disk, 4098, *b"c\0\0")
        && has(disk, 4095, *b"\0ab")
        && has(disk, 16_777_213, [0; 3])
}

// Whether the file is made by the first write, and has what was written then. It is removed again.
fn makes_its_file(
    rt: &HostRuntime,
    path: &str,
    disk: &mut FileDisk<HostRuntime>,
) -> Result<bool, Fail> {
    let is_new = !fs::exists(rt, path)?;
    let is_kept = keeps(disk);
    fs::remove_file(rt, path)?;
    Ok(is_new && is_kept)
}

#[test]
fn what_was_written_is_read_again(rt: HostRuntime) -> Result<(), Fail> {
    let path = new_path(&rt, "written")?;
    let mut disk = FileDisk::new(rt, rt.alloc(), path.as_str())?;
    let is_right = makes_its_file(&rt, path.as_str(), &mut disk);
    drop(disk);
    assert!(rt; is_right?);
    Ok(())
}

// Whether another disk over the same file is refused, also through a power cut.
fn refuses_another<R: Files>(disk: &mut FileDisk<R>, another: &mut FileDisk<R>) -> bool
where
    R::File: DiskFile,
{
    disk.write(0, b"abc").is_ok()
        && another.write(0, b"xyz").is_err()
        && disk.power_cut().is_ok()
        && another.write(0, b"xyz").is_err()
        && matches!(another.trouble(), Some(Trouble::InUse))
        && has(disk, 0, *b"abc")
}

// Whether another disk has the file once the one let it go. It is removed then.
fn is_free(
    rt: &HostRuntime,
    path: &str,
    another: &mut FileDisk<HostRuntime>,
) -> Result<bool, Fail> {
    let is_free = has(another, 0, *b"abc");
    fs::remove_file(rt, path)?;
    Ok(is_free)
}

#[test]
fn a_file_is_one_disks_also_through_a_power_cut(rt: HostRuntime) -> Result<(), Fail> {
    let path = new_path(&rt, "cut")?;
    let mut another = FileDisk::new(rt, rt.alloc(), path.as_str())?;
    let mut disk = FileDisk::new(rt, rt.alloc(), path.as_str())?;
    let is_refused = refuses_another(&mut disk, &mut another);
    drop(disk);
    let is_free = is_free(&rt, path.as_str(), &mut another);
    drop(another);
    let is_free = is_free?;
    assert!(rt; is_refused && is_free);
    Ok(())
}

// Disks may be handed to threads.
fn goes_to_a_thread<T: Send>(_value: &T) {}

// Whether four calls are refused, and counted.
fn counts_refusals<R: Files>(disk: &mut FileDisk<R>) -> bool
where
    R::File: DiskFile,
{
    disk.write(0, b"abc").is_err()
        && disk.sync().is_err()
        && disk.power_cut().is_err()
        && !has(disk, 0, [0; 3])
        && disk.faults() == 4
}

// Whether calls are refused while there is no folder, and a write goes once there is one. The folder
// is removed again.
fn goes_on(rt: &HostRuntime, folder: &str, disk: &mut FileDisk<HostRuntime>) -> Result<bool, Fail> {
    let is_counted = counts_refusals(disk);
    fs::create_dir(rt, folder)?;
    let is_written = disk.write(0, b"abc").is_ok() && disk.faults() == 4;
    fs::remove_dir_all(rt, folder)?;
    Ok(is_counted && is_written)
}

#[test]
fn what_the_system_refuses_is_counted(rt: HostRuntime) -> Result<(), Fail> {
    let folder = new_path(&rt, "refused")?;
    let path = format!(in rt.alloc(); "{folder}/disk")?;
    let mut disk = FileDisk::new(rt, rt.alloc(), path.as_str())?;
    goes_to_a_thread(&disk);
    let is_right = goes_on(&rt, folder.as_str(), &mut disk);
    drop(disk);
    assert!(rt; is_right?);
    Ok(())
}
