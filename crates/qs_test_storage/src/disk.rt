//! What power cuts leave of a byte, calls that fail, and a fuse that trips.
ghost use Rattle.std.specs.Prelude.{◌≡◌, length, IfOk};
ghost use Rattle.qs_disk.specs.Disk.{IsStill};

use qs_base::{List, NoMemory};
use qs_disk::{Disk, DiskFailed, Fused, MemDisk, write_through};
use std::alloc::Global;
use std::test::Fail;

fn zeros(alloc: Global, seed: u64, fail: &[u64]) -> Result<MemDisk, NoMemory>
    ensures count { IfOk result (λ disk. length disk.disk.content ≡ 65536) }
    ensures still { IfOk result (λ disk. IsStill disk.disk) }
{
    MemDisk::new(alloc, 65_536, seed, fail)
}

fn ends_in_what_was_written(disk: &mut MemDisk) -> bool
    requires size { length disk.old.disk.content ≡ 65536 }
    requires still { IsStill disk.old.disk }
    ensures { length disk.new.disk.content ≡ 65536 }
{
    let mut buf = [1; 4];
    let is_written = write_through(disk, 65_533, b"end") == Ok(());
    is_written && disk.read(65_532, &mut buf) == Ok(()) && buf.as_slice() == b"\0end".as_slice()
}

#[test]
fn a_write_is_read_back(rt: HostRuntime) -> Result<(), Fail> {
    let mut disk = zeros(rt.alloc(), 1, &[])?;
    let is_read = ends_in_what_was_written(&mut disk) && disk.power_cut() == Ok(());
    let again = MemDisk::from_bytes(rt.alloc(), disk.bytes(), 1, &[]);
    drop(disk);
    let again = again?;
    let is_left = again.bytes().ends_with(b"d") && again.faults() == 0;
    drop(again);
    assert!(rt; is_read && is_left);
    Ok(())
}

fn fails_as_planned(disk: &mut MemDisk) -> bool
    requires { length disk.old.disk.content ≡ 65536 }
{
    let mut buf = [1; 1];
    disk.write(7, b"x") == Ok(())
        && disk.write(7, b"y") == Err(DiskFailed)
        && disk.read(7, &mut buf) == Ok(())
        && buf == *b"x"
        && disk.power_cut() == Err(DiskFailed)
        && disk.faults() == 2
}

#[test]
fn the_planned_calls_fail(rt: HostRuntime) -> Result<(), Fail> {
    let mut disk = zeros(rt.alloc(), 1, &[2, 4])?;
    let is_planned = fails_as_planned(&mut disk);
    drop(disk);
    assert!(rt; is_planned);
    Ok(())
}

// The second of three synced bytes `abc` is overwritten by `x`, and the power is cut.
#[test]
fn a_power_cut_leaves_old_bytes_and_new_ones(rt: HostRuntime) -> Result<(), Fail> {
    let mut saw_old = false;
    let mut saw_new = false;
    let mut saw_other = false;
    for seed in 0..64 {
        let [first, second, third] = left_by_a_cut(rt.alloc(), seed)?;
        assert!(rt; first == b'a' && third == b'c');
        match second {
            b'b' => saw_old = true,
            b'x' => saw_new = true,
            _ => saw_other = true,
        }
    }
    assert!(rt; saw_old && saw_new && saw_other);
    Ok(())
}

fn left_by_a_cut(alloc: Global, seed: u64) -> Result<[u8; 3], Fail> {
    let mut disk = zeros(alloc, seed, &[])?;
    let left = cut(&mut disk);
    drop(disk);
    left
}

fn cut(disk: &mut MemDisk) -> Result<[u8; 3], Fail>
    requires size { length disk.old.disk.content ≡ 65536 }
    requires still { IsStill disk.old.disk }
{
    write_through(disk, 99, b"abc")?;
    disk.write(100, b"x")?;
    disk.power_cut()?;
    let bytes = disk.bytes();
    Ok([bytes[99], bytes[100], bytes[101]])
}

// A disk whose second call fails, behind a fuse that trips at the first.
fn trips(disk: &mut Fused<MemDisk>) -> bool
    requires { length disk.old.disk.disk.content ≡ 65536 }
{
    let is_refused = disk.write(7, b"x") == Err(DiskFailed)
        && disk.write(7, b"y") == Err(DiskFailed)
        && disk.sync() == Err(DiskFailed);
    let is_counted = disk.trips() == 3 && disk.own_faults() == 0;
    is_refused && is_counted
}

// The cut is the disk's second call.
fn is_cut(disk: &mut Fused<MemDisk>) -> bool {
    disk.power_cut() == Err(DiskFailed)
        && disk.own_faults() == 1
        && disk.faults() == 4
        && disk.sync() == Ok(())
}

fn plan_of(alloc: Global, call: u64) -> Result<List<u64>, Fail> {
    let mut plan = List::new(alloc);
    plan.push(call)?;
    Ok(plan)
}

#[test]
fn a_tripping_write_is_passed_on_and_a_sync_is_not(rt: HostRuntime) -> Result<(), Fail> {
    let plan = plan_of(rt.alloc(), 1)?;
    let mut disk = Fused::new(zeros(rt.alloc(), 1, &[2])?);
    disk.arm(plan);
    let is_right = trips(&mut disk) && is_cut(&mut disk);
    let disk = disk.into_inner();
    let has_written = disk.bytes().get(7) == Some(&b'x');
    drop(disk);
    assert!(rt; is_right && has_written);
    Ok(())
}

fn trips_second(disk: &mut Fused<MemDisk>, plan: List<u64>) -> bool
    requires { length disk.old.disk.disk.content ≡ 65536 }
{
    let is_written = disk.write(7, b"x") == Ok(()) && disk.sync() == Ok(());
    disk.arm(plan);
    let has_tripped = disk.write(7, b"y") == Ok(()) && disk.sync() == Err(DiskFailed);
    let is_over = disk.power_cut() == Ok(()) && disk.write(8, b"z") == Ok(());
    is_written && has_tripped && is_over && disk.trips() == 1
}

#[test]
fn nothing_trips_before_its_number(rt: HostRuntime) -> Result<(), Fail> {
    let plan = plan_of(rt.alloc(), 2)?;
    let mut disk = Fused::new(zeros(rt.alloc(), 1, &[])?);
    let is_right = trips_second(&mut disk, plan);
    drop(disk);
    assert!(rt; is_right);
    Ok(())
}
