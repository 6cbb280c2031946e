//! Scripts of calls against contents computed by hand, and devices over real files.
use disk_model::{CallKind, CrashChoice, DeviceFault, Disk, FileDisk, SimDisk, write_synced};
use std::fs;
use std::fs::OpenOptions;
use std::process::Abort;
use std::test::Fail;

/// A step of a script over a device of eight bytes.
#[derive(Clone, Copy)]
enum Step {
    Write(u8, &'static [u8]),
    FailedWrite(u8, &'static [u8]),
    Sync,
    FailedSync,
    FailedRead,
    Fail(CallKind, u64),
    StopAt(u64),
    Crash(CrashChoice),
    Stopped(bool),
    Failures(u64),
    Reads([u8; 8]),
}

fn write(rt: &impl Abort, disk: &mut SimDisk, offset: u8, bytes: &[u8]) -> Result<(), DeviceFault> {
    assert!(rt; disk.size() == 8);
    assert!(rt; offset <= 8 && bytes.len() <= 8 && usize::from(offset) + bytes.len() <= 8);
    disk.write_at(u64::from(offset), bytes)
}

fn read(rt: &impl Abort, disk: &mut SimDisk) -> Result<[u8; 8], DeviceFault> {
    assert!(rt; disk.size() == 8);
    let mut all = [0; 8];
    disk.read(0, &mut all)?;
    Ok(all)
}

// Takes a step, which does what it says.
fn take(rt: &impl Abort, disk: &mut SimDisk, step: Step) {
    let does = match step {
        Step::Write(offset, bytes) => write(rt, disk, offset, bytes).is_ok(),
        Step::FailedWrite(offset, bytes) => write(rt, disk, offset, bytes).is_err(),
        Step::Sync => disk.sync().is_ok(),
        Step::FailedSync => disk.sync().is_err(),
        Step::FailedRead => read(rt, disk).is_err(),
        Step::Stopped(stopped) => disk.is_stopped() == stopped,
        Step::Failures(failures) => disk.failures() == failures,
        Step::Reads(bytes) => read(rt, disk) == Ok(bytes),
        Step::Fail(..) | Step::StopAt(_) | Step::Crash(_) => arm(disk, step),
    };
    assert!(rt; does);
}

// Arms a fault or a stop, or crashes the device, which no answer tells.
fn arm(disk: &mut SimDisk, step: Step) -> bool {
    match step {
        Step::Fail(kind, k) => disk.fail(kind, k),
        Step::StopAt(k) => disk.stop_at(k),
        Step::Crash(choice) => disk.crash(choice),
        _ => return false,
    }
    true
}

const OVERLAPPING: [Step; 8] = [
    Step::Write(1, &[1, 1, 1, 1]),
    Step::Write(3, &[2, 2, 2]),
    Step::Reads([0, 1, 1, 2, 2, 2, 0, 0]),
    Step::Crash(CrashChoice::Fill(9)),
    Step::Reads([0, 9, 9, 9, 9, 9, 0, 0]),
    Step::Write(0, &[3, 3]),
    Step::Crash(CrashChoice::New),
    Step::Reads([3, 3, 9, 9, 9, 9, 0, 0]),
];

const OVERLAPPING_TAKEN_BACK: [Step; 5] = [
    Step::Write(1, &[1, 1, 1, 1]),
    Step::Write(3, &[2, 2, 2]),
    Step::Write(2, &[3, 3]),
    Step::Crash(CrashChoice::Old),
    Step::Reads([0; 8]),
];

const OVER_SYNCED: [Step; 8] = [
    Step::Write(0, &[1, 1, 1, 1]),
    Step::Sync,
    Step::Write(2, &[2, 2, 2, 2]),
    Step::Crash(CrashChoice::Old),
    Step::Reads([1, 1, 1, 1, 0, 0, 0, 0]),
    Step::Write(3, &[4]),
    Step::Crash(CrashChoice::Fill(9)),
    Step::Reads([1, 1, 1, 9, 0, 0, 0, 0]),
];

const FAILED_WRITE_THEN_SYNC: [Step; 7] = [
    Step::Fail(CallKind::Write, 1),
    Step::FailedWrite(0, &[5, 5]),
    Step::Reads([5, 5, 0, 0, 0, 0, 0, 0]),
    Step::Sync,
    Step::Crash(CrashChoice::Old),
    Step::Reads([5, 5, 0, 0, 0, 0, 0, 0]),
    Step::Failures(1),
];

const FAILED_SYNC: [Step; 9] = [
    Step::Write(0, &[7, 7]),
    Step::Fail(CallKind::Sync, 1),
    Step::FailedSync,
    Step::Crash(CrashChoice::Fill(3)),
    Step::Reads([3, 3, 0, 0, 0, 0, 0, 0]),
    Step::Write(0, &[8]),
    Step::Sync,
    Step::Crash(CrashChoice::Fill(4)),
    Step::Reads([8, 3, 0, 0, 0, 0, 0, 0]),
];

const TWO_CRASHES: [Step; 5] = [
    Step::Write(6, &[1, 1]),
    Step::Crash(CrashChoice::Fill(8)),
    Step::Crash(CrashChoice::Old),
    Step::Crash(CrashChoice::Fill(9)),
    Step::Reads([0, 0, 0, 0, 0, 0, 8, 8]),
];

const STOPPED_MIDWAY: [Step; 11] = [
    Step::StopAt(2),
    Step::Write(0, &[1]),
    Step::Stopped(false),
    Step::FailedWrite(1, &[2]),
    Step::Stopped(true),
    Step::FailedSync,
    Step::FailedRead,
    Step::Crash(CrashChoice::New),
    Step::Stopped(false),
    Step::Reads([1, 2, 0, 0, 0, 0, 0, 0]),
    Step::Failures(3),
];

const STOP_AND_FAULT: [Step; 7] = [
    Step::Fail(CallKind::Write, 1),
    Step::StopAt(1),
    Step::FailedWrite(0, &[1]),
    Step::Crash(CrashChoice::Old),
    Step::Write(1, &[2]),
    Step::Reads([0, 2, 0, 0, 0, 0, 0, 0]),
    Step::Failures(1),
];

const ARMED_ANEW: [Step; 9] = [
    Step::Fail(CallKind::Write, 1),
    Step::Fail(CallKind::Write, 2),
    Step::Fail(CallKind::Read, 2),
    Step::Write(0, &[1]),
    Step::Crash(CrashChoice::New),
    Step::FailedWrite(1, &[2]),
    Step::Reads([1, 2, 0, 0, 0, 0, 0, 0]),
    Step::FailedRead,
    Step::Failures(2),
];

#[test]
fn scripts(rt: HostRuntime) -> Result<(), Fail> {
    let scripts: [&[Step]; 9] = [
        &OVERLAPPING,
        &OVERLAPPING_TAKEN_BACK,
        &OVER_SYNCED,
        &FAILED_WRITE_THEN_SYNC,
        &FAILED_SYNC,
        &TWO_CRASHES,
        &STOPPED_MIDWAY,
        &STOP_AND_FAULT,
        &ARMED_ANEW,
    ];
    for script in scripts {
        let mut disk = SimDisk::new(rt.alloc(), 8)?;
        for step in script {
            take(&rt, &mut disk, *step);
        }
    }
    Ok(())
}

#[test]
fn synced_write(rt: HostRuntime) -> Result<(), Fail> {
    let mut disk = SimDisk::new(rt.alloc(), 8)?;
    write_synced(&mut disk, 6, &[1, 2])?;
    disk.crash(CrashChoice::Fill(9));
    assert!(rt; read(&rt, &mut disk) == Ok([0, 0, 0, 0, 0, 0, 1, 2]));
    Ok(())
}

// A file that is shorter than the device.
#[test]
fn short_file(rt: HostRuntime) -> Result<(), Fail> {
    let path = "short.img";
    fs::write(&rt, path, b"abc")?;
    let file = OpenOptions::new().read(true).write(true).open(&rt, path)?;
    let mut disk = FileDisk::new(file, 8);
    let mut front = [0; 3];
    disk.read(0, &mut front)?;
    assert!(rt; front == *b"abc");
    assert!(rt; disk.read(1, &mut front).is_err());
    disk.write_at(5, b"xyz")?;
    disk.sync()?;
    write_synced(&mut disk, 4, b"w")?;
    let mut all = [0; 8];
    disk.read(0, &mut all)?;
    assert!(rt; all == *b"abc\0wxyz");
    assert!(rt; disk.failures() == 1);
    let _file = disk.into_file();
    fs::remove_file(&rt, path)?;
    Ok(())
}

// A file that can't be written.
#[test]
fn read_only_file(rt: HostRuntime) -> Result<(), Fail> {
    let path = "read_only.img";
    fs::write(&rt, path, b"abc")?;
    let mut disk = FileDisk::new(fs::open(&rt, path)?, 3);
    let mut all = [0; 3];
    disk.read(0, &mut all)?;
    assert!(rt; all == *b"abc");
    assert!(rt; disk.write_at(0, b"x").is_err());
    assert!(rt; disk.failures() == 1);
    fs::remove_file(&rt, path)?;
    Ok(())
}

// A file that has no room.
#[test]
fn full_file(rt: HostRuntime) -> Result<(), Fail> {
    let full = OpenOptions::new().write(true).open(&rt, "/dev/full")?;
    let mut disk = FileDisk::new(full, 4096);
    assert!(rt; disk.write_at(0, b"x").is_err());
    assert!(rt; disk.failures() == 1);
    Ok(())
}
