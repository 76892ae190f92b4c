// Devices in real files.
ghost use Rattle.std.specs.Prelude.{◌≡◌, ◌≤◌, ◌+◌};

use device::{Device, Failed, MAX_SECTORS, SECTOR_SIZE};
use devices::{FileDevice, FileFault};
use std::fs;
use std::process::Abort;
use std::test::Fail;

// A device that was opened or made, or why it wasn't.
type Opened<D> = Result<D, FileFault>;

// Makes a file at this path with `length` bytes that are all 3.
fn write_threes(rt: &HostRuntime, path: &str, length: usize) -> Result<(), Fail> {
    let bytes = vec![in rt.alloc(); 3; length]?;
    fs::write(rt, path, bytes.as_slice())?;
    Ok(())
}

// Removes a file, and returns its bytes.
fn taken(rt: &HostRuntime, path: &str) -> Result<Vec<u8>, Fail> {
    let bytes = fs::read(rt, path)?;
    fs::remove_file(rt, path)?;
    Ok(bytes)
}

// Asserts that there are `length` bytes: 8 from index `from` to before `to`, and 3 everywhere else.
fn are_threes(rt: &impl Abort, bytes: &[u8], length: usize, from: usize, to: usize) {
    assert_eq!(rt; bytes.len(), length);
    for (place, byte) in bytes.iter().enumerate() {
        let expected = if from <= place && place < to { 8 } else { 3 };
        assert_eq!(rt; *byte, expected, "at {place}");
    }
}

// Returns how many sectors a device has, and drops it.
fn sectors_of<D: Device>(opened: Opened<D>) -> Result<u64, FileFault> {
    Ok(opened?.sectors())
}

// Asserts that all bytes of the sector at `at` are this byte.
fn holds<D: Device>(rt: &impl Abort, device: &mut D, at: u64, byte: u8) -> Result<(), Fail>
    requires { at + 1 ≤ (D.disk device.old).sectors }
    ensures { (D.disk device.new).sectors ≡ (D.disk device.old).sectors }
{
    let mut bytes = [7; SECTOR_SIZE];
    device.read(at, &mut bytes)?;
    assert_eq!(rt; bytes, [byte; SECTOR_SIZE]);
    Ok(())
}

// Writes a sector whose bytes are all this byte.
fn fill<D: Device>(device: &mut D, at: u64, byte: u8) -> Result<(), Failed>
    requires { at + 1 ≤ (D.disk device.old).sectors }
    ensures { (D.disk device.new).sectors ≡ (D.disk device.old).sectors }
{
    device.write(at, &[byte; SECTOR_SIZE])
}

// Writes some sectors of a device of four zero sectors.
fn fill_some<D: Device>(rt: &impl Abort, device: &mut D) -> Result<(), Fail>
    requires { (D.disk device.old).sectors ≡ 4 }
{
    holds(rt, device, 3, 0)?;
    fill(device, 1, 5)?;
    fill(device, 3, 6)?;
    device.sync()?;
    fill(device, 3, 9)?;
    holds(rt, device, 1, 5)?;
    holds(rt, device, 3, 9)
}

// Asserts that a device of four sectors has what `fill_some` writes.
fn holds_some<D: Device>(rt: &impl Abort, device: &mut D) -> Result<(), Fail> {
    assert_eq!(rt; device.sectors(), 4);
    holds(rt, device, 0, 0)?;
    holds(rt, device, 1, 5)?;
    holds(rt, device, 2, 0)?;
    holds(rt, device, 3, 9)
}

// Asserts that a device in a file keeps all sectors that were written when the power is cut.
fn write_some<D: Device>(rt: &impl Abort, opened: Opened<D>) -> Result<(), Fail> {
    let mut device = opened?;
    assert_eq!(rt; device.sectors(), 4);
    fill_some(rt, &mut device)?;
    device.power_cut();
    holds_some(rt, &mut device)
}

fn has_some<D: Device>(rt: &impl Abort, opened: Opened<D>) -> Result<(), Fail> {
    let mut device = opened?;
    holds_some(rt, &mut device)
}

#[test]
fn what_is_written_is_read_again(rt: HostRuntime) -> Result<(), Fail> {
    let path = "file_device_again";
    write_some(&rt, FileDevice::create(&rt, path, 4))?;
    has_some(&rt, FileDevice::open(&rt, path))?;
    assert_eq!(rt; taken(&rt, path)?.len(), 2048);
    Ok(())
}

fn has_zeros<D: Device>(rt: &impl Abort, opened: Opened<D>) -> Result<(), Fail> {
    let mut device = opened?;
    assert_eq!(rt; device.sectors(), 2);
    holds(rt, &mut device, 0, 0)?;
    holds(rt, &mut device, 1, 0)
}

#[test]
fn a_file_is_replaced_by_zeros(rt: HostRuntime) -> Result<(), Fail> {
    let path = "file_device_replaced";
    write_threes(&rt, path, 5000)?;
    has_zeros(&rt, FileDevice::create(&rt, path, 2))?;
    assert_eq!(rt; taken(&rt, path)?.len(), 1024);
    Ok(())
}

fn write_last<D: Device>(rt: &impl Abort, opened: Opened<D>) -> Result<(), Fail> {
    let mut device = opened?;
    assert_eq!(rt; device.sectors(), 2);
    fill(&mut device, 1, 8)?;
    device.sync()?;
    Ok(())
}

#[test]
fn a_part_of_a_sector_is_left_alone(rt: HostRuntime) -> Result<(), Fail> {
    let path = "file_device_part";
    write_threes(&rt, path, 1024 + 511)?;
    write_last(&rt, FileDevice::open(&rt, path))?;
    are_threes(&rt, &taken(&rt, path)?, 1024 + 511, 512, 1024);
    Ok(())
}

// Makes a new folder of this name in the folder where the test runs.
fn empty_folder(rt: &HostRuntime, name: &str) -> Result<(), Fail> {
    let _ = fs::remove_dir_all(rt, name);
    fs::create_dir(rt, name)?;
    Ok(())
}

#[test]
fn what_is_no_file_is_refused(rt: HostRuntime) -> Result<(), Fail> {
    let folder = "file_device_refused";
    empty_folder(&rt, folder)?;
    for path in [
        folder,
        "file_device_refused/missing",
        "",
        "/dev/null",
        "/dev/full",
    ] {
        let reported = sectors_of(FileDevice::open(&rt, path));
        assert_eq!(rt; reported, Err(FileFault::Io), "at {path}");
    }
    assert!(rt; sectors_of(FileDevice::create(&rt, folder, 1)).is_err());
    assert!(rt; sectors_of(FileDevice::create(&rt, "/dev/full", 1)).is_err());
    let made = sectors_of(FileDevice::create(&rt, "file_device_refused/made", 1));
    assert_eq!(rt; made, Ok(1));
    fs::remove_dir_all(&rt, folder)?;
    Ok(())
}

#[test]
fn of_a_long_file_the_first_sectors_are_opened(rt: HostRuntime) -> Result<(), Fail> {
    let path = "file_device_long";
    let file = fs::File::create(&rt, path)?;
    for (length, reported) in [
        (0, Ok(0)),
        (MAX_SECTORS * 512, Ok(MAX_SECTORS)),
        (MAX_SECTORS * 512 - 1, Ok(MAX_SECTORS - 1)),
        (MAX_SECTORS * 512 + 1, Ok(MAX_SECTORS)),
        (MAX_SECTORS * 1024, Ok(MAX_SECTORS)),
    ] {
        file.set_len(length)?;
        assert_eq!(rt; sectors_of(FileDevice::open(&rt, path)), reported);
    }
    fs::remove_file(&rt, path)?;
    Ok(())
}

// Asserts that a file without write permission can be read, that the first write fails, and that then every
// call except a read fails.
fn fails<D: Device>(rt: &impl Abort, opened: Opened<D>) -> Result<(), Fail> {
    let mut device = opened?;
    assert_eq!(rt; device.sectors(), 2);
    device.sync()?;
    holds(rt, &mut device, 1, 3)?;
    let failed = [
        fill(&mut device, 1, 8).is_err(),
        device.sync().is_err(),
        fill(&mut device, 0, 8).is_err(),
    ];
    assert_eq!(rt; failed, [true; 3]);
    holds(rt, &mut device, 1, 8)
}

#[test]
fn a_file_that_fails_fails_from_then_on(rt: HostRuntime) -> Result<(), Fail> {
    let path = "file_device_fails";
    write_threes(&rt, path, 1024)?;
    fails(&rt, FileDevice::open_to_read(&rt, path))?;
    are_threes(&rt, &taken(&rt, path)?, 1024, 0, 0);
    Ok(())
}

// Opens or makes a second device in a file that has one. Returns the faults of opening it, of opening it to read, and
// of making it.
fn reported_beside<D: Device>(
    rt: &HostRuntime,
    path: &str,
    opened: Opened<D>,
) -> Result<[Result<u64, FileFault>; 3], FileFault> {
    let device = opened?;
    let reported = [
        sectors_of(FileDevice::open(rt, path)),
        sectors_of(FileDevice::open_to_read(rt, path)),
        sectors_of(FileDevice::create(rt, path, 1)),
    ];
    drop(device);
    Ok(reported)
}

#[test]
fn a_file_has_one_device(rt: HostRuntime) -> Result<(), Fail> {
    let path = "file_device_one";
    let held = Ok([Err(FileFault::Held); 3]);
    write_threes(&rt, path, 1024)?;
    assert!(rt; reported_beside(&rt, path, FileDevice::open(&rt, path)) == held);
    are_threes(&rt, &taken(&rt, path)?, 1024, 0, 0);
    assert!(rt; reported_beside(&rt, path, FileDevice::create(&rt, path, 1)) == held);
    assert_eq!(rt; sectors_of(FileDevice::open(&rt, path)), Ok(1));
    fs::remove_file(&rt, path)?;
    Ok(())
}

#[test]
fn those_who_read_share_a_file(rt: HostRuntime) -> Result<(), Fail> {
    let path = "file_device_read";
    let shared = Ok([Err(FileFault::Held), Ok(2), Err(FileFault::Held)]);
    write_threes(&rt, path, 1024)?;
    assert!(rt; reported_beside(&rt, path, FileDevice::open_to_read(&rt, path)) == shared);
    are_threes(&rt, &taken(&rt, path)?, 1024, 0, 0);
    Ok(())
}

#[test]
fn a_fault_is_reported(rt: HostRuntime) -> Result<(), Fail> {
    let reported = [
        (FileFault::Io, "the file can't be opened, read or written"),
        (FileFault::Held, "another program uses the image"),
        (FileFault::NoMemory, "memory ran out"),
    ];
    for (fault, text) in reported {
        assert_eq!(rt; fault.to_string(rt.alloc())?.as_str(), text);
    }
    Ok(())
}
