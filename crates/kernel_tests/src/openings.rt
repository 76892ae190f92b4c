// Tests of the system calls that open or make a device.
use crate::recorded::{Made, Recorded};
use devices::{Access, CopiedFile, FileFault, HostFile};
use std::fmt::{self, Display, Formatter, Write};
use std::fs;
use std::process::Abort;
use std::test::Fail;

type Device = CopiedFile<HostFile<Recorded>>;

// The calls that open or make a device, for each kind of access to its file.
const OPENINGS: &[(Access, &[&str])] = &[
    (
        Access::Write,
        &[
            "opened",
            "Exclusive Granted",
            "synced",
            "measured 1535",
            "got 0 1024",
        ],
    ),
    (
        Access::Read,
        &[
            "opened to read",
            "Shared Granted",
            "synced",
            "measured 1535",
            "got 0 1024",
        ],
    ),
    (
        Access::Create,
        &[
            "opened or made",
            "Exclusive Granted",
            "resized 0",
            "resized 512",
            "synced",
            "listed",
        ],
    ),
];

// The calls that make a device in a new file.
const MAKING: &[&str] = &[
    "made",
    "Exclusive Granted",
    "resized 0",
    "resized 512",
    "synced",
    "listed",
];

// A call, as a short text.
impl Display for Made {
    fn fmt<W: Write>(&self, f: &mut Formatter<W>) -> fmt::Result {
        match self {
            Made::Opened(_, Access::Read) => write!(f, "opened to read"),
            Made::Opened(_, Access::Write) => write!(f, "opened"),
            Made::Opened(_, Access::Create) => write!(f, "opened or made"),
            Made::Opened(_, Access::New) => write!(f, "made"),
            Made::Locked(lock, answer) => write!(f, "{lock:?} {answer:?}"),
            Made::Synced => write!(f, "synced"),
            Made::Measured(bytes) => write!(f, "measured {bytes}"),
            Made::Got(at, bytes) => write!(f, "got {at} {}", bytes.len()),
            Made::Resized(bytes) => write!(f, "resized {bytes}"),
            Made::Listed(_) => write!(f, "listed"),
        }
    }
}

// Asserts that exactly these calls were made on the file of a device, in this order.
fn are_made(
    rt: &(impl Abort + AllocGlobal),
    device: &Device,
    expected: &[&str],
) -> Result<(), Fail> {
    let made = device.file().file().made();
    assert_eq!(rt; made.len(), expected.len());
    for (made, expected) in made.iter().zip(expected) {
        assert_eq!(rt; format!(in rt.alloc(); "{made}")?.as_str(), *expected);
    }
    Ok(())
}

// Opens or makes a device, according to the access.
fn device_by(rt: &HostRuntime, path: &str, access: Access) -> Result<Device, FileFault> {
    match access {
        Access::Read => Device::open_to_read(rt, path),
        Access::Write => Device::open(rt, path),
        Access::Create => Device::create(rt, path, 1),
        Access::New => match Device::create_new(rt, path, 1) {
            Ok(device) => Ok(device),
            Err(_) => Err(FileFault::Io),
        },
    }
}

#[test]
fn a_file_is_locked_synced_and_read(rt: HostRuntime) -> Result<(), Fail> {
    let path = "file_device_recorded";
    let bytes = vec![in rt.alloc(); 3; 1024 + 511]?;
    fs::write(&rt, path, bytes.as_slice())?;
    for (access, expected) in OPENINGS {
        are_made(&rt, &device_by(&rt, path, *access)?, expected)?;
    }
    assert!(rt; device_by(&rt, path, Access::New).is_err());
    fs::remove_file(&rt, path)?;
    are_made(&rt, &device_by(&rt, path, Access::New)?, MAKING)?;
    fs::remove_file(&rt, path)?;
    Ok(())
}
