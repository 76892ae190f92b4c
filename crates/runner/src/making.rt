// Making image files.
ghost use Rattle.std.specs.Prelude.{◌≡◌, IfOk};
ghost use Rattle.devices.specs.FileDevice.{file_disk};

use crate::cause::{Cause, Refusal};
use crate::{End, Stdio};
use device::MAX_SECTORS;
use devices::{FileDevice, FileFault, Unmade};
use image_builder::Blueprint;
use jobs::{Fault, build_image, finish};
use std::alloc::Global;
use std::fs::{self, File};
use std::os::unix::fs::MetadataExt;
use toml::Table;

// Returns the TOML table in a text.
fn table_of(alloc: Global, text: &[u8]) -> Result<Table, Fault> {
    let Ok(text) = str::from_utf8(text) else {
        return Err(Fault::NotToml);
    };
    match toml::table_from_str(alloc, text) {
        Ok(table) => Ok(table),
        Err(error) if error.is_memory() => Err(Fault::NoMemory),
        Err(_) => Err(Fault::NotToml),
    }
}

// Returns the blueprint of an image, from the text of its description.
fn blueprint_of(alloc: Global, text: &[u8]) -> Result<Blueprint, Fault> {
    match table_of(alloc, text) {
        Ok(table) => match Blueprint::read(alloc, &table) {
            Ok(blueprint) => Ok(blueprint),
            Err(fault) => Err(Fault::Build(fault)),
        },
        Err(fault) => Err(fault),
    }
}

// Returns the blueprint of an image, from the file of its description.
fn read_blueprint(rt: &HostRuntime, description: &str) -> Result<Blueprint, Refusal> {
    match fs::read(rt, description) {
        Ok(text) => match blueprint_of(rt.alloc(), &text) {
            Ok(blueprint) => Ok(blueprint),
            Err(fault) => Err(Refusal::from(fault)),
        },
        Err(error) => Err(Refusal::of_io(error, Fault::CannotReadDescription)),
    }
}

// Whether two paths name the same file.
fn is_one_file(rt: &HostRuntime, one: &str, other: &str) -> bool {
    match (fs::metadata(rt, one), fs::metadata(rt, other)) {
        (Ok(one), Ok(other)) => one.dev() == other.dev() && one.ino() == other.ino(),
        _ => false,
    }
}

/// Makes a device of `sectors` zero sectors in a file. Replaces an existing file, unless it is `source`, the
/// file that the new image is made from.
pub(crate) fn create(
    rt: &HostRuntime,
    sectors: u64,
    source: &str,
    path: &str,
) -> Result<FileDevice, Refusal>
    ensures { IfOk result (λ device. (file_disk device).sectors ≡ sectors) }
{
    if sectors > MAX_SECTORS || is_one_file(rt, source, path) {
        return Err(Refusal::new(Fault::CannotWriteImage, Cause::Source));
    }
    match FileDevice::create(rt, path, sectors) {
        Ok(device) => Ok(device),
        Err(fault) => Err(Refusal::of_file(fault, Fault::CannotWriteImage)),
    }
}

// Removes an open file, if its path still names it. If another program puts its own file there between the two calls,
// that file is removed.
fn remove(rt: &HostRuntime, file: &File, path: &str) {
    let is_there = match (file.metadata(), fs::symlink_metadata(rt, path)) {
        (Ok(own), Ok(there)) => own.dev() == there.dev() && own.ino() == there.ino(),
        _ => false,
    };
    if is_there {
        let _removed = fs::remove_file(rt, path);
    }
}

// Makes a device of `sectors` zero sectors in a new file. A fault leaves no file.
fn create_new(rt: &HostRuntime, sectors: u64, path: &str) -> Result<FileDevice, Refusal>
    ensures { IfOk result (λ device. (file_disk device).sectors ≡ sectors) }
{
    if sectors > MAX_SECTORS {
        return Err(Refusal::from(Fault::CannotWriteImage));
    }
    match FileDevice::create_new(rt, path, sectors) {
        Ok(device) => Ok(device),
        Err(Unmade::NoMemory) => Err(Refusal::from(Fault::NoMemory)),
        Err(Unmade::Refused(error)) => Err(Refusal::of_io(error, Fault::CannotWriteImage)),
        Err(Unmade::Unfinished(file, fault)) => {
            remove(rt, &file, path);
            let cause = match fault {
                FileFault::Held => Cause::File(fault),
                FileFault::Io | FileFault::NoMemory => Cause::Unfinished,
            };
            Err(Refusal::new(Fault::CannotWriteImage, cause))
        }
    }
}

// Builds an image in a new file, and returns the end of the command. A fault leaves no file, not even if only the
// output couldn't be written.
fn build_new(
    rt: &HostRuntime,
    blueprint: &Blueprint,
    image: &str,
    stdio: &mut Stdio,
) -> Result<End, Refusal> {
    if let Err(fault) = blueprint.check(rt.alloc()) {
        return Err(Refusal::from(Fault::Build(fault)));
    }
    let mut device = create_new(rt, blueprint.sectors(), image)?;
    let Stdio { output, errors } = stdio;
    let end = End::of_outcome(build_image(rt.alloc(), blueprint, &mut device, output, errors));
    let status = finish(output, end.status, errors);
    if status != 0 {
        remove(rt, device.file().file(), image);
    }
    Ok(End { status, ..end })
}

// Builds an image in a file that may exist, and returns the end of the command.
fn build_over(
    rt: &HostRuntime,
    blueprint: &Blueprint,
    description: &str,
    image: &str,
    stdio: &mut Stdio,
) -> Result<End, Refusal> {
    let mut device = create(rt, blueprint.sectors(), description, image)?;
    let Stdio { output, errors } = stdio;
    let outcome = build_image(rt.alloc(), blueprint, &mut device, output, errors);
    Ok(End::of_outcome(outcome))
}

/// Builds an image from its description, and returns the end of the command. If `is_new`, checks the whole
/// description before it makes the file, and refuses an existing file.
pub(crate) fn build(
    rt: &HostRuntime,
    description: &str,
    image: &str,
    is_new: bool,
    stdio: &mut Stdio,
) -> Result<End, Refusal> {
    let blueprint = read_blueprint(rt, description)?;
    if is_new {
        build_new(rt, &blueprint, image, stdio)
    } else {
        build_over(rt, &blueprint, description, image, stdio)
    }
}
