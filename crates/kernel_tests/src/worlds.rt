// Two worlds, and runs over devices in memory that hold one of them.
use checkpoint::ObjectStore;
use device::Device;
use devices::{Memory, Outcome};
use image_builder::build;
use kernel::Kernel;
use object_cache::PlainStore;
use runs::{Script, run};
use script::{Output, RunFault};
use std::alloc::Global;
use std::test::Fail;

/// In this world process 1 runs, and holds node 5 in register 5 and page 16 in register 6.
pub(crate) const FIRST_WORLD: &str = "
nodes = 16
pages = 8
log = 16
bank = [{ number = 0, owner = 0, limit = 1000 }]
process = [{ root = 1, annex = 2, owner = 0, state = 'running', registers = [[5, 'node 5'], [6, 'page 16']] }]
node = [{ number = 5, owner = 0 }]
page = [{ number = 16, owner = 0 }]
";

/// In this world process 1 runs. Its registers 1 to 4 hold itself, the prime bank, the right to start process 3 with
/// key 7, and process 3, which is available.
pub(crate) const SECOND_WORLD: &str = "
nodes = 16
pages = 8
log = 16
bank = [{ number = 0, owner = 0, limit = 1000 }]
process = [
    { root = 1, annex = 2, owner = 0, state = 'running', registers = [
        [1, 'process 1'], [2, 'bank 0'], [3, 'start 3 7'], [4, 'process 3'],
    ] },
    { root = 3, annex = 4, owner = 0, state = 'available' },
]
";

/// Returns a new device that holds the world of a description.
pub(crate) fn device_of(alloc: Global, world: &str) -> Result<Memory, Fail> {
    let device = Memory::new(alloc, 399, 4000, Outcome::Drop)?;
    built(alloc, world, device)
}

// Builds the image of a description on a device.
fn built<D: Device>(alloc: Global, description: &str, device: D) -> Result<D, Fail> {
    let mut device = device;
    let table = toml::table_from_str(alloc, description)?;
    build(alloc, &table, &mut device)?;
    Ok(device)
}

// Opens a device with a store of type `S`, and returns how a run over it ends.
fn run_by<D: Device, S: ObjectStore<D>, R: Script, W: Output>(
    alloc: Global,
    device: D,
    setting: S::Setting,
    reader: &mut R,
    writer: &mut W,
) -> Result<Result<(), RunFault>, Fail> {
    match Kernel::<D, S>::open(alloc, device, setting) {
        Ok(mut kernel) => Ok(run(&mut kernel, reader, writer)),
        Err(_) => Err(Fail::new("a device that isn't opened")),
    }
}

/// Returns how a run over a device ends. Only this function names a store type, because each function that names
/// one compiles slowly.
pub(crate) fn run_over<D: Device, R: Script, W: Output>(
    alloc: Global,
    device: D,
    reader: &mut R,
    writer: &mut W,
) -> Result<Result<(), RunFault>, Fail> {
    run_by::<_, PlainStore<_>, _, _>(alloc, device, (), reader, writer)
}
