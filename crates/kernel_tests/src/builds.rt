// Building images on devices that are too small or that stop.
use device::Device;
use devices::{Fuse, Memory, Outcome};
use image_builder::build;
use std::alloc::Global;
use std::test::Fail;

const PRIME: &str = "bank = [{ number = 0, owner = 0, limit = 1 }]";

const SECOND: &str = "layout = 2\nbank = [{ number = 0, owner = 0, limit = 1 }]";

const THIRD: &str = "layout = 3\nbank = [{ number = 0, owner = 0, limit = 1 }]";

// Builds the image of a description of 16 nodes whose text ends with `rest`. Returns the number of the fault, or 0
// if there is none.
fn fault<D: Device>(alloc: Global, rest: &str, device: &mut D) -> Result<u64, Fail> {
    let mut text = String::new(alloc);
    text.push_str("nodes = 16\npages = 8\nlog = 16\n")?;
    text.push_str(rest)?;
    let table = toml::table_from_str(alloc, text.as_str())
        .ok()
        .ok_or("no table")?;
    match build(alloc, &table, device) {
        Ok(()) => Ok(0),
        Err(fault) => Ok(fault.number()),
    }
}

#[test]
fn a_small_device_is_reported_last(rt: HostRuntime) -> Result<(), Fail> {
    for (rest, reported) in [
        (PRIME, 7),
        (SECOND, 7),
        (THIRD, 7),
        ("colour = 1", 1),
        ("layout = '2'", 1),
        ("layout = 0", 2),
        ("layout = 4", 2),
        ("age = 4611686018427387905", 2),
        ("bank = [{ number = 16, owner = 0, limit = 1 }]", 3),
        ("node = [{number=5, owner=0, slots=[[32, 'void']]}]", 4),
        ("node = [{number=5, owner=0, slots=[[0, 'node 6']]}]", 5),
        ("", 6),
    ] {
        let mut device = Memory::new(rt.alloc(), 398, 2000, Outcome::Keep)?;
        assert_eq!(rt;
            fault(rt.alloc(), rest, &mut device)?,
            reported,
            "of {rest}"
        );
    }
    Ok(())
}

// A build closes the gates of an old image: it syncs, reads sector 0, syncs, reads 4 times and finds the gates of version
// 1 closed, clears those of version 3 in 3 writes, and syncs. It writes sector 0 and syncs. It writes the frames in 24
// writes; in versions 2 and 3, with 4 clusters, in 12. It writes the header, syncs, writes the gate, and syncs. In version
// 3 there are 3 writes of header slots, and 2 of gates.
#[test]
fn a_device_that_stops_is_reported(rt: HostRuntime) -> Result<(), Fail> {
    for (rest, needed) in [(PRIME, 41), (SECOND, 29), (THIRD, 32)] {
        for calls in 0..48 {
            let device = Memory::new(rt.alloc(), 464, 2000, Outcome::Keep)?;
            let reported = if calls < needed { 8 } else { 0 };
            let found = fault(rt.alloc(), rest, &mut Fuse::new(device, calls))?;
            assert_eq!(rt; found, reported, "of {rest} after {calls} calls");
        }
    }
    Ok(())
}
