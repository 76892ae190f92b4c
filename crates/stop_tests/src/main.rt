//! Runs a script over an image in memory: once, or again and again with a device that stops at each of its calls in
//! turn. Prints the answers, and what the device holds after a power cut. Upgrades or copies an image in the same
//! way. It checks nothing itself: `checks/stops` and `checks/upgrades` do.
#![tactic(auto)]

mod deeds;
mod filled_devices;
mod stops;
mod task;
mod upgrades;

use devices::Outcome;
use image_builder::NewLayout;
use object_cache::Capacity;
use std::fs;
use std::io::Write;
use task::{Deed, Task};

const USAGE: &str =
    "usage: stop_tests IMAGE SCRIPT TAIL LAST CAPACITY [OUTCOME ..], or upgrade|copy OLD NEW LAST [OUTCOME ..]";

// Returns the layout that `upgrade` or `copy` writes, or `None` for another word.
fn layout_of(word: &str) -> Option<NewLayout> {
    match word {
        "upgrade" => Some(NewLayout::Newest),
        "copy" => Some(NewLayout::Kept),
        _ => None,
    }
}

// Returns the bytes of these files.
fn read_all(rt: &HostRuntime, files: &[String]) -> anyhow::Result<Vec<Vec<u8>>> {
    let mut texts = Vec::new(rt.alloc());
    for file in files {
        texts.push(fs::read(rt, file.as_str())?)?;
    }
    Ok(texts)
}

// Returns the task with the bytes of these files: four for a script, three for an upgrade or a copy.
fn task_of<'a>(rt: &HostRuntime, texts: &'a [Vec<u8>]) -> anyhow::Result<Task<'a>> {
    match texts {
        [image, script, tail, last] => Ok(Task {
            alloc: rt.alloc(),
            image,
            script,
            tail,
            last,
        }),
        [image, script, last] => Ok(Task {
            alloc: rt.alloc(),
            image,
            script,
            tail: b"",
            last,
        }),
        _ => anyhow::bail!(USAGE),
    }
}

// Runs a script over an image, with each outcome of a power cut; if none is given, without stops.
fn run_script<W: Write>(
    rt: &HostRuntime,
    files: &[String],
    settings: &[String],
    writer: &mut W,
) -> anyhow::Result<()> {
    let Some((capacity, outcomes)) = settings.split_first() else {
        anyhow::bail!(USAGE);
    };
    let deed = Deed::Run(Capacity::new(capacity.as_str().parse::<u64>()?));
    let texts = read_all(rt, files)?;
    let task = task_of(rt, &texts)?;
    if outcomes.is_empty() {
        return task.do_whole(&deed, writer);
    }
    task.try_outcomes(&deed, outcomes, writer)
}

// Upgrades or copies an image to a new device: with a stop at each call of the old device, and for each outcome with
// a stop at each call of the new one.
fn run_upgrades<W: Write>(
    rt: &HostRuntime,
    layout: NewLayout,
    files: &[String],
    outcomes: &[String],
    writer: &mut W,
) -> anyhow::Result<()> {
    let texts = read_all(rt, files)?;
    let task = task_of(rt, &texts)?;
    writeln!(writer, "= old")?;
    task.stop_at_each(&Deed::StopOld(layout), Outcome::Drop, writer)?;
    task.try_outcomes(&Deed::StopNew(layout), outcomes, writer)
}

// Does what the words ask for. `files` are the first four words after the program's name.
fn work(rt: &HostRuntime, files: &[String], settings: &[String]) -> anyhow::Result<()> {
    let mut writer = rt.stdout();
    let Some((first, others)) = files.split_first() else {
        anyhow::bail!(USAGE);
    };
    match layout_of(first.as_str()) {
        Some(layout) => run_upgrades(rt, layout, others, settings, &mut writer),
        None => run_script(rt, files, settings, &mut writer),
    }
}

// Does what the words ask for. If there are too few, prints the usage.
fn main(rt: HostRuntime) -> anyhow::Result<()> {
    let words: Vec<String> = std::env::args(&rt)?.collect(rt.alloc())?;
    match (words.get(1..5), words.get(5..)) {
        (Some(files), Some(settings)) => work(&rt, files, settings),
        _ => {
            println!(rt; "{USAGE}")?;
            Ok(())
        }
    }
}
