// Opening a device.
ghost use Rattle.std.specs.Prelude.{◌≡◌, ◌+◌, ◌≤◌, [], None, length, replicate, vec_capacity, IfOk, IfErr, OnOk};
ghost use Rattle.device.specs.Calls.{Only};
ghost use Rattle.layout.specs.Denoted.{HasPlan};
ghost use Rattle.layout.specs.Spelt.{count_of};
ghost use Rattle.layout.specs.Superblock.{Plan};
ghost use Rattle.layout.specs.Calls.{ReadsOnly};
ghost use Rattle.migrator.specs.Durable.{stored_of};
ghost use Rattle.migrator.specs.Opened.{OpensDurable};
ghost use Rattle.layout.specs.Fault.{CountsOpen};
ghost use Rattle.checkpoint.specs.Opened.{IsBadFor, OnlyReads, Refuses};
ghost use Rattle.migrator.specs.Reserve.{IsReadInto, IsReserve, first_books};

use crate::books::Books;
use crate::cluster_buffer::ClusterBuffer;
use crate::directory::{Directory, blank_entries};
use crate::durable::Durable;
use crate::image::{read_image, sync_and_read_superblock};
use crate::intake::Intake;
use crate::table::{Place, Table};
use checkpoint::{OpenFault, OpenRefused};
use device::Device;
use layout::{Entry, Scratch, SealedHeader, Superblock};
use model::Geometry;
use std::alloc::{AllocError, Global};

/// An opened store, and the intake that took its saved frames.
#[derive(Drop)]
pub struct Opened<D: Device, I: Intake> {
    pub store: Durable<D>,
    pub taken: I,
}

// The five structs below are each built by one function and taken apart by the next. They shorten the proofs:
// where a call may fail, the function drops all values that it owns, and a struct's `drop` is proved once for
// its type.

// Memory for the saved directory, and for the next one.
#[derive(Drop)]
struct Directories {
    saved: Vec<Entry>,
    spare: Directory,
}

// The slots of the frozen frames, and of the working ones.
#[derive(Drop)]
struct Tables {
    frozen: Table,
    working: Table,
}

// All memory that a store needs.
#[derive(Drop)]
struct Reserve {
    directories: Directories,
    tables: Tables,
    buffer: ClusterBuffer,
}

// The intake of the frames, and the scratch buffer for the frame that is being read.
#[derive(Drop)]
struct Sink<I: Intake> {
    taken: I,
    scratch: Scratch,
}

// What was read from a device, and the memory for a store over it.
#[derive(Drop)]
struct Parts<I: Intake> {
    plan: Superblock,
    header: SealedHeader,
    reserve: Reserve,
    taken: I,
}

impl Directories {
    fn new(alloc: Global, count: u64) -> Result<Directories, AllocError>
        ensures length { IfOk result (λ two. length two.saved.items ≡ count) }
        ensures room { IfOk result (λ two. 4096 ≤ vec_capacity two.saved) }
    {
        Ok(Directories {
            saved: blank_entries(alloc, count)?,
            spare: Directory::new(alloc)?,
        })
    }
}

impl Tables {
    fn new(alloc: Global, count: usize) -> Result<Tables, AllocError>
        ensures frozen { IfOk result (λ two. two.frozen ≡ replicate count Place.Nowhere) }
        ensures working { IfOk result (λ two. two.working ≡ replicate count Place.Nowhere) }
    {
        Ok(Tables {
            frozen: Table::new(alloc, count)?,
            working: Table::new(alloc, count)?,
        })
    }
}

impl Reserve {
    fn new(alloc: Global, geometry: Geometry) -> Result<Reserve, AllocError>
        requires { geometry.nodes + geometry.pages ≤ 8192 }
        ensures { (p : Plan) → p.geometry ≡ geometry → IfOk result (λ reserve.
            IsReserve p reserve) }
    {
        let count = (geometry.nodes + geometry.pages) as usize;
        Ok(Reserve {
            buffer: ClusterBuffer::new(alloc)?,
            directories: Directories::new(alloc, geometry.log)?,
            tables: Tables::new(alloc, count)?,
        })
    }
}

impl<I: Intake> Sink<I> {
    fn new(alloc: Global, geometry: Geometry, memory: &mut I::Memory) -> Result<Sink<I>, AllocError>
        requires { geometry.nodes + geometry.pages ≤ 8192 }
        ensures none { IfOk result (λ sink. I.Took sink.taken []) }
        ensures room { IfOk result (λ sink. geometry.nodes + geometry.pages ≤ I.room sink.taken) }
    {
        Ok(Sink {
            taken: I::new(alloc, geometry, memory)?,
            scratch: Scratch::new(alloc)?,
        })
    }
}

// Returns the books of an image to which nothing was written since it was opened.
fn first_books(
    plan: Superblock,
    header: SealedHeader,
    saved: Vec<Entry>,
    tables: Tables,
    buffer: ClusterBuffer,
) -> Books
    requires room { 4096 ≤ vec_capacity saved }
    requires empty { buffer ≡ None }
    ensures { result ≡ first_books plan header saved.items tables.frozen tables.working }
{
    Books {
        plan,
        header: header.header,
        root: header.root,
        directory: Directory::of(saved, header.header.entries),
        moved: 0,
        frozen: tables.frozen,
        frozen_size: None,
        working: tables.working,
        unwritten: buffer,
    }
}

// Reads a whole image: puts the directory into `reserve`, and passes all frames to the intake.
#[tactic(auto, using(crate::proofs::Opening::reads_none))]
fn read_into<D: Device, I: Intake>(
    alloc: Global,
    device: &mut D,
    plan: &Superblock,
    reserve: &mut Reserve,
    memory: &mut I::Memory,
) -> Result<(SealedHeader, I), OpenFault>
    requires plan { HasPlan (D.disk device.old).seen (D.disk device.old).sectors plan.now }
    requires reserved { IsReserve plan.now reserve.old }
    ensures whole { IfOk result (λ read. IsReadInto I.Took (D.disk device.old).seen
        plan.now read.0 reserve.new read.1) }
    ensures refused { IfErr result (λ e.
        IsBadFor (D.disk device.old).seen (D.disk device.old).sectors e) }
    ensures reads { ReadsOnly (D.disk device.old) (D.disk device.new) }
    ensures cause { CountsOpen (D.disk device.old) (D.disk device.new) result }
{
    match Sink::new(alloc, plan.geometry(), memory) {
        Ok(sink) => {
            let Sink {
                mut taken,
                mut scratch,
            } = sink;
            let saved = &mut reserve.directories.saved;
            match read_image(alloc, device, plan, saved, &mut scratch, &mut taken) {
                Ok(header) => Ok((header, taken)),
                Err(fault) => Err(fault),
            }
        }
        Err(_) => Err(OpenFault::NoMemory),
    }
}

// Reads the whole image on a device.
fn read_parts<D: Device, I: Intake>(
    alloc: Global,
    device: &mut D,
    memory: &mut I::Memory,
) -> Result<Parts<I>, OpenFault>
    ensures plan { IfOk result (λ parts.
        HasPlan (D.disk device.old).seen (D.disk device.old).sectors parts.plan) }
    ensures whole { IfOk result (λ parts. IsReadInto I.Took (D.disk device.old).seen
        parts.plan parts.header parts.reserve parts.taken) }
    ensures durable { OnOk result (Only (D.disk device.new).seen (D.disk device.new)) }
    ensures refused { IfErr result (λ e.
        IsBadFor (D.disk device.old).seen (D.disk device.old).sectors e) }
    ensures only_reads { OnlyReads (D.disk device.old) (D.disk device.new) }
    ensures cause { CountsOpen (D.disk device.old) (D.disk device.new) result }
{
    match sync_and_read_superblock(device) {
        Ok(plan) => match Reserve::new(alloc, plan.geometry()) {
            Ok(mut reserve) => match read_into(alloc, device, &plan, &mut reserve, memory) {
                Ok((header, taken)) => Ok(Parts {
                    plan,
                    header,
                    reserve,
                    taken,
                }),
                Err(fault) => {
                    drop(reserve);
                    Err(fault)
                }
            },
            Err(_) => Err(OpenFault::NoMemory),
        },
        Err(fault) => Err(fault),
    }
}

impl<D: Device> Durable<D> {
    /// Opens a device, and writes nothing to it. Syncs it first, then reads the committed header, its
    /// directory, and every saved frame once. `I` takes each frame when it is read, and may use `memory`. No
    /// later call allocates.
    ///
    /// A refusal returns the device, with the reason: `Failed` exactly if the device failed, `NoMemory` only
    /// if memory ran out, else the least of reasons 1 to 7 that holds.
    pub fn open<I: Intake>(
        alloc: Global,
        device: D,
        memory: &mut I::Memory,
    ) -> Result<Opened<D, I>, OpenRefused<D>>
        ensures opened { IfOk result (λ o. OpensDurable D.disk device o.store) }
        ensures took { IfOk result (λ o. I.Took o.taken (stored_of D.disk o.store).saved.frames) }
        ensures refused { IfErr result (λ r. Refuses D.disk device r.device r.fault) }
    {
        let mut device = device;
        match read_parts(alloc, &mut device, memory) {
            Ok(parts) => {
                let Parts {
                    plan,
                    header,
                    reserve,
                    taken,
                } = parts;
                let Reserve {
                    directories,
                    tables,
                    buffer,
                } = reserve;
                let books = first_books(plan, header, directories.saved, tables, buffer);
                let store = Durable {
                    device,
                    books,
                    spare: directories.spare,
                };
                Ok(Opened { store, taken })
            }
            Err(fault) => Err(OpenRefused { fault, device }),
        }
    }
}
