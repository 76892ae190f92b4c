// Makes a store over a device that was opened.
ghost use Rattle.std.specs.Prelude.{◌≡◌, ◌≤◌, None, false, true, length, replicate, IfOk, IfErr};
ghost use Rattle.migrator.specs.Durable.{stored_of};
ghost use Rattle.object_cache.specs.StoreState.{AreAll, AreTaken, HoldBodies, IsJustOpened, IsOpenOver};

use crate::headers::FrozenHeaders;
use crate::policy::Policy;
use crate::saved_objects::SavedObjects;
use crate::staging::Staging;
use crate::store::Store;
use cache_entries::Entries;
use capability::ObjectTable;
use collections::NumberSet;
use device::Device;
use layout::Scratch;
use migrator::Durable;
use model::ObjectHeader;
use std::alloc::{AllocError, Global};
use std::marker::PhantomData;

// `Marks` and `Reserve` are each built by one function and taken apart by the next. They shorten the proofs:
// where an allocation may fail, the function drops all values that it owns, and a struct is one value.

// The sets of touched, dirty and pending numbers, which are empty at first.
#[derive(Drop)]
struct Marks {
    touched: NumberSet,
    dirty: NumberSet,
    pending: NumberSet,
}

impl Marks {
    fn new(alloc: Global, count: usize) -> Result<Marks, AllocError>
        ensures touched { IfOk result (λ marks. marks.touched ≡ replicate count false) }
        ensures dirty { IfOk result (λ marks. marks.dirty ≡ replicate count false) }
        ensures pending { IfOk result (λ marks. marks.pending ≡ replicate count false) }
    {
        Ok(Marks {
            touched: NumberSet::new(alloc, count)?,
            dirty: NumberSet::new(alloc, count)?,
            pending: NumberSet::new(alloc, count)?,
        })
    }
}

// The memory of a store, except for the headers and the entries.
#[derive(Drop)]
struct Reserve {
    frozen_headers: FrozenHeaders,
    marks: Marks,
    staging: Staging,
    scratch: Scratch,
}

impl Reserve {
    fn new(alloc: Global, headers: &[ObjectHeader]) -> Result<Reserve, AllocError>
        ensures headers { IfOk result (λ reserve. reserve.frozen_headers ≡ headers.now) }
        ensures touched { IfOk result (λ reserve.
            reserve.marks.touched ≡ replicate (length headers.now) false) }
        ensures dirty { IfOk result (λ reserve.
            reserve.marks.dirty ≡ replicate (length headers.now) false) }
        ensures pending { IfOk result (λ reserve.
            reserve.marks.pending ≡ replicate (length headers.now) false) }
        ensures staging { IfOk result (λ reserve. reserve.staging ≡ None) }
    {
        Ok(Reserve {
            frozen_headers: FrozenHeaders::new(alloc, headers)?,
            marks: Marks::new(alloc, headers.len())?,
            staging: Staging::new(alloc)?,
            scratch: Scratch::new(alloc)?,
        })
    }
}

impl<D: Device, P: Policy> Store<D, P> {
    // Returns a store over a durable store that was just opened. The bodies in `entries` must be the saved
    // ones, and all of them if the policy keeps all bodies in memory. If memory runs out, returns the durable
    // store.
    fn new(
        alloc: Global,
        durable: Durable<D>,
        headers: Vec<ObjectHeader>,
        entries: Entries,
    ) -> Result<Store<D, P>, Durable<D>>
        requires opened { IsJustOpened (stored_of D.disk durable) headers.items }
        requires bodies { HoldBodies entries (stored_of D.disk durable).saved.frames }
        requires whole { P.KEEPS_ALL ≡ true → AreAll entries }
        ensures made { IfOk result (λ store. IsOpenOver D.disk durable entries.most store) }
        ensures back { IfErr result (λ back. back ≡ durable) }
    {
        match Reserve::new(alloc, &headers) {
            Ok(reserve) => {
                let Reserve {
                    frozen_headers,
                    marks,
                    staging,
                    scratch,
                } = reserve;
                Ok(Store {
                    durable,
                    table: ObjectTable::new(headers),
                    touched: marks.touched,
                    touched_count: 0,
                    dirty: marks.dirty,
                    entries,
                    pending: marks.pending,
                    frozen_headers,
                    left: 0,
                    staging,
                    scratch,
                    policy: PhantomData,
                })
            }
            Err(_) => {
                drop(entries);
                Err(durable)
            }
        }
    }

    // Returns a store over a durable store that was just opened, with the saved objects. If memory runs out, returns
    // the device.
    pub(crate) fn over(
        alloc: Global,
        durable: Durable<D>,
        saved: SavedObjects<P>,
        setting: P::Setting,
        memory: &mut Option<Entries>,
    ) -> Result<Store<D, P>, D>
        requires opened { IsJustOpened (stored_of D.disk durable) saved.headers }
        requires took { AreTaken saved (stored_of D.disk durable).saved.frames }
        requires few { length saved.headers ≤ 8192 }
        ensures made { IfOk result (λ store. IsOpenOver D.disk durable
            (P.most_for setting (length saved.headers)) store) }
        ensures back { IfErr result (λ device. device ≡ durable.beneath) }
    {
        match saved.into_parts(alloc, setting, memory) {
            Ok(parts) => match Store::new(alloc, durable, parts.0, parts.1) {
                Ok(store) => Ok(store),
                Err(durable) => Err(durable.into_device()),
            },
            Err(_) => Err(durable.into_device()),
        }
    }
}
