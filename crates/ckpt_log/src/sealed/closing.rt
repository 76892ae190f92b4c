// Closes the gates of all headers, before a new image overwrites the old one.
ghost use Rattle.std.specs.Prelude.{◌≡◌, ◌≤◌, ◌<◌, length, IfOk, IsFalse, IsTrue, OnOk};
ghost use Rattle.device.specs.Calls.{Counts, Elsewhere, IsTorn, Only};
ghost use Rattle.device.specs.Moments.{LeavesOnly};
ghost use Rattle.header_slots.specs.Committed.{slots_of};
ghost use Rattle.layout.specs.Calls.{ReadsOnly};
ghost use Rattle.layout.specs.sealed.Gate.{numbered_gate_bytes};
ghost use Rattle.ckpt_log.specs.sealed.Closing.{AreClosed, CommitsNone, GoesFirst, IsOrder, IsOrderOf, KeepsOrHasNone};
ghost use Rattle.ckpt_log.specs.sealed.Closing.{WasKeptOrHasNone};
ghost use Rattle.layout.specs.sealed.Opening.{gate_sector};

use crate::sealed::committed::numbers_of;
use crate::sealed::opening::{gate_sector, read_slots};
use crate::sealed::sector::put_sector;
use device::{Device, Failed, SECTOR_SIZE};
use header_slots::{SlotNumbers, counting_number};
use layout::encode_numbered_gate;

/// The header slots in the order in which their gates are closed.
#[derive(Clone, Copy)]
pub(crate) struct Order {
    pub first: u64,
    pub second: u64,
    pub third: u64,
}

// Whether the gate of slot `i` must be closed before that of slot `j`. If not, the gate of `i`
// may be closed after that of `j`.
fn goes_first(slots: &[SlotNumbers], i: u64, j: u64) -> bool
    requires slots { length slots.now ≡ 3 }
    requires first { i < 3 }
    requires second { j < 3 }
    requires apart { i ≡ j → ⊥ }
    ensures yes { IsTrue result → GoesFirst (slots_of slots.now) i j }
    ensures no { IsFalse result → GoesFirst (slots_of slots.now) j i }
{
    match (
        counting_number(slots, i as usize),
        counting_number(slots, j as usize),
    ) {
        (Some(m), Some(n)) => m < n,
        (None, Some(_)) => false,
        (_, None) => true,
    }
}

// Returns an order of all three slots, with slot 2 in its right place. Slots 0 and 1 are `i` and `j`, and `i`
// goes before `j`.
fn with_last(slots: &[SlotNumbers], i: u64, j: u64) -> Order
    requires slots { length slots.now ≡ 3 }
    requires first { i < 2 }
    requires second { j < 2 }
    requires apart { i ≡ j → ⊥ }
    requires early { GoesFirst (slots_of slots.now) i j }
    ensures { IsOrder (slots_of slots.now) result }
{
    if goes_first(slots, 2, i) {
        Order {
            first: 2,
            second: i,
            third: j,
        }
    } else if goes_first(slots, 2, j) {
        Order {
            first: i,
            second: 2,
            third: j,
        }
    } else {
        Order {
            first: i,
            second: j,
            third: 2,
        }
    }
}

// Returns the order in which the gates are closed: those of headers that count, the least number first, then the
// others.
fn order_of(slots: &[SlotNumbers]) -> Order
    requires { length slots.now ≡ 3 }
    ensures { IsOrder (slots_of slots.now) result }
{
    if goes_first(slots, 0, 1) {
        with_last(slots, 0, 1)
    } else {
        with_last(slots, 1, 0)
    }
}

// Returns the order for the headers that a device has now.
fn read_order<D: Device>(device: &mut D) -> Result<Order, Failed>
    requires inside { 56 ≤ (D.disk device.old).sectors }
    ensures order { IfOk result (λ order. IsOrderOf (D.disk device.old).seen order) }
    ensures reads { ReadsOnly (D.disk device.old) (D.disk device.new) }
    ensures cause { Counts (D.disk device.old) (D.disk device.new) result }
{
    let slots = read_slots(device)?;
    Ok(order_of(&numbers_of(&slots)))
}

// Closes the gate of a slot, and syncs, which makes all earlier writes durable too.
fn close_gate<D: Device>(device: &mut D, slot: u64) -> Result<(), Failed>
    requires slot { slot < 3 }
    requires inside { 56 ≤ (D.disk device.old).sectors }
    ensures closed { OnOk result ((D.disk device.new).seen (gate_sector slot) ≡ numbered_gate_bytes 0) }
    ensures durable { OnOk result (Only (D.disk device.new).seen (D.disk device.new)) }
    ensures size { (D.disk device.new).sectors ≡ (D.disk device.old).sectors }
    ensures elsewhere { Elsewhere (gate_sector slot) 1 (D.disk device.old).seen (D.disk device.new).seen }
    ensures any_moment { LeavesOnly (D.disk device.old) (D.disk device.new)
        (λ c. IsTorn (gate_sector slot) 1 (D.disk device.old) c) }
    ensures cause { Counts (D.disk device.old) (D.disk device.new) result }
{
    let mut gate = [0; SECTOR_SIZE];
    encode_numbered_gate(0, &mut gate);
    put_sector(device, gate_sector(slot), &gate)
}

// Closes the gates in this order, each with a sync. All earlier writes must be durable already.
fn close_in_order<D: Device>(device: &mut D, order: Order) -> Result<(), Failed>
    requires inside { 56 ≤ (D.disk device.old).sectors }
    requires order { IsOrderOf (D.disk device.old).seen order }
    requires durable { Only (D.disk device.old).seen (D.disk device.old) }

    ensures closed { OnOk result (AreClosed (D.disk device.new).seen) }
    ensures durable { OnOk result (Only (D.disk device.new).seen (D.disk device.new)) }
    ensures size { (D.disk device.new).sectors ≡ (D.disk device.old).sectors }
    ensures seen { KeepsOrHasNone (D.disk device.old).seen (D.disk device.new).seen }
    ensures any_moment { LeavesOnly (D.disk device.old) (D.disk device.new)
        (λ c. KeepsOrHasNone (D.disk device.old).seen c) }
    ensures cause { Counts (D.disk device.old) (D.disk device.new) result }
{
    close_gate(device, order.first)?;
    close_gate(device, order.second)?;
    close_gate(device, order.third)
}

/// Closes the gates of all headers, so that none is committed. Then this and all earlier writes are durable.
///
/// A crash at any moment leaves an image that differs only in the gates from one that it could have left
/// before; the same header is committed, or none. To ensure this, the gates are closed one after another,
/// each with a sync: first those of headers that count, in rising order of their numbers, then the others.
///
/// It allocates nothing. Returns `Failed` exactly if the device failed.
pub(crate) fn close_gates<D: Device>(device: &mut D) -> Result<(), Failed>
    requires inside { 56 ≤ (D.disk device.old).sectors }

    ensures closed { OnOk result (AreClosed (D.disk device.new).seen) }
    ensures none { OnOk result (CommitsNone (D.disk device.new).seen) }
    ensures durable { OnOk result (Only (D.disk device.new).seen (D.disk device.new)) }
    ensures size { (D.disk device.new).sectors ≡ (D.disk device.old).sectors }
    ensures seen { KeepsOrHasNone (D.disk device.old).seen (D.disk device.new).seen }
    ensures any_moment { LeavesOnly (D.disk device.old) (D.disk device.new)
        (λ c. WasKeptOrHasNone (D.disk device.old) c) }
    ensures cause { Counts (D.disk device.old) (D.disk device.new) result }
{
    device.sync()?;
    let order = read_order(device)?;
    close_in_order(device, order)
}
