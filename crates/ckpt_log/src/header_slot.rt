// The two header slots.
ghost use Rattle.std.specs.Prelude.{◌≡◌, ◌%◌, ◌<◌, ◌^◌};
ghost use Rattle.ckpt_log.specs.HeaderSlot.{slot_number, other_slot, header_at, gate_at};

use layout::CheckpointHeader;

/// A header slot: a sector for the header and, after it, one for its gate. Headers use the two slots in turn.
#[derive(Clone, Copy)]
pub enum HeaderSlot {
    First,
    Second,
}

impl HeaderSlot {
    // Returns the slot that a header belongs in, by its sequence number.
    pub(crate) fn of(header: CheckpointHeader) -> HeaderSlot
        ensures value { slot_number result ≡ header.sequence % 2 }
        ensures fits { header.sequence < 2 ^ 64 }
    {
        if header.sequence % 2 == 0 {
            HeaderSlot::First
        } else {
            HeaderSlot::Second
        }
    }

    // Returns the other slot: the one for the previous and the next header.
    pub(crate) fn other(self) -> HeaderSlot
        ensures { result ≡ other_slot self }
    {
        match self {
            HeaderSlot::First => HeaderSlot::Second,
            HeaderSlot::Second => HeaderSlot::First,
        }
    }

    // Returns the number of the slot, 0 or 1: the sequence numbers of its headers, modulo 2.
    pub(crate) fn number(self) -> u64
        ensures value { result ≡ slot_number self }
        ensures low { result < 2 }
    {
        match self {
            HeaderSlot::First => 0,
            HeaderSlot::Second => 1,
        }
    }

    /// Returns the sector of the header.
    pub fn header(self) -> u64
        ensures value { result ≡ header_at self }
        ensures inside { result < 5 }
    {
        1 + 2 * self.number()
    }

    /// Returns the sector of the header's gate.
    pub fn gate(self) -> u64
        ensures value { result ≡ gate_at self }
        ensures inside { result < 5 }
    {
        2 + 2 * self.number()
    }
}
