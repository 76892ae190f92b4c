// Which header is committed.
ghost use Rattle.std.specs.Prelude.{◌≡◌, ◌+◌, ◌-◌, ◌%◌, ◌<◌, ◌↔◌, ℕ, Some, length, IsTrue, IfSome, IfNone, IfOk, IfErr};
ghost use Rattle.header_slots.specs.Committed.{IsPair, IsRefused, slots_of};
ghost use Rattle.header_slots.specs.Slots.{Counts, IsCommitted};

/// The numbers in a header slot.
#[derive(Clone, Copy)]
pub struct SlotNumbers {
    /// The sequence number of the slot's header, if the header is sound.
    pub header: Option<u64>,
    /// The number of the slot's gate, if the gate has one.
    pub gate: Option<u64>,
}

/// Why no header is committed.
#[derive(Clone, Copy, PartialEq, Eq)]
pub enum NotCommitted {
    /// No two headers with consecutive numbers count.
    NoPair,
    /// The gate after the greatest pair has the next number: the next header was published, and is damaged
    /// now.
    NextGate,
}

/// Returns the number of the header in slot `i`, if this header counts: it is sound, it is in its slot, and
/// the gate there has its number.
pub fn counting_number(slots: &[SlotNumbers], i: usize) -> Option<u64>
    requires slots { length slots.now ≡ 3 }
    requires slot { i < 3 }
    ensures some { IfSome result (λ s. (s % 3 ≡ i) × Counts (slots_of slots.now) s) }
    ensures none { IfNone result ((s : ℕ) → s % 3 ≡ i → Counts (slots_of slots.now) s → ⊥) }
{
    let header = slots[i].header?;
    let gate = slots[i].gate?;
    if header == gate && header % 3 == i as u64 {
        Some(header)
    } else {
        None
    }
}

// Returns the number of the header in slot `i`, or 0 unless this header and the one before it count.
fn pair_at(slots: &[SlotNumbers], i: usize) -> u64
    requires slots { length slots.now ≡ 3 }
    requires slot { i < 3 }
    ensures some { 0 < result → (result % 3 ≡ i) × IsPair (slots_of slots.now) result }
    ensures none { result ≡ 0 → (s : ℕ) → s % 3 ≡ i → IsPair (slots_of slots.now) s → ⊥ }
{
    match (
        counting_number(slots, i),
        counting_number(slots, (i + 2) % 3),
    ) {
        (Some(number), Some(before)) => {
            if number > 0 && before == number - 1 {
                number
            } else {
                0
            }
        }
        _ => 0,
    }
}

// Whether the gate of header `s` + 1 has its number.
fn has_next_gate(slots: &[SlotNumbers], s: u64) -> bool
    requires { length slots.now ≡ 3 }
    ensures { IsTrue result ↔ ((slots_of slots.now ((s + 1) % 3)).gate ≡ Some (s + 1)) }
{
    match slots[((s % 3 + 1) % 3) as usize].gate {
        Some(number) => number > 0 && number - 1 == s,
        None => false,
    }
}

/// Returns the sequence number of the committed header, from the numbers in the three slots.
///
/// Returns `NoPair` if no two headers with consecutive numbers count, and `NextGate` if the gate after the
/// greatest such pair has the next number.
pub fn committed(slots: &[SlotNumbers]) -> Result<u64, NotCommitted>
    requires { length slots.now ≡ 3 }
    ensures ok { IfOk result (λ s. IsCommitted (slots_of slots.now) s) }
    ensures err { IfErr result (λ why. IsRefused (slots_of slots.now) why) }
{
    let mut greatest = 0;
    for i in 0..3 {
        let number = pair_at(slots, i);
        if number > greatest {
            greatest = number;
        }
    }
    if greatest == 0 {
        return Err(NotCommitted::NoPair);
    }
    if has_next_gate(slots, greatest) {
        return Err(NotCommitted::NextGate);
    }
    Ok(greatest)
}
