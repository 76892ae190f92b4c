// Why banks fail the check.

/// Why banks don't form a tree that owns all objects within their limits.
#[derive(Clone, Copy)]
pub enum Unbanked {
    /// Number 0 isn't a bank that owns itself.
    Prime,
    /// The owner of an object isn't a bank.
    Owner { object: u64, owner: u64 },
    /// The chain of this bank, of at most 16 banks, doesn't reach number 0.
    Chain(u64),
    /// The usage of a bank is above its limit.
    Limit { bank: u64, used: u64, limit: u64 },
}
