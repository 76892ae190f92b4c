// The table of all objects' headers.
ghost use Rattle.std.specs.Prelude.{◌≡◌, ◌<◌, length, not, nat_lt, slice_set};
ghost use Rattle.model.specs.Frame.{header_at, current_count, conveyed, given_up, owned_by, called, claimed};
ghost use Rattle.capability.specs.Objects.{live_cap};

use model::{Cap, Capability, ObjectHeader, Role};
use std::marker::Model;

/// The headers of all objects, by number. No call allocates or fails.
#[derive(Drop)]
pub struct ObjectTable {
    headers: Vec<ObjectHeader>,
}

impl Model for ObjectTable {
    ghost use Rattle.std.specs.Prelude.{List};
    ghost use Rattle.model.specs.declared.frame.ObjectHeader.{ObjectHeader};

    ghost Value = { List ObjectHeader };

    ghost view = { λ t. t.headers.items };
}

impl ObjectTable {
    /// A table with these headers.
    pub fn new(headers: Vec<ObjectHeader>) -> ObjectTable
        ensures { result ≡ headers.items }
    {
        ObjectTable { headers }
    }

    /// Returns the headers, by number.
    pub fn into_headers(self) -> Vec<ObjectHeader>
        ensures { result.items ≡ self }
    {
        self.headers
    }

    /// Borrows the headers, by number.
    pub fn headers(&self) -> &[ObjectHeader]
        ensures { result.now ≡ self.now }
    {
        self.headers.as_slice()
    }

    /// How many numbers there are, free ones included.
    pub fn count(&self) -> u64
        ensures { result ≡ length self.now }
    {
        self.headers.len() as u64
    }

    /// The header of a number, or a blank one if there is no such number.
    pub fn header(&self, number: u64) -> ObjectHeader
        ensures { result ≡ header_at self.now number }
    {
        match self.headers.get(number as usize) {
            Some(header) => *header,
            None => ObjectHeader {
                role: Role::Free,
                allocations: 0,
                calls: 0,
                owner: 0,
            },
        }
    }

    /// The present count of a capability's object. A capability stored with this count is live until the
    /// count rises.
    pub fn current_count(&self, capability: Capability) -> u64
        ensures { result ≡ current_count self.now capability }
    {
        let Some(number) = capability.named() else {
            return 0;
        };
        let header = self.header(number);
        if let Capability::Resume(_) = capability {
            header.calls
        } else {
            header.allocations
        }
    }

    /// A capability as it is stored: with its object's present count, so it is live.
    #[inline(always)]
    pub fn live_cap(&self, capability: Capability) -> Cap
        ensures { result ≡ live_cap self.now capability }
    {
        Cap {
            what: capability,
            count: self.current_count(capability),
        }
    }

    /// Whether a stored capability is live: its object's count hasn't risen since.
    pub fn is_live(&self, held: Cap) -> bool
        ensures { result ≡ not (nat_lt held.count (current_count self.now held.what)) }
    {
        held.count >= self.current_count(held.what)
    }

    /// What a stored capability conveys: void if it is stale.
    pub fn conveyed(&self, held: Cap) -> Capability
        ensures { result ≡ conveyed self.now held }
    {
        if self.is_live(held) {
            held.what
        } else {
            Capability::Void
        }
    }

    /// Makes a free number an object of a bank. Its counts stay.
    pub fn claim(&mut self, number: u64, role: Role, owner: u64)
        requires { number < length self.old }
        ensures { self.new ≡ slice_set self.old number
            (claimed role owner (header_at self.old number)) }
    {
        let header = &mut self.headers[number as usize];
        header.role = role;
        header.owner = owner;
    }

    /// Makes another bank the owner of an object.
    pub fn set_owner(&mut self, number: u64, bank: u64)
        requires { number < length self.old }
        ensures { self.new ≡ slice_set self.old number (owned_by bank (header_at self.old number)) }
    {
        self.headers[number as usize].owner = bank;
    }

    /// Frees an object and raises both of its counts by one.
    pub fn rescind(&mut self, number: u64)
        requires known { number < length self.old }
        requires allocations { (header_at self.old number).allocations < u64.MAX }
        requires calls { (header_at self.old number).calls < u64.MAX }
        ensures { self.new ≡ slice_set self.old number (given_up (header_at self.old number)) }
    {
        let header = &mut self.headers[number as usize];
        header.role = Role::Free;
        header.allocations += 1;
        header.calls += 1;
        header.owner = 0;
    }

    /// Raises a process's call count by one, which makes every resume capability to it stale.
    pub fn consume(&mut self, root: u64)
        requires known { root < length self.old }
        requires calls { (header_at self.old root).calls < u64.MAX }
        ensures { self.new ≡ slice_set self.old root (called (header_at self.old root)) }
    {
        self.headers[root as usize].calls += 1;
    }
}
