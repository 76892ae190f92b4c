// The calls that are kept until they are taken.
ghost use Rattle.std.specs.Prelude.{◌≡◌, ◌≢◌, ◌∷◌, ◌++◌, [], List, IfSome, IfNone, take, drop, length, OnOk, OnErr};
ghost use Rattle.vezhnake.specs.HostCalls.{HostCall, header_of, number_bytes, encoded, encoding};
ghost use Rattle.vezhnake.specs.Pending.{DropsTaken, Keeps};

use device::Failed;
use std::alloc::{AllocError, Global};

/// Encoded calls that may not have been taken yet.
#[derive(Drop)]
pub struct Pending {
    pub bytes: Vec<u8>,
    /// How many calls were made before those in `bytes`.
    pub start: u64,
    /// How many calls were made in all.
    pub count: u64,
}

// Appends the eight bytes of a number. If it fails, the bytes are unchanged.
#[tactic(auto, unfolding(crate::specs::HostCalls::number_bytes))]
fn append_number(bytes: &mut Vec<u8>, number: u64) -> Result<(), AllocError>
    ensures ok { OnOk result (bytes.new.items ≡ bytes.old.items ++ number_bytes number) }
    ensures err { OnErr result (bytes.new.items ≡ bytes.old.items) }
{
    bytes.extend_from_slice(&number.to_le_bytes())
}

// Appends a header and these bytes. If it fails, some of them may have been appended.
fn append_parts(bytes: &mut Vec<u8>, byte: u64, from: &[u8]) -> Result<(), AllocError>
    ensures ok { OnOk result (bytes.new.items ≡ bytes.old.items ++ (header_of byte (length from.now) ++ from.now)) }
    ensures kept { take (length bytes.old.items) bytes.new.items ≡ bytes.old.items }
{
    append_number(bytes, byte)?;
    append_number(bytes, from.len() as u64)?;
    bytes.extend_from_slice(from)
}

// Appends a header and these bytes. If it fails, the bytes are unchanged.
fn append_call(bytes: &mut Vec<u8>, byte: u64, from: &[u8]) -> Result<(), AllocError>
    ensures ok { OnOk result (bytes.new.items ≡ bytes.old.items ++ (header_of byte (length from.now) ++ from.now)) }
    ensures err { OnErr result (bytes.new.items ≡ bytes.old.items) }
{
    let length = bytes.len();
    match append_parts(bytes, byte, from) {
        Ok(()) => Ok(()),
        Err(error) => {
            bytes.truncate(length);
            Err(error)
        }
    }
}

impl Pending {
    /// Returns a value that keeps no calls.
    pub fn new(alloc: Global) -> Pending
        ensures { Keeps result [] }
    {
        Pending {
            bytes: Vec::new(alloc),
            start: 0,
            count: 0,
        }
    }

    // Drops the kept bytes if all calls were taken. `taken` is the number of calls taken.
    fn drop_taken(&mut self, taken: u64)
        ensures kept { (calls : List HostCall) → Keeps self.old calls → Keeps self.new calls }
        ensures dropped { DropsTaken self.old self.new taken }
    {
        if taken == self.count {
            self.bytes.clear();
            self.start = self.count;
        }
    }

    /// Appends a call: a header with the number `byte`, and the bytes `from`. If all earlier calls were taken
    /// (`taken` counts those that were), drops their bytes first.
    ///
    /// Returns `Failed` if memory runs out: then no call is added.
    pub fn add(&mut self, taken: u64, byte: u64, from: &[u8]) -> Result<(), Failed>
        ensures ok { OnOk result ((calls : List HostCall) (call : HostCall)
            → encoding call ≡ header_of byte (length from.now) ++ from.now
            → Keeps self.old calls → Keeps self.new (calls ++ call ∷ [])) }
        ensures err { OnErr result ((calls : List HostCall) → Keeps self.old calls → Keeps self.new calls) }
        ensures dropped { DropsTaken self.old self.new taken }
    {
        self.drop_taken(taken);
        let Some(count) = self.count.checked_add(1) else {
            return Err(Failed);
        };
        match append_call(&mut self.bytes, byte, from) {
            Ok(()) => {
                self.count = count;
                Ok(())
            }
            Err(_) => Err(Failed),
        }
    }

    /// Returns the encoded calls after the first `taken`, or `None` if they aren't kept any more. They are kept if
    /// `taken` is the number of calls before the kept ones, or of all calls.
    pub fn since(&self, taken: u64) -> Option<&[u8]>
        ensures some { IfSome result (λ bytes. (calls : List HostCall) → Keeps self.now calls
            → bytes.now ≡ encoded (drop taken calls)) }
        ensures none { IfNone result ((taken ≢ self.now.start) × (taken ≢ self.now.count)) }
    {
        if taken == self.start {
            Some(&self.bytes)
        } else if taken == self.count {
            Some(&[])
        } else {
            None
        }
    }
}
