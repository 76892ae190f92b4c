// The state of banks, stored apart from the objects.
ghost use Rattle.std.specs.Prelude.{◌≡◌, slice_index};

use collections::NumberSet;
use std::marker::Model;

/// Which numbers are free; the limit and usage of each bank; the annex of each process.
///
/// These are computed once from the objects. Each order of a bank updates them. Only `count` allocates.
#[derive(Drop)]
pub struct Banks {
    pub(crate) nodes: NumberSet,
    pub(crate) pages: NumberSet,
    pub(crate) usages: Vec<u64>,
    pub(crate) limits: Vec<u64>,
    pub(crate) annexes: Vec<u64>,
    pub(crate) listed: Vec<u64>,
}

impl Model for Banks {
    ghost use Rattle.space_bank.specs.Banks.{BanksState};
    ghost use Rattle.std.specs.Vec.{vec_capacity};

    ghost Value = { BanksState };

    ghost view = { λ b. record {
      free_nodes = b.nodes;
      free_pages = b.pages;
      usages = b.usages.items;
      limits = b.limits.items;
      annexes = b.annexes.items;
      listed = b.listed.items;
      room = vec_capacity b.listed;
    } };
}

impl Banks {
    /// Returns the usage of a bank: how many other objects have it in their owner's chain. Returns 0 for any
    /// other number.
    pub fn usage(&self, bank: u64) -> u64
        ensures { result ≡ slice_index self.now.usages bank }
    {
        match self.usages.get(bank as usize) {
            Some(usage) => *usage,
            None => 0,
        }
    }

    /// Returns the annex of a process, or 0 for any other number.
    pub fn annex(&self, process: u64) -> u64
        ensures { result ≡ slice_index self.now.annexes process }
    {
        match self.annexes.get(process as usize) {
            Some(annex) => *annex,
            None => 0,
        }
    }

    /// Returns the numbers listed by the last order that was planned.
    pub fn listed(&self) -> &[u64]
        ensures { result.now ≡ self.now.listed }
    {
        &self.listed
    }
}
