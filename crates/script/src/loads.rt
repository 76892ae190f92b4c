// Fast parsers of loads and stores, in one pass over a line. If they return `None`, the general parser decides.
ghost use Rattle.std.specs.Prelude.{◌≡◌, IfSome};
ghost use Rattle.model.specs.declared.command.Command.{Command};
ghost use Rattle.model.specs.Text.{Fits, command_words};
ghost use Rattle.script.specs.Reading.{words_of};

use crate::keyword::{is_load, is_store};
use crate::short::{last_number, number_before};

/// A load, as read from a line.
#[derive(Clone, Copy)]
pub struct Load {
    pub process: u64,
    pub address: u64,
}

/// A store, as read from a line.
#[derive(Clone, Copy)]
pub struct Store {
    pub process: u64,
    pub address: u64,
    pub value: u64,
}

/// Returns the load in a line. `None` means that the general parser must decide.
#[tactic(auto, using(crate::proofs::ShortInvocations::load_said))]
#[inline(always)]
pub fn load_in(line: &[u8]) -> Option<Load>
    ensures { IfSome result (λ l. Fits (Command.Load l.process l.address)
        × (words_of line.now ≡ command_words (Command.Load l.process l.address))) }
{
    if !is_load(line) {
        return None;
    }
    let process = number_before(line, 5, 2)?;
    let address = last_number(line, process.next)?;
    Some(Load {
        process: process.number,
        address,
    })
}

/// Returns the store in a line. `None` means that the general parser must decide.
#[tactic(auto, using(crate::proofs::ShortInvocations::store_said))]
#[inline(always)]
pub fn store_in(line: &[u8]) -> Option<Store>
    ensures { IfSome result (λ s. Fits (Command.Store s.process s.address s.value)
        × (words_of line.now ≡ command_words (Command.Store s.process s.address s.value))) }
{
    if !is_store(line) {
        return None;
    }
    let process = number_before(line, 6, 4)?;
    let address = number_before(line, process.next, 2)?;
    let value = last_number(line, address.next)?;
    Some(Store {
        process: process.number,
        address: address.number,
        value,
    })
}
