// Orders of banks.
ghost use Rattle.std.specs.Prelude.{◌≡◌, None, Some, IfSome};
ghost use Rattle.model.specs.Order.{IsNoBankOrder, bank_order};

use model::{BankOrder, Capability};

/// Returns the bank order with this number, or `None`.
pub fn bank_order(word: u64) -> Option<BankOrder>
    ensures { result ≡ bank_order word }
{
    match word {
        1 => Some(BankOrder::NewPage),
        2 => Some(BankOrder::NewNode),
        3 => Some(BankOrder::NewProcess),
        4 => Some(BankOrder::NewBank),
        5 => Some(BankOrder::Free),
        6 => Some(BankOrder::Destroy),
        7 => Some(BankOrder::ReturnToParent),
        8 => Some(BankOrder::Remaining),
        _ => None,
    }
}

/// Returns the bank that is invoked, and the order with number `word`. Returns `None` if no bank is invoked,
/// or if no order of banks has this number.
pub fn requested_bank(invoked: Capability, word: u64) -> Option<(u64, BankOrder)>
    ensures bank { IfSome result (λ requested. invoked ≡ Capability.Bank requested.0) }
    ensures order { IfSome result (λ requested. bank_order word ≡ Some requested.1) }
    ensures none { result ≡ None → IsNoBankOrder invoked word }
{
    match invoked {
        Capability::Bank(bank) => match bank_order(word) {
            Some(order) => Some((bank, order)),
            None => None,
        },
        _ => None,
    }
}
