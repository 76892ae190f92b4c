//! Laws of descriptions and their faults. Each is the contract of an empty function.

ghost use Rattle.description.specs.Laws.{NoFault, NumberIsSpelledOnce, OneFault, TableIsOfOne, TextIsOfOne};

/// Each number has only one form: below 2^63 a TOML integer, from 2^63 on a text.
#[tactic(auto, using(crate::proofs::Once::number_spelled_once))]
pub fn number_is_spelled_once()
    ensures { NumberIsSpelledOnce }
{}

/// A text belongs to at most one capability.
pub fn text_is_of_one()
    ensures { TextIsOfOne }
{}

/// A table is read as at most one description.
pub fn table_is_of_one()
    ensures { TableIsOfOne }
{}

/// At most one rule is the first that a description breaks.
#[tactic(auto, using(crate::proofs::Rules::one_fault))]
pub fn one_fault()
    ensures { OneFault }
{}

/// If a description is accepted, no rule is the first that it breaks.
#[tactic(auto, using(crate::proofs::Rules::accepted_has_none))]
pub fn accepted_has_none()
    ensures { NoFault }
{}
