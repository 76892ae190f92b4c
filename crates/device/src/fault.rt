// The refusal of a command whose device failed.
use crate::device::Failed;
use model::Refusal;

impl From<Failed> for Refusal {
    ghost use Rattle.std.specs.Prelude.{◌≡◌};
    ghost use Rattle.model.specs.declared.answer.Refusal.TheVariants as refusal;

    ghost from_gives = { λ _ e. e ≡ refusal.Fault };

    fn from(_failed: Failed) -> Refusal {
        Refusal::Fault
    }
}
