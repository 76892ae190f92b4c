// The halves of the log.
ghost use Rattle.std.specs.Prelude.{◌≡◌};
ghost use Rattle.layout.specs.Half.{half_of};

/// A half of the log. Checkpoints use the halves in turn.
#[derive(Clone, Copy)]
pub enum Half {
    First,
    Second,
}

impl Half {
    /// Returns the half that holds the checkpoint of a generation: the first half holds even generations.
    pub fn of(generation: u64) -> Half
        ensures { result ≡ half_of generation }
    {
        if generation % 2 == 0 {
            Half::First
        } else {
            Half::Second
        }
    }
}
