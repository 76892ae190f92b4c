// An answer, with the result code of the order that was carried out.
use model::{Answer, ResultCode};

/// The answer to a command, and the result code of the order that it carried out.
#[derive(Drop)]
pub struct Served {
    pub answer: Answer,
    /// `None` unless an invocation of a kernel object was carried out.
    pub code: Option<ResultCode>,
}

impl From<Answer> for Served {
    ghost use Rattle.std.specs.Prelude.{◌≡◌, None};

    ghost from_gives = { λ a s. s ≡ record { answer = a; code = None } };

    fn from(answer: Answer) -> Served {
        Served { answer, code: None }
    }
}
