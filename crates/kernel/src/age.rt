// The greatest age.
ghost use Rattle.std.specs.Prelude.{◌≡◌, ◌<◌, ◌≤◌, ◌^◌, false, true};

use model::MAX_AGE;

/// Whether the age is the greatest. Then every command that would raise it is refused with `Worn`.
#[inline(always)]
pub fn is_worn(age: u64) -> bool
    ensures worn { result ≡ true → 2 ^ 62 ≤ age }
    ensures young { result ≡ false → age < 2 ^ 62 }
{
    age >= MAX_AGE
}
