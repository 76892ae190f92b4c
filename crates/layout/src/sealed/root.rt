// The root: sums over all units. Also the sums over a directory.
ghost use Rattle.std.specs.Prelude.{◌≡◌, ◌∷◌, ◌<◌, ◌^◌, List};
ghost use Rattle.seal.specs.declared.sums.Sums.{Sums};
ghost use Rattle.layout.specs.sealed.Root.{Unit, directory_sums, root_of, weighed};

use seal::Sums;

// Returns sums plus a seal times a weight, modulo 2^64.
fn add_weighted(sums: Sums, weight: u64, seal: Sums) -> Sums
    ensures { result ≡ weighed sums weight seal }
{
    Sums {
        a: sums.a.wrapping_add(weight.wrapping_mul(seal.a)),
        b: sums.b.wrapping_add(weight.wrapping_mul(seal.b)),
        c: sums.c.wrapping_add(weight.wrapping_mul(seal.c)),
    }
}

// Returns sums minus a seal times a weight, modulo 2^64.
fn take_weighted(sums: Sums, weight: u64, seal: Sums) -> Sums
    ensures { weighed result weight seal ≡ sums }
{
    Sums {
        a: sums.a.wrapping_sub(weight.wrapping_mul(seal.a)),
        b: sums.b.wrapping_sub(weight.wrapping_mul(seal.b)),
        c: sums.c.wrapping_sub(weight.wrapping_mul(seal.c)),
    }
}

/// Returns the root with one more unit, which has this seal: page `number`, or the cluster whose least node is
/// `number`.
pub fn add_unit(root: Sums, number: u64, seal: Sums) -> Sums
    requires { number < 2 ^ 63 }
    ensures { (us : List Unit) → root ≡ root_of us → result ≡ root_of (record { number = number; seal = seal } ∷ us) }
{
    add_weighted(root, 2 * number + 1, seal)
}

/// Returns the root without this unit.
pub fn remove_unit(root: Sums, number: u64, seal: Sums) -> Sums
    requires { number < 2 ^ 63 }
    ensures { (us : List Unit) → root ≡ root_of (record { number = number; seal = seal } ∷ us) → result ≡ root_of us }
{
    take_weighted(root, 2 * number + 1, seal)
}

/// Returns the sums of a directory with one more sector, which has this seal.
pub fn add_sector(sums: Sums, seal: Sums) -> Sums
    ensures { (seals : List Sums) → sums ≡ directory_sums seals → result ≡ directory_sums (seal ∷ seals) }
{
    add_weighted(sums, 1, seal)
}
