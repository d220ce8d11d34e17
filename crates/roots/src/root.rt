ghost use Rattle.std.specs.Prelude.{◌≡◌, ℕ, ◌*◌};
ghost use Rattle.roots.specs.Root.{lower, upper, RootsOfAll, ceiling_root, Ceiling};

/// The lower and the upper root of a form: the greatest n with 100 × n² at most the form,
/// and the least n with 100 × n² at least the form.
pub fn roots(form: u64) -> (u32, u32)
    ensures value { result ≡ (lower form, upper form) }
    ensures lawful { RootsOfAll }
{
    let low = (form / 100).isqrt();
    let high = if 100 * (low * low) < form {
        low + 1
    } else {
        low
    };
    (low as u32, high as u32)
}

/// The least whole number whose square is at least `n`.
pub fn ceiling_root(n: u32) -> u32
    ensures value { result ≡ ceiling_root n }
    ensures lawful { Ceiling n result }
{
    let (_, high) = roots(100 * n as u64);
    high
}
