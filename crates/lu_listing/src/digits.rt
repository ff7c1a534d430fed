//! How many digits numbers have.
ghost use Rattle.std.specs.Prelude.{◌≡◌, length};
ghost use Rattle.std.specs.Fmt.{decimal};

/// How many decimal digits a number has.
pub(crate) fn digits(number: u64) -> usize
    ensures { result ≡ length (decimal number) }
{
    let mut rest = number;
    let mut count = 1;
    while rest >= 100 {
        rest /= 100;
        count += 2;
    }
    if rest < 10 { count } else { count + 1 }
}
