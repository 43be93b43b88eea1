// The low 64 bits of numbers.
ghost use Rattle.std.specs.Prelude.{◌≡◌, ◌%◌, ◌^◌};
ghost use Rattle.library_types.specs.Low.{low};

/// The low 64 bits of a number in two's complement. Takes no memory.
pub fn low(number: i128) -> u64
    ensures { result ≡ low number }
{
    if number < 0 {
        u64::MAX - low_half((-1 - number) as u128)
    } else {
        low_half(number as u128)
    }
}

// The low 64 bits of a number that is not below 0.
fn low_half(number: u128) -> u64
    ensures { result ≡ number % 2 ^ 64 }
{
    (number % 18_446_744_073_709_551_616) as u64
}
