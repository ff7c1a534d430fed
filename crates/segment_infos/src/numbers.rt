//! Numbers with a sign that stand for numbers, for generations or for nothing (format page, "segments_N").
ghost use Rattle.std.specs.Prelude.{◌≡◌, ◌<◌, ◌^◌};
ghost use Rattle.segment_infos.specs.Numbers.{is_negative, is_below_none, is_none_number, is_no_generation, count_or_zero, given, segment_number_in};

use lu_types::segment_number;

/// Whether the number is below 0.
pub fn is_negative(number: i32) -> bool
    ensures { result ≡ is_negative number }
{
    number < 0
}

/// The same of a greater number.
pub fn is_long_negative(number: i64) -> bool
    ensures { result ≡ is_negative number }
{
    number < 0
}

/// Whether the number is below -1.
pub fn is_below_none(number: i32) -> bool
    ensures { result ≡ is_below_none number }
{
    number < -1
}

/// Whether the number is -1, which stands for nothing.
pub fn is_none_number(number: i32) -> bool
    ensures { result ≡ is_none_number number }
{
    number == -1
}

/// Whether the number is neither -1 nor at least 1.
pub fn is_no_generation(number: i64) -> bool
    ensures { result ≡ is_no_generation number }
{
    number < -1 || number == 0
}

/// How many, where the number is not below 0, and 0 where it is.
pub fn count_or_zero(number: i32) -> u32
    ensures count { result ≡ count_or_zero number }
    ensures below { result < 2 ^ 31 }
{
    if number < 0 { 0 } else { number as u32 }
}

/// The same of a greater number.
pub fn long_count_or_zero(number: i64) -> u64
    ensures count { result ≡ count_or_zero number }
    ensures below { result < 2 ^ 63 }
{
    if number < 0 { 0 } else { number as u64 }
}

/// The number, where it is not below 0.
pub fn given(number: i64) -> Option<u64>
    ensures { result ≡ given number }
{
    if number < 0 {
        None
    } else {
        Some(number as u64)
    }
}

/// The number of the segment that has the name; `None` where it is no segment name.
pub fn segment_number_in(name: &str) -> Option<u32>
    ensures { result ≡ segment_number_in name.now }
{
    segment_number(name)
}
