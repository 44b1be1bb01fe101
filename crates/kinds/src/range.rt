// Numbers from outside, tested against a kind's range.
// The two functions differ in the type alone. One for both was tried and proves, but it takes a trait of which numbers a type holds, with an impl for each, three
// times as long as the two, and a contract in the trait's words in place of the range's.
ghost use Rattle.std.specs.Prelude.{◌≡◌};
ghost use Rattle.kinds.specs.Range.{in_range, in_signed};

// x as a u32, where it is from low to high.
pub fn within(x: i64, low: u32, high: u32) -> Option<u32>
    ensures { result ≡ in_range x low high Some None }
{
    u32::try_from(x).ok().filter(|n| (low..=high).contains(n))
}

// x as an i32, where it is from least to most.
pub fn within_signed(x: i64, least: i32, most: i32) -> Option<i32>
    ensures { result ≡ in_signed x least most Some None }
{
    i32::try_from(x).ok().filter(|n| (least..=most).contains(n))
}
