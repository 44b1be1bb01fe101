// A number of the file that may have a minus in front.
ghost use Rattle.std.specs.Prelude.{◌≡◌};
ghost use Rattle.text.specs.Signed.{negative_at, signed_at};

use crate::number::number_at;

// The number that a minus stands before: any but 0.
fn negative_at(file: &[u8], at: usize, stop: u8) -> Option<(i64, usize)>
    ensures { result ≡ negative_at stop file.now at }
{
    let (v, next) = number_at(file, at, stop)?;
    if v == 0 {
        return None;
    }
    Some((-i64::from(v), next))
}

// The decimal number at a place, with or without a minus, ended by the byte `stop`, with the place after that byte.
#[tactic(auto, using(crate::proofs::Numbers::signed_end, crate::proofs::Numbers::signed_minus, crate::proofs::Numbers::signed_other))]
pub fn signed_at(file: &[u8], at: usize, stop: u8) -> Option<(i64, usize)>
    ensures { result ≡ signed_at stop file.now at }
{
    if *file.get(at)? == b'-' {
        return negative_at(file, at + 1, stop);
    }
    let (v, next) = number_at(file, at, stop)?;
    Some((i64::from(v), next))
}
