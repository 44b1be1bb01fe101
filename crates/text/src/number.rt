// A number of the file.
ghost use Rattle.std.specs.Prelude.{◌≡◌};
ghost use Rattle.text.specs.Number.{number_at};

pub const SPACE: u8 = b' ';

// LF, at every line's end.
pub const LINE_END: u8 = b'\n';

// The largest number of a file.
const MOST: u64 = 4294967295;

// The decimal number at a place, ended by the byte `stop`, with the place after that byte.
#[tactic(auto, using(crate::proofs::Numbers::number_end, crate::proofs::Numbers::number_start, crate::proofs::Numbers::rest_end, crate::proofs::Numbers::rest_step))]
pub fn number_at(file: &[u8], at: usize, stop: u8) -> Option<(u32, usize)>
    ensures { result ≡ number_at stop file.now at }
{
    let first = *file.get(at)?;
    if !first.is_ascii_digit() {
        return None;
    }
    let mut v = u64::from(first - b'0');
    for i in at + 1..file.len() {
        let b = file[i];
        if b == stop {
            return Some((v as u32, i + 1));
        }
        // A digit after 0 would make it a leading zero.
        if !b.is_ascii_digit() || v == 0 {
            return None;
        }
        v = v * 10 + u64::from(b - b'0');
        if MOST < v {
            return None;
        }
    }
    None
}
