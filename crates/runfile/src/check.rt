// The check of a whole file, before anything of it is run.
ghost use Rattle.std.specs.Prelude.{◌≡◌, ℕ, ◌+◌, ◌≤◌, Option, IfOk};
ghost use Rattle.written.specs.Written.{calls_most, bytes_most};
ghost use Rattle.written.specs.Items.{ends_from};
ghost use Rattle.written.specs.Check.{Reads, count_at, section_at, ended_at, calls_layout, layout_of, check_of};

use crate::line::{call_at, object_at};
use text::number::{LINE_END, number_at};
use written::{Layout, Part, Place, WrongLine};

// The limits of a run file.
pub const BYTES: usize = 65536;

pub const OBJECTS: u32 = 64;

pub const CALLS: u32 = 4096;

// Goes through the lines of a section, each read by `read`. The `requires` keeps line numbers within 32 bits.
fn lines_end<A: Copy, F: Fn(usize) -> Option<(A, usize)>>(
    lines: u32,
    place: Place,
    read: F,
) -> Result<Place, WrongLine>
    requires callable { F.IsAlwaysCallable read }
    requires few { (lines ≤ calls_most) × (place.line ≤ bytes_most + 1) }
    ensures reads { (line : ℕ → Option (A × ℕ)) → Reads (F.post read) line → result ≡ ends_from line lines place }
    ensures counted { IfOk result (λ end. end.line ≡ place.line + lines) }
{
    let mut at = place.at;
    let mut line = place.line;
    for _ in 0..lines {
        let Some((_, next)) = read(at) else {
            return Err(WrongLine { line });
        };
        at = next;
        line += 1;
    }
    Ok(Place { at, line })
}

// A count, at most `most`, on a line of its own.
fn count_at(file: &[u8], at: usize, most: u32) -> Option<(u32, usize)>
    ensures { result ≡ count_at most file.now at }
{
    let (count, next) = number_at(file, at, LINE_END)?;
    if most < count {
        return None;
    }
    Some((count, next))
}

// A section of at most `most` lines, each read by `read`, from its count on.
#[tactic(auto, using(written::proofs::Line::count_most))]
fn section_at<A: Copy, F: Fn(usize) -> Option<(A, usize)>>(
    file: &[u8],
    most: u32,
    place: Place,
    read: F,
) -> Result<(Part, Place), WrongLine>
    requires callable { F.IsAlwaysCallable read }
    requires few { (most ≤ calls_most) × (place.line ≤ bytes_most) }
    ensures reads { (line : ℕ → Option (A × ℕ)) → Reads (F.post read) line → result ≡ section_at line most file.now place }
    ensures counted { IfOk result (λ section. section.1.line ≤ place.line + 1 + most) }
{
    let wrong = WrongLine { line: place.line };
    let (lines, start) = count_at(file, place.at, most).ok_or(wrong)?;
    let first = Place {
        at: start,
        line: place.line + 1,
    };
    let end = lines_end(lines, first, read)?;
    Ok((Part { lines, start }, end))
}

// Nothing follows the last line.
fn ended_at(file: &[u8], layout: Layout, place: Place) -> Result<Layout, WrongLine>
    ensures { result ≡ ended_at file.now layout place }
{
    if place.at == file.len() {
        Ok(layout)
    } else {
        Err(WrongLine { line: place.line })
    }
}

// From the call count on.
fn calls_layout(file: &[u8], objects: Part, place: Place) -> Result<Layout, WrongLine>
    requires { place.line ≤ bytes_most }
    ensures { result ≡ calls_layout file.now objects place }
{
    let (calls, after) = section_at(file, CALLS, place, |at| call_at(file, at))?;
    ended_at(file, Layout { objects, calls }, after)
}

fn layout_of(file: &[u8]) -> Result<Layout, WrongLine>
    ensures { result ≡ layout_of file.now }
{
    let top = Place { at: 0, line: 1 };
    let (objects, after) = section_at(file, OBJECTS, top, |at| object_at(file, at))?;
    calls_layout(file, objects, after)
}

#[tactic(auto, unfolding(written::specs::Check::check_of))]
pub fn check_file(file: &[u8]) -> Result<Layout, WrongLine>
    ensures { result ≡ check_of file.now }
{
    if BYTES < file.len() {
        return Err(WrongLine { line: 0 });
    }
    layout_of(file)
}
