// The lines of the file's two sections.
ghost use Rattle.std.specs.Prelude.{◌≡◌, ◌+◌, ◌<◌, length, IfSome};
ghost use Rattle.written.specs.Line.{letter_at, is_kind, single_of, access_at, object_at, call_at};

use text::number::{LINE_END, SPACE, number_at};
use text::signed::signed_at;
use written::{Call, Object};

fn is_kind(letter: u8) -> bool
    ensures { result ≡ is_kind letter }
{
    matches!(letter, b'A' | b'R' | b'K' | b'S')
}

// The byte at a place, where a space follows it.
#[tactic(auto, using(written::proofs::Letters::letter_past), unfolding(written::specs::Line::letter_at))]
fn letter_at(file: &[u8], at: usize) -> Option<u8>
    ensures letter { result ≡ letter_at file.now at }
    ensures space { IfSome result (λ _. at + 1 < length file.now) }
{
    let [letter, SPACE, ..] = file.get(at..)? else {
        return None;
    };
    Some(*letter)
}

// The call of a line with one number.
fn single(letter: u8, t: u32) -> Option<Call>
    ensures { result ≡ single_of letter t }
{
    match letter {
        b'N' => Some(Call::Plain(t)),
        b'G' => Some(Call::Respond(t)),
        b'C' => Some(Call::Commit(t)),
        b'B' => Some(Call::Abort(t)),
        _ => None,
    }
}

// The four numbers of an access, from the first on. Not part of `call_at`: beside its other results the loops over digits come out slower.
#[inline(never)]
fn access_at(file: &[u8], at: usize) -> Option<(Call, usize)>
    ensures { result ≡ access_at file.now at }
{
    let (parent, object_at) = number_at(file, at, SPACE)?;
    let (object, operation_at) = number_at(file, object_at, SPACE)?;
    let (operation, argument_at) = number_at(file, operation_at, SPACE)?;
    let (argument, next) = signed_at(file, argument_at, LINE_END)?;
    Some((Call::Access(parent, object, operation, argument), next))
}

// The call of a line, with the place of the next line. Part of its callers, so that what `access_at` answers is read where it stands, and not copied.
#[inline(always)]
pub fn call_at(file: &[u8], at: usize) -> Option<(Call, usize)>
    ensures { result ≡ call_at file.now at }
{
    let letter = letter_at(file, at)?;
    if letter == b'U' {
        return access_at(file, at + 2);
    }
    let (t, next) = number_at(file, at + 2, LINE_END)?;
    Some((single(letter, t)?, next))
}

// The object of a line, with the place of the next line.
pub fn object_at(file: &[u8], at: usize) -> Option<(Object, usize)>
    ensures { result ≡ object_at file.now at }
{
    let letter = letter_at(file, at)?;
    if !is_kind(letter) {
        return None;
    }
    let (opening, next) = signed_at(file, at + 2, LINE_END)?;
    Some((Object { letter, opening }, next))
}
