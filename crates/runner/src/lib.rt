// Runs a run file: its objects opened and its calls made on a store, one line printed for each answer.
#![tactic(auto)]

ghost use Rattle.std.specs.Prelude.{◌≡◌, map, ◌+◌, ◌*◌, ◌≤◌, length};
ghost use Rattle.text.specs.Text.{answer_most};
ghost use Rattle.text.specs.Puts.{Puts};
ghost use Rattle.written.specs.Written.{joined, objects_most, calls_most};
ghost use Rattle.written.specs.Items.{items_from};
ghost use Rattle.written.specs.Line.{object_at, call_at};
ghost use Rattle.written.specs.File.{objects_in, calls_in};
ghost use Rattle.store.specs.Calls.{reply_to, answers_to};
ghost use Rattle.output.specs.Output.{call_of, opened_with, answers_from, line_of, output_of, output_most};
ghost use Rattle.runner.specs.Export.{Exported};
ghost use Rattle.runner.specs.Columns.{columns_of};

use refusal::{Child, Request};
use runfile::check::check_file;
use runfile::line::{call_at, object_at};
use store::{Reply, Store};
use text::print::put_answer;
use written::{Call, Layout, Part};

// A byte more than a run file may have: of a file that fills so many, the rest need not be read.
pub const INPUT: usize = 65537;

// The most that is printed: 4,097 lines of at most 36 bytes.
pub const OUTPUT: usize = 147492;

const OBJECTS: usize = 64;

#[derive(Clone, Copy)]
struct Objects {
    count: usize,
    kinds: [u8; OBJECTS],
    openings: [i64; OBJECTS],
}

// The object lines of a section that has been checked.
fn objects_in(file: &[u8], part: Part) -> Objects
    requires { part.lines ≤ objects_most }
    ensures objects { result ≡ columns_of (items_from (object_at file.now) part.lines part.start) }
    ensures few { result.count ≤ objects_most }
{
    let mut kinds = [0u8; OBJECTS];
    let mut openings = [0i64; OBJECTS];
    let mut count: usize = 0;
    let mut at = part.start;
    for _ in 0..part.lines {
        let Some((object, next)) = object_at(file, at) else {
            break;
        };
        kinds[count] = object.letter;
        openings[count] = object.opening;
        count += 1;
        at = next;
    }
    Objects {
        count,
        kinds,
        openings,
    }
}

fn reply_to(store: Store, call: Call) -> Reply
    ensures { result ≡ reply_to store (call_of call) }
{
    match call {
        Call::Plain(parent) => store.create(parent, Child::Plain),
        Call::Access(parent, object, operation, argument) => {
            let request = Request {
                object,
                operation,
                argument,
            };
            store.create(parent, Child::Access(request))
        }
        Call::Respond(t) => store.respond(t),
        Call::Commit(t) => store.commit(t),
        Call::Abort(t) => store.abort(t),
    }
}

fn opened_with(file: &[u8], part: Part) -> Reply
    requires { part.lines ≤ objects_most }
    ensures { result ≡ opened_with (items_from (object_at file.now) part.lines part.start) }
{
    let objects = objects_in(file, part);
    let kinds = &objects.kinds[..objects.count];
    let openings = &objects.openings[..objects.count];
    Store::open(kinds, openings)
}

// The call lines of a section that has been checked: each is made, and its answer put, before the next is read.
fn run_calls(file: &[u8], part: Part, opened: Reply, out: &mut [u8], place: usize) -> usize
    requires { place + answer_most * part.lines ≤ length out.old }
    ensures { Puts out.old place (joined line_of (answers_to opened.store (map call_of (items_from (call_at file.now) part.lines part.start)))) result out.new }
{
    let mut reply = opened;
    let mut at = part.start;
    let mut after = place;
    for _ in 0..part.lines {
        let Some((call, next)) = call_at(file, at) else {
            break;
        };
        reply = reply_to(reply.store, call);
        let answer = reply.answer;
        after = put_answer(out, after, answer.code, answer.a, answer.b);
        at = next;
    }
    after
}

fn run_good(file: &[u8], layout: Layout, out: &mut [u8]) -> usize
    requires { (layout.objects.lines ≤ objects_most) × (layout.calls.lines ≤ calls_most) × (output_most ≤ length out.old) }
    ensures { Puts out.old 0 (joined line_of (answers_from (opened_with (objects_in file.now layout)) (calls_in file.now layout))) result out.new }
{
    let opened = opened_with(file, layout.objects);
    let answer = opened.answer;
    let end = put_answer(out, 0, answer.code, answer.a, answer.b);
    if answer.code != 0 {
        return end;
    }
    run_calls(file, layout.calls, opened, out, end)
}

fn run_into(file: &[u8], out: &mut [u8]) -> usize
    requires { output_most ≤ length out.old }
    ensures { Puts out.old 0 (output_of file.now) result out.new }
{
    match check_file(file) {
        Ok(layout) => run_good(file, layout, out),
        Err(wrong) => put_answer(out, 0, 16, wrong.line, 0),
    }
}

// Puts what the runner prints on a file at the start of the output, and answers how many bytes that is.
pub fn run_file(input: &[u8], output: &mut [u8; OUTPUT]) -> usize
    ensures { Puts output.old 0 (output_of input.now) result output.new }
{
    run_into(input, output)
}

// The same for C. An output of fewer than OUTPUT bytes is refused: 0, and not a byte written.
pub fn runner_run(input: &[u8], output: &mut [u8]) -> usize
    ensures { Exported input.now output.old result output.new }
{
    if output.len() < OUTPUT {
        return 0;
    }
    run_into(input, output)
}
