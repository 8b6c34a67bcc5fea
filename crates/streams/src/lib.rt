// An input read to its end and a reply written, with each failure told on standard error.
#![tactic(auto)]

ghost use Rattle.std.specs.Prelude.{◌+◌, ◌<◌, ◌≤◌, ◌^◌, ◌≡◌, IfSome, length, take};
ghost use Rattle.file_network.specs.Deciding.{decides};
ghost use Rattle.std.specs.Io.KnownBytes.{Consumes};
ghost use Rattle.streams.specs.Streams.{input_after, Held, Grown, Ended, Brings, Shows, IsPrefixLen};

use std::io;
use std::io::{Read, Write};

// "the first 8,192 bytes decide"; `input_buffer` ties this number to the definition `decides`
pub const DECIDING_BYTES: usize = 8192;

// How far an input was read: so many bytes stand in front of the buffer and more may come, or they are all, or a read failed.
// Three outcomes, so it is no Result.
#[derive(Clone, Copy)]
pub enum Input {
    More(usize),
    Whole(usize),
    Failed,
}

// A buffer for an input: as many zeros as bytes decide.
pub fn input_buffer() -> [u8; DECIDING_BYTES]
    ensures { decides ≡ length result }
{
    [0; DECIDING_BYTES]
}

// What a read into `part` says by its answer, where `at` bytes had been read.
fn input_after(got: io::Result<usize>, at: usize, part: &[u8]) -> Input
    requires { at + length part.now < 2 ^ 64 }
    ensures { result ≡ input_after got at (length part.now) }
{
    match got {
        Err(_) => Input::Failed,
        Ok(0) => Input::Whole(at),
        Ok(n) => Input::More(at + n.min(part.len())),
    }
}

// One read behind the first `at` bytes, which stay. Where the buffer is full, what is read is left out.
fn read_behind<R: Read>(from: &mut R, buffer: &mut [u8], at: usize) -> Input
    ensures held { Held result buffer.new }
    ensures grown { Grown at result buffer.new }
    ensures buffer_unchanged { take at buffer.new ≡ take at buffer.old }
    ensures known { Brings (take at buffer.old) (R.remaining from.old) (R.remaining from.new) result buffer.new }
{
    if at < buffer.len() {
        let got = from.read(&mut buffer[at..]);
        return input_after(got, at, &buffer[at..]);
    }
    let mut rest = [0u8; 65536];
    let got = from.read(&mut rest);
    input_after(got, buffer.len(), b"")
}

// All of an input, of which the buffer takes what fits. The count of turns only says that the loop ends.
fn read_all<R: Read>(from: &mut R, buffer: &mut [u8]) -> Input
    ensures ended { Ended result buffer.new }
    ensures known { IfSome (R.remaining from.old) (Shows result buffer.new) }
{
    let mut at = 0usize;
    for _ in 0..u64::MAX {
        let input = read_behind(from, buffer, at);
        match input {
            Input::More(n) => at = n,
            Input::Whole(_) => return input,
            Input::Failed => return input,
        }
    }
    Input::Failed
}

// A line of a program's name and what went wrong.
fn tell<E: Write>(errors: &mut E, program: &[u8], failure: &[u8]) {
    let _ = errors.write_all(program);
    let _ = errors.write_all(failure);
}

// An input as `read_all` has it, and a line on standard error where it could not be read.
pub fn read_input<R: Read, E: Write>(
    from: &mut R,
    errors: &mut E,
    program: &[u8],
    buffer: &mut [u8],
) -> Input
    ensures ended { Ended result buffer.new }
    ensures known { IfSome (R.remaining from.old) (Shows result buffer.new) }
{
    let input = read_all(from, buffer);
    match input {
        Input::Whole(_) => return input,
        Input::More(_) => {}
        Input::Failed => {}
    }
    tell(errors, program, b": standard input could not be read\n");
    input
}

pub fn write_reply<W: Write, E: Write>(to: &mut W, errors: &mut E, program: &[u8], reply: &[u8]) {
    if to.write_all(reply).is_err() {
        tell(errors, program, b": standard output could not be written\n");
    }
}

// Reads until the buffer is full, the input ends or a read fails, and answers how many bytes stand in front of the buffer then.
pub fn read_full<R: Read>(from: &mut R, buffer: &mut [u8]) -> usize
    ensures in_bounds { IsPrefixLen result buffer.new }
    ensures known { Consumes (R.remaining from.old) (R.remaining from.new) (take result buffer.new) }
{
    let mut done = 0usize;
    // on by what each read brought, so it counts nothing
    while done < buffer.len() {
        match from.read(&mut buffer[done..]) {
            Ok(0) => break,
            Ok(n) => done += n,
            Err(_) => break,
        }
    }
    done
}

// A program that answers the whole of its input by one text: the reply is what `answer` puts in front of the buffer that it is lent.
pub fn reply<R: Read, W: Write, E: Write, F: Fn(&[u8], &mut [u8; 4096]) -> usize>(
    from: &mut R,
    to: &mut W,
    errors: &mut E,
    program: &[u8],
    answer: F,
)
    requires callable { F.IsAlwaysCallable answer }
    requires counted { (s : _) (out : _) (n : _) (left : _) → F.post answer s out n left → n ≤ 4096 }
{
    let mut bytes = input_buffer();
    let Input::Whole(length) = read_input(from, errors, program, &mut bytes) else {
        return;
    };
    let mut out = [0u8; 4096];
    let written = answer(&bytes[..length], &mut out);
    write_reply(to, errors, program, &out[..written]);
}
