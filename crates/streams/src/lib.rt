// What the programs read: their input up to a limit, their arguments, and the files that these name.
#![tactic(auto)]

ghost use Rattle.std.specs.Prelude.{◌≡◌, ◌<◌, ◌≤◌, length, take, IfOk, IfSome, OnOk};
ghost use Rattle.std.specs.Str.{IsUtf8};
ghost use Rattle.std.specs.Io.{ReadsAtMost};
ghost use Rattle.std.specs.Io.KnownBytes.{Appends, Consumes, IsAtEnd};

use std::env::{Env, FillError};
use std::fs::Files;
use std::io::{Read, Write};
use std::{fs, io, str};

// Reads until the buffer is full or the input ends, and answers how many bytes it put at the front of the buffer.
pub fn read_full<R: Read>(input: &mut R, bytes: &mut [u8]) -> io::Result<usize>
    ensures inside { ReadsAtMost result bytes.new }
    ensures taken { IfOk result (λ n. Consumes (R.remaining input.old) (R.remaining input.new) (take n bytes.new)) }
    ensures whole { IfOk result (λ n. n < length bytes.new → IsAtEnd (R.remaining input.new)) }
{
    let mut done = 0;
    while done < bytes.len() {
        let n = input.read(&mut bytes[done..])?;
        if n == 0 {
            return Ok(done);
        }
        done += n;
    }
    Ok(done)
}

// Lays down what was read first at the front of the buffer, reads on behind it, and answers how many bytes there are then; 0 where the first have
// no room.
pub fn read_behind<R: Read>(input: &mut R, bytes: &mut [u8], first: &[u8]) -> io::Result<usize>
    ensures { ReadsAtMost result bytes.new }
{
    let from = first.len();
    if bytes.len() < from {
        return Ok(0);
    }
    bytes[..from].copy_from_slice(first);
    let n = read_full(input, &mut bytes[from..])?;
    Ok(from + n)
}

// Writes the first bytes of a buffer out, where it has so many.
pub fn write_front<W: Write>(out: &mut W, bytes: &[u8], n: usize) -> io::Result<()>
    ensures { n ≤ length bytes.now → OnOk result (Appends (W.contents out.old) (W.contents out.new) (take n bytes.now)) }
{
    match bytes.get(..n) {
        Some(front) => out.write_all(front),
        None => Ok(()),
    }
}

// The bytes of an argument, at the front of the buffer; 0 is of one that has none, is missing or has no room.
pub fn argument<E: Env>(env: &E, i: usize, word: &mut [u8]) -> usize
    ensures { result ≤ length word.new }
{
    match env.arg(i, word) {
        Ok(n) => n,
        Err(_) => 0,
    }
}

// How many arguments there are, the name of the program among them, counted up to a number.
pub fn argument_count<E: Env>(env: &E, most: usize) -> usize
    ensures { result ≤ most }
{
    for i in 0..most {
        if is_missing(env, i) {
            return i;
        }
    }
    most
}

fn is_missing<E: Env>(env: &E, i: usize) -> bool {
    match env.arg(i, &mut []) {
        Ok(_) => false,
        Err(FillError::TooLong) => false,
        Err(FillError::NotPresent) => true,
    }
}

// The file of a name, to be read; none where it can't be opened, and of a name that is no text.
pub fn open<F: Files>(files: &F, name: &[u8]) -> Option<F::File>
    ensures { IfSome result (λ _. IsUtf8 name.now) }
{
    match str::from_utf8(name) {
        Ok(path) => fs::open(files, path).ok(),
        Err(_) => None,
    }
}
