// The program (document 01, "The program"): reads a request from standard input and prints its lines. What it prints is made and
// proved by the crate `program_response`; here is only reading and writing. A read or a write that fails is said on standard error;
// `main` returns an error only where that cannot be written either.
#![tactic(auto)]

ghost use Rattle.std.specs.Prelude.{◌≡◌, ◌≤◌, length, IfOk};
ghost use Rattle.program_answer.specs.Accepted.{page_length};
ghost use Rattle.program_response.specs.Responding.{page_after};

use std::io;
use std::io::{Read, Write};

// Kept: a `match`, here and in `print`: a failure is said on standard error, and not passed on.
fn main(rt: HostRuntime) -> io::Result<()> {
    // one byte more than an input may have, so that a longer one is told from the longest
    let mut input = [0u8; 65_537];
    let mut page = [0u8; program_response::PAGE_LENGTH];
    match read_full(&mut rt.reader(), &mut input) {
        Ok(count) => print(&rt, &input[..count], &mut page),
        Err(_) => eprintln!(rt; "slp: the input could not be read to its end"),
    }
}

// Reads until `input` is full or the reader is at its end, and returns how many bytes it put at the start of `input`.
// Kept: fixed memory and a loop over it, since `read_to_end` asks for memory as it reads: where none is to be had, an input that has
// its answer would be left without one.
fn read_full(reader: &mut impl Read, input: &mut [u8]) -> io::Result<usize>
    ensures { IfOk result (λ n. n ≤ length input.new) }
{
    let mut done: usize = 0;
    while done < input.len() {
        let n = reader.read(&mut input[done..])?;
        if n == 0 {
            return Ok(done);
        }
        done += n;
    }
    Ok(done)
}

// Prints the response to an input, which stands on the page then; a page of that length has room for every response, by the theorem
// `EnoughRoom`.
#[tactic(auto, using(program_laws::proofs::Room::no_refusal))]
fn print(rt: &HostRuntime, input: &[u8], page: &mut [u8]) -> io::Result<()>
    requires { page_length ≤ length page.old }
    ensures { page.new ≡ page_after input.now page.old }
{
    let written = program_response::respond(input, page).unwrap();
    match io::writer(rt).write_all(&page[..written]) {
        Ok(()) => Ok(()),
        Err(_) => eprintln!(rt; "slp: the output could not be written"),
    }
}
