// The programs' standard input, and what they say where it or standard output fails.
#![tactic(auto)]

ghost use Rattle.std.specs.Prelude.{◌≡◌, ◌≤◌, length, IfOk, OnErr};
ghost use Rattle.program_input.specs.Reads.{Filled, Begun};
ghost use Rattle.program_input.specs.Words.{IsWords};

use std::io;
use std::io::{Cursor, Error, Read, Write};

// The bytes that a program reads at most.
pub const INPUT_BYTES: usize = 8192;

// Reads until `input` is full or the reader ends, and answers how many bytes are then at its start. Where a read failed its error is the answer: a sheet of
// which only a part could be read is not judged. Which bytes are read no contract can say of standard input; of a reader whose bytes are known the last
// two clauses say it.
pub fn read_input<R: Read>(reader: &mut R, input: &mut [u8]) -> io::Result<usize>
    ensures count_inside { IfOk result (λ n. n ≤ length input.new) }
    ensures bytes_read_in_front { IfOk result (λ n. Filled (R.remaining reader.old) (R.remaining reader.new) input.new n) }
    ensures no_more_taken { OnErr result (Begun (R.remaining reader.old) (R.remaining reader.new) input.new) }
{
    let mut done: usize = 0;
    // `while`, since it is the reader that says where it ends
    while done < input.len() {
        let more = reader.read(&mut input[done..])?;
        if more == 0 {
            break;
        }
        done += more;
    }
    Ok(done)
}

// Reads the input of a program, as `read_input` does: a program lends 8,192 bytes, so that no more are read.
pub fn read_program_input<R: Read>(reader: &mut R, input: &mut [u8]) -> io::Result<usize>
    requires { length input.old ≡ 8192 }
    ensures count_inside { IfOk result (λ n. n ≤ 8192) }
    ensures bytes_read_in_front { IfOk result (λ n. Filled (R.remaining reader.old) (R.remaining reader.new) input.new n) }
    ensures no_more_taken { OnErr result (Begun (R.remaining reader.old) (R.remaining reader.new) input.new) }
{
    read_input(reader, input)
}

// More bytes than the library prints of any error of the system.
const SAID_BYTES: usize = 128;

// An error's words without its number: the library prints ` (os error 21)` behind the system's words. A text without a number is its own words.
pub fn words_of(text: &str) -> &str
    ensures { IsWords text.now result.now }
{
    match text.rsplit_once(" (os error ") {
        Some((words, _)) => words,
        None => text,
    }
}

// Says on standard error, on a line, what failed, a colon and the system's words for why.
pub fn say_failed(rt: &impl Eprint, what: &str, error: Error) {
    let mut said = Cursor::new([0u8; SAID_BYTES]);
    let _ = write!(said, "{error}");
    let length = said.position().min(SAID_BYTES as u64) as usize;
    let bytes = said.into_inner();
    let _ = match str::from_utf8(&bytes[..length]) {
        Ok(text) => {
            let words = words_of(text);
            eprintln!(rt; "{what}: {words}")
        }
        Err(_) => eprintln!(rt; "{what}: {error}"),
    };
}
