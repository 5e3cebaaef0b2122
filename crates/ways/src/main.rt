// The program: reads at most 8,192 bytes of standard input as one sheet and prints what the pass answers. Where standard input cannot be read nothing is
// judged, and standard error has a line that says why; so too where standard output cannot be written.
#![tactic(auto)]

use program_input::INPUT_BYTES;
use text_lines::TEXT_BYTES;
use work::WORK_NUMBERS;

fn main(rt: HostRuntime) {
    let mut input = [0u8; INPUT_BYTES];
    let read = match program_input::read_program_input(&mut rt.stdin(), &mut input) {
        Ok(read) => read,
        Err(error) => return program_input::say_failed(&rt, "ways: standard input", error),
    };
    let mut work = [0u32; WORK_NUMBERS];
    let mut text = [0u8; TEXT_BYTES];
    let length = text_report::report(&input[..read], &mut work, &mut text);
    if let Err(error) = rt.write_all(&text[..length]) {
        program_input::say_failed(&rt, "ways: standard output", error);
    }
}
