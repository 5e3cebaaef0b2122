// The tool for the shop's clerk: reads at most 8,192 bytes of standard input as an item number and a sheet, and prints how far the way through the item is
// over the limit and what it takes once each of the closures to blame is open. Where standard input cannot be read nothing is judged, and standard error
// has a line that says why; so too where standard output cannot be written.
#![tactic(auto)]

use program_input::INPUT_BYTES;
use text_lines::TEXT_BYTES;

fn main(rt: HostRuntime) {
    let mut input = [0u8; INPUT_BYTES];
    let read = match program_input::read_program_input(&mut rt.stdin(), &mut input) {
        Ok(read) => read,
        Err(error) => return program_input::say_failed(&rt, "cost: standard input", error),
    };
    let mut text = [0u8; TEXT_BYTES];
    let length = text_cost::report_cost(&input[..read], &mut text);
    if let Err(error) = rt.write_all(&text[..length]) {
        program_input::say_failed(&rt, "cost: standard output", error);
    }
}
