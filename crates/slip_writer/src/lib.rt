// The slip of a refused round or a struck item (docs/FORMATS.md, 'The slip'): written for pass and reason.

#![tactic(auto)]

ghost use Rattle.std.specs.Prelude.{◌≡◌, true, ◌∷◌, ◌≤◌, length};
ghost use Rattle.lists.specs.Lists.{Put};
ghost use Rattle.varint.specs.Answer.{small};
ghost use Rattle.sheet.specs.Slip.{slip_numbers, slip_bytes};
ghost use Rattle.slip_reader.specs.Form.{list_bytes, slip_from};

// Writes the count of the items and the items.
fn put_list(out: &mut [u8], items: &[u32]) -> usize
    requires { (small (length items.now ∷ items.now) ≡ true) × (length (list_bytes items.now) ≤ length out.old) }
    ensures { Put (list_bytes items.now) out.old out.new result }
{
    let at = varint::put_number(out, items.len() as u32);
    at + numbers::put_numbers(&mut out[at..], items)
}

// Writes the slip of a refused round or a struck item over the front of `slip` and gives its length.
pub fn write_slip(slip: &mut [u8], first: u32, goals: &[u32], reasons: &[u32]) -> usize
    requires numbers_small { small (slip_numbers (slip_from first goals.now reasons.now)) ≡ true }
    requires slip_fits { length (slip_bytes (slip_from first goals.now reasons.now)) ≤ length slip.old }
    ensures { Put (slip_bytes (slip_from first goals.now reasons.now)) slip.old slip.new result }
{
    let at = varint::put_number(slip, first);
    let end = at + put_list(&mut slip[at..], goals);
    end + put_list(&mut slip[end..], reasons)
}
