// The writer of sheets: numbers that have no fault are measured, and only then written.

#![tactic(auto)]

ghost use Rattle.std.specs.Prelude.{◌≡◌, true, ◌≤◌, length};
ghost use Rattle.lists.specs.Lists.{Put};
ghost use Rattle.varint.specs.Answer.{small};
ghost use Rattle.varint.specs.Refusal.{number_in, length_in};
ghost use Rattle.varint.specs.Varint.{write_numbers};
ghost use Rattle.sheet.specs.Draft.{draft_of, draft_sheet, draft_page, header_numbers, sheet_numbers, with_services, page_bytes};
ghost use Rattle.sheet.specs.Writer.{draft_fault, sheet_written};
ghost use Rattle.sheet_faults.specs.Drafted.{drafted};

use sheet::{Header, LEAD};
pub use sheet_faults::Draft;
use varint::Refusal;

// The numbers in front of a sheet's content.
const HEADER_NUMBERS: usize = 5;

// The bytes before the content of a sheet with service minutes: its leading 1.
const LEAD_BYTES: usize = 1;

// The five numbers in front, as they are written. Not a `From`, which may ask nothing: a count of any size fits no 32 bits.
fn header_numbers(header: Header) -> [u32; HEADER_NUMBERS]
    requires { small (header_numbers header) ≡ true }
    ensures { result ≡ header_numbers header }
{
    [
        header.nodes as u32,
        header.arcs as u32,
        header.source as u32,
        header.target as u32,
        header.limit,
    ]
}

// The length of the content of a sheet without fault. Each mark is one byte.
fn content_size(draft: &Draft) -> usize
    requires { draft_fault (drafted draft.now) ≡ 0 }
    ensures { result ≡ length (write_numbers (sheet_numbers (draft_sheet (drafted draft.now)))) }
{
    let numbers = header_numbers(draft.header);
    numbers::sizes(&numbers) + numbers::sizes(draft.arcs) + draft.marks.len()
}

// The length of the sheet of a draft without fault.
fn sheet_size(draft: &Draft) -> usize
    requires { draft_fault (drafted draft.now) ≡ 0 }
    ensures { result ≡ length (page_bytes (draft_page (drafted draft.now))) }
{
    let content = content_size(draft);
    if !sheet_services::no_service(draft.services) {
        return LEAD_BYTES + content + numbers::sizes(draft.services);
    }
    content
}

// Writes the content of a sheet without fault over the front of `out` and gives its length.
fn put_content(draft: &Draft, out: &mut [u8]) -> usize
    requires draft_faultless { draft_fault (drafted draft.now) ≡ 0 }
    requires content_fits { length (write_numbers (sheet_numbers (draft_sheet (drafted draft.now)))) ≤ length out.old }
    ensures { Put (write_numbers (sheet_numbers (draft_sheet (drafted draft.now)))) out.old out.new result }
{
    let numbers = header_numbers(draft.header);
    let at = numbers::put_numbers(out, &numbers);
    let end = at + numbers::put_numbers(&mut out[at..], draft.arcs);
    end + numbers::put_bytes(&mut out[end..], draft.marks)
}

// Writes the sheet in the form with service minutes: a 1, the content, the service minutes.
fn put_served(draft: &Draft, sheet: &mut [u8]) -> usize
    requires draft_faultless { draft_fault (drafted draft.now) ≡ 0 }
    requires numbers_fit { length (write_numbers (with_services (sheet_numbers (draft_sheet (drafted draft.now))) draft.now.services.now)) ≤ length sheet.old }
    ensures { let xs = with_services (sheet_numbers (draft_sheet (drafted draft.now))) draft.now.services.now in
        Put (write_numbers xs) sheet.old sheet.new result }
{
    sheet[0] = LEAD;
    let end = LEAD_BYTES + put_content(draft, &mut sheet[LEAD_BYTES..]);
    end + numbers::put_numbers(&mut sheet[end..], draft.services)
}

// Writes the sheet of a draft without fault over the front of `sheet` and gives its length.
fn put_sheet(draft: &Draft, sheet: &mut [u8]) -> usize
    requires draft_faultless { draft_fault (drafted draft.now) ≡ 0 }
    requires page_fits { length (page_bytes (draft_page (drafted draft.now))) ≤ length sheet.old }
    ensures { Put (page_bytes (draft_page (drafted draft.now))) sheet.old sheet.new result }
{
    if sheet_services::no_service(draft.services) {
        return put_content(draft, sheet);
    }
    put_served(draft, sheet)
}

// Writes a sheet, for every draft and slice, and gives its length. Nothing is written before all is judged and measured.
pub fn write_sheet(draft: &Draft, sheet: &mut [u8]) -> Result<usize, Refusal>
    ensures { let d = draft_of draft.now.header draft.now.arcs.now draft.now.marks.now draft.now.services.now in
        record { number = number_in result; length = length_in result; out = sheet.new } ≡ sheet_written d sheet.old }
{
    draft.fault()?;
    if !sheet_faults::has_room(sheet, sheet_size(draft)) {
        return Err(Refusal::ShortSheet);
    }
    Ok(put_sheet(draft, sheet))
}
