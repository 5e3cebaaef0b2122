// The arc view: the part of a sheet that holds an arc's three numbers.

#![tactic(auto)]

ghost use Rattle.std.specs.Prelude.{◌≡◌, ◌+◌};
ghost use Rattle.sheet.specs.ArcView.{arc_view, place_of};
ghost use Rattle.sheet.specs.Reader.{past};

use numbers::section;
use sheet_reader::page::Page;
use varint::Bytes;

// How many numbers stand in the header of a sheet's content, and for each arc.
const HEADER_NUMBERS: usize = 5;

const NUMBERS_EACH: usize = 3;

// The bytes after `count` numbers; none where these cannot be read.
fn past_numbers(bytes: &[u8], count: usize) -> &[u8]
    ensures { result.now ≡ past count bytes.now }
{
    let mut left = Bytes { rest: bytes };
    match section::skip_numbers(&mut left, count) {
        Ok(()) => left.rest,
        Err(_) => &[],
    }
}

// The part of the sheet that holds the three numbers of the arc; empty, at the sheet's front, where the sheet is refused or has no such arc. The contract
// fixes the place, and so no other part that holds the same bytes will do.
pub fn arc_view(sheet: &[u8], arc: u32) -> &[u8]
    ensures lies_in_sheet { (result.ref_ptr.0 ≡ sheet.entry.ref_ptr.0) × (result.ref_ptr.1 ≡ place_of sheet.now arc + sheet.entry.ref_ptr.1) }
    ensures bytes_of_arc { result.now ≡ arc_view sheet.now arc }
{
    let mut page = Page::empty();
    let taken = match page.read(sheet) {
        Ok(taken) => taken,
        Err(_) => return &sheet[0..0],
    };
    let earlier = arc as usize;
    if taken.header.arcs <= earlier {
        return &sheet[0..0];
    }
    let (_, content) = sheet_services::lead_and_content(sheet);
    let from = past_numbers(content, HEADER_NUMBERS + NUMBERS_EACH * earlier);
    let behind = past_numbers(from, NUMBERS_EACH);
    &sheet[sheet.len() - from.len()..sheet.len() - behind.len()]
}
