// What the program prints for a sheet.
#![tactic(auto)]

ghost use Rattle.std.specs.Prelude.{◌≡◌, ◌≤◌, ◌<◌, [], List, ℕ, length, take, All};
ghost use Rattle.lists.specs.Lists.{front};
ghost use Rattle.sheet.specs.Answer.{finished};
ghost use Rattle.sheet.specs.Slip.{read_slip};
ghost use Rattle.slip_reader.specs.Form.{numbers_in};
ghost use Rattle.pass_rules.specs.Pass.{outcome, pass_on, verdict_in};
ghost use Rattle.text_answer.specs.Report.{report_text};
ghost use Rattle.text_answer.specs.Text.{blamed, slip_text, text, answer as answer_to};

use arrayvec::ArrayVec;
use sheet_reader::page::Page;
use slip_reader::NumberList;
use text_answer::Report;

// The numbers of a slip's list.
fn listed<const N: usize>(list: &NumberList) -> ArrayVec<u32, N>
    requires { list.now.count ≤ N }
    ensures { result.items ≡ numbers_in list.now }
{
    let mut numbers = [0u32; N];
    let mut items = ArrayVec::new();
    let _ = items.try_extend_from_slice(list.read(&mut numbers));
    items
}

// Items as a slip's lists have them.
fn items<const N: usize>(list: &ArrayVec<usize, N>) -> ArrayVec<u32, N>
    requires { All (λ i. i < 4294967296) list.now.items }
    ensures { result.items ≡ list.now.items }
{
    let mut items = ArrayVec::new();
    for &item in list.as_slice() {
        items.push(item as u32);
    }
    items
}

// What is told of a round that stands, by the marks of its sheet.
fn stands(sheet: &[u8], slip: &[u8]) -> Report
    requires { (pass_on sheet.now ≡ finished slip.now) × (verdict_in slip.now ≡ 0) }
    ensures { report_text result ≡ slip_text sheet.now slip.now }
{
    let mut page = Page::empty();
    match page.read(sheet) {
        Ok(taken) => Report::Stands {
            struck: items(&text_answer::newly_forbidden_indices(taken.marks, slip)),
        },
        // never: the pass has read it
        Err(why) => Report::Refuses(why),
    }
}

// What is told of a round that is refused, by the slip alone.
fn blames(slip: &[u8]) -> Report
    requires { (sheet : List ℕ) × (pass_on sheet ≡ finished slip.now) × (0 < verdict_in slip.now) }
    ensures { report_text result ≡ blamed (read_slip slip.now) }
{
    match slip_reader::judge_slip(slip) {
        Ok(form) => Report::Blames {
            verdict: u32::from(form.claim),
            needs: listed(&form.goals),
            because: listed(&form.reasons),
        },
        // never: the pass wrote it
        Err(why) => Report::Refuses(why),
    }
}

// What is told of a finished pass by its slip.
fn finishes(sheet: &[u8], slip: &[u8]) -> Report
    requires { pass_on sheet.now ≡ finished slip.now }
    ensures { report_text result ≡ slip_text sheet.now slip.now }
{
    if slip[0] == 0 {
        return stands(sheet, slip);
    }
    blames(slip)
}

// Runs the pass on a sheet and tells what it answers.
pub fn tell(sheet: &[u8], work: &mut [u32]) -> Report
    ensures text_of_sheet { report_text result ≡ text sheet.now (answer_to sheet.now work.old) }
    ensures work_as_outcome { work.new ≡ (outcome (answer_to sheet.now work.old) work.old []).work }
{
    let mut slip = [0u8; work::SLIP_BYTES];
    match pass::pass(sheet, work, &mut slip) {
        Ok(length) => finishes(sheet, &slip[..length]),
        Err(why) => Report::Refuses(why),
    }
}

// Runs the pass on a sheet, writes the text of what it answers over the front of `out` and gives its length. The last clause follows from the first two; it
// lets a caller take that part of `out` with no proof of its own.
pub fn report(sheet: &[u8], work: &mut [u32], out: &mut [u8]) -> usize
    requires { 8192 ≤ length out.old }
    ensures text_length { result ≡ length (text sheet.now (answer_to sheet.now work.old)) }
    ensures text_in_front { out.new ≡ front (text sheet.now (answer_to sheet.now work.old)) out.old }
    ensures work_as_outcome { work.new ≡ (outcome (answer_to sheet.now work.old) work.old []).work }
    ensures length_inside { (result ≤ length out.new) × (result ≡ length (take result out.new)) }
{
    tell(sheet, work).put(out)
}
