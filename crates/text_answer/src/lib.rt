// What the pass answers to a sheet, as the program prints it: the lines of a round that stands, of one that is refused, and of a refusal of the sheet.
#![tactic(auto)]

ghost use Rattle.std.specs.Prelude.{◌≡◌, ◌≤◌, ◌<◌, length};
ghost use Rattle.lists.specs.Lists.{Put};
ghost use Rattle.slip_reader.specs.Form.{slip_from};
ghost use Rattle.text_answer.specs.Report.{report_text};
ghost use Rattle.text_answer.specs.Text.{newly_forbidden, refused_text, stands_text, blame_text};

mod display;

use arrayvec::ArrayVec;
use text_lines::Line;
use varint::Refusal;
use walks::mark::Mark;
use walks::{GOALS, ITEMS};

// A refusal's line, by its number.
#[derive(Clone, Copy, Debug, PartialEq, Eq)]
pub struct Refused(pub u32);

impl Refused {
    // Writes the line over the front of `out` and gives its length.
    #[tactic(auto, unfolding(crate::specs::Text::refused_text))]
    pub fn put(&self, out: &mut [u8]) -> usize
        requires { length (refused_text self.now.0) ≤ length out.old }
        ensures { Put (refused_text self.now.0) out.old out.new result }
    {
        let number = [self.0];
        let line = Line {
            word: b"refused",
            numbers: &number,
        };
        line.put(out)
    }
}

// The lines of a round that stands: the items that are struck off.
#[derive(Clone, Copy, Debug, PartialEq, Eq)]
pub struct Stands<'a> {
    pub struck: &'a [u32],
}

impl Stands<'_> {
    // Writes the lines over the front of `out` and gives their length.
    pub fn put(&self, out: &mut [u8]) -> usize
        requires { length (stands_text self.now.struck.now) ≤ length out.old }
        ensures { Put (stands_text self.now.struck.now) out.old out.new result }
    {
        let verdict = Line {
            word: b"verdict",
            numbers: &[0],
        };
        let struck = Line {
            word: b"struck",
            numbers: self.struck,
        };
        let at = verdict.put(out);
        at + struck.put(&mut out[at..])
    }
}

// The lines of a round that is refused: what it needs cannot be done, because of these closures.
#[derive(Clone, Copy, Debug, PartialEq, Eq)]
pub struct Blames<'a> {
    pub verdict: u32,
    pub needs: &'a [u32],
    pub because: &'a [u32],
}

impl Blames<'_> {
    // Writes the lines over the front of `out` and gives their length.
    pub fn put(&self, out: &mut [u8]) -> usize
        requires { let b = self.now in length (blame_text (slip_from b.verdict b.needs.now b.because.now)) ≤ length out.old }
        ensures { let b = self.now in Put (blame_text (slip_from b.verdict b.needs.now b.because.now)) out.old out.new result }
    {
        let first = [self.verdict];
        let verdict = Line {
            word: b"verdict",
            numbers: &first,
        };
        let needs = Line {
            word: b"needs",
            numbers: self.needs,
        };
        let because = Line {
            word: b"because",
            numbers: self.because,
        };
        let at = verdict.put(out);
        let end = at + needs.put(&mut out[at..]);
        end + because.put(&mut out[end..])
    }
}

// What the pass answers to a sheet.
#[derive(Debug, Drop)]
pub enum Report {
    // The round stands, and these items are struck off.
    Stands {
        struck: ArrayVec<u32, ITEMS>,
    },
    // The round is refused: what it needs cannot be done, because of these closures.
    Blames {
        verdict: u32,
        needs: ArrayVec<u32, GOALS>,
        because: ArrayVec<u32, ITEMS>,
    },
    // The sheet is refused.
    Refuses(Refusal),
}

impl Report {
    // Writes the lines over the front of `out` and gives their length.
    pub fn put(&self, out: &mut [u8]) -> usize
        requires { length (report_text self.now) ≤ length out.old }
        ensures { Put (report_text self.now) out.old out.new result }
    {
        match self {
            Report::Stands { struck } => Stands { struck }.put(out),
            Report::Blames {
                verdict,
                needs,
                because,
            } => {
                let blames = Blames {
                    verdict: *verdict,
                    needs,
                    because,
                };
                blames.put(out)
            }
            Report::Refuses(why) => Refused(u32::from(*why)).put(out),
        }
    }
}

// The items newly forbidden, ascending: open on the sheet and shut by the slip.
#[tactic(auto, using(crate::proofs::ListLaws::listing))]
pub fn newly_forbidden_indices<const N: usize>(marks: &[Mark], slip: &[u8]) -> ArrayVec<usize, N>
    requires { (length marks.now < length slip.now) × (length marks.now ≤ N) }
    ensures { result.items ≡ newly_forbidden marks.now slip.now }
{
    let mut list = ArrayVec::new();
    for i in 0..marks.len() {
        if marks[i].is_open() && Mark::from(slip[i + 1]).is_forbidden() {
            list.push(i);
        }
    }
    list
}

// The same as 32-bit numbers, of at most 2^32 marks. It does not go by the indices: a list of them takes twice the bytes, so that it asks for a smaller `N`.
#[tactic(auto, using(crate::proofs::ListLaws::listing))]
pub fn newly_forbidden<const N: usize>(marks: &[Mark], slip: &[u8]) -> ArrayVec<u32, N>
    requires { (length marks.now < length slip.now) × (length marks.now ≤ N) × (length marks.now ≤ 4294967296) }
    ensures { result.items ≡ newly_forbidden marks.now slip.now }
{
    let mut list = ArrayVec::new();
    for item in 0..marks.len() {
        if marks[item].is_open() && Mark::from(slip[item + 1]).is_forbidden() {
            list.push(item as u32);
        }
    }
    list
}

#[cfg(test)]
mod tests {
    use super::*;

    // Of five items the second and the fifth are shut by the slip alone; the third was shut before, and the fourth has to be visited.
    #[test]
    fn items_newly_forbidden(rt: HostRuntime) {
        let marks = [
            Mark::OPEN,
            Mark::OPEN,
            Mark::FORBIDDEN,
            Mark::MANDATORY,
            Mark::OPEN,
        ];
        let slip = [0, 0, 2, 2, 1, 2];
        let items: ArrayVec<u32, 5> = newly_forbidden(&marks, &slip);
        let indices: ArrayVec<usize, 5> = newly_forbidden_indices(&marks, &slip);
        assert_eq!(rt; items.as_slice(), [1, 4].as_slice());
        assert_eq!(rt; indices.as_slice(), [1, 4].as_slice());
    }
}
