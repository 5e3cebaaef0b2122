// The room that a sheet is read into.

ghost use Rattle.std.specs.Prelude.{◌≡◌, length, Ok, IfOk, IfErr};
ghost use Rattle.varint.specs.Varint.{refuse};
ghost use Rattle.varint.specs.Refusal.{number_of};
ghost use Rattle.sheet.specs.Reader.{page, taken};
ghost use Rattle.sheet_reader.specs.Loaded.{Loaded, LoadedPage};
ghost use Rattle.sheet_reader.specs.Answer.{answered};

use sheet_required::whole::Sheet;
use varint::Refusal;
use walks::arc::Arc;
use walks::mark::Mark;
use walks::{ARCS, ITEMS, NODES};

// Arrays that any sheet fits. They stand on the caller's stack, as nothing here may take memory from a heap. No copies and no equality are derived: a room is
// large, and what it holds past the sheet that it lends means nothing.
#[derive(Drop)]
pub struct Page {
    arcs: [Arc; ARCS],
    marks: [Mark; ITEMS],
    services: [u32; NODES],
}

// A sheet that is taken, and the service minutes of each node, which its arcs' weights have in them.
#[derive(Clone, Copy, Debug, PartialEq, Eq)]
pub struct ServicedSheet<'a> {
    pub sheet: Sheet<'a>,
    pub services: &'a [u32],
    ghost one_each: { length services.now ≡ sheet.header.nodes },
}

impl Page {
    // A room that no sheet was read into. It promises nothing of what it holds, since each reading writes what it lends.
    pub fn empty() -> Page {
        Page {
            arcs: [Arc::ZERO; ARCS],
            marks: [Mark::OPEN; ITEMS],
            services: [0; NODES],
        }
    }

    // Reads a sheet and lends what was read, or says why it is refused.
    pub fn read<'a>(&'a mut self, sheet: &[u8]) -> Result<Sheet<'a>, Refusal>
        ensures header_told { IfOk result (λ s. answered (taken sheet.now) ≡ Ok s.header) }
        ensures taken_refused { IfErr result (λ why. taken sheet.now ≡ refuse (number_of why)) }
        ensures loaded { IfOk result (λ s. Loaded sheet.now s.header s.arcs.now s.marks.now) }
    {
        let header = crate::read(sheet, &mut self.arcs, &mut self.marks)?;
        Ok(Sheet {
            header,
            arcs: &self.arcs[..header.arcs],
            marks: &self.marks[..header.nodes + header.arcs],
        })
    }

    // The same for a caller that looks at the service minutes by themselves.
    pub fn read_serviced<'a>(&'a mut self, sheet: &[u8]) -> Result<ServicedSheet<'a>, Refusal>
        ensures header_told { IfOk result (λ s. answered (taken sheet.now) ≡ Ok s.sheet.header) }
        ensures refused { IfErr result (λ why. page sheet.now ≡ refuse (number_of why)) }
        ensures taken_refused { IfErr result (λ why. taken sheet.now ≡ refuse (number_of why)) }
        ensures loaded { IfOk result (λ s. LoadedPage sheet.now s.sheet.header s.sheet.arcs.now s.sheet.marks.now s.services.now) }
    {
        let header = crate::read_page(sheet, &mut self.arcs, &mut self.marks, &mut self.services)?;
        Ok(ServicedSheet {
            sheet: Sheet {
                header,
                arcs: &self.arcs[..header.arcs],
                marks: &self.marks[..header.nodes + header.arcs],
            },
            services: &self.services[..header.nodes],
        })
    }
}
