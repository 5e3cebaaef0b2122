// The service minutes of a sheet (docs/FORMATS.md, 'The sheet'): which form a sheet has, what stands behind its content, and what it adds to the arcs.

#![tactic(auto)]

ghost use Rattle.std.specs.Prelude.{◌≡◌, ◌≤◌, length, IfErr, OnOk, OnErr};
ghost use Rattle.lists.specs.Lists.{front};
ghost use Rattle.varint.specs.Refusal.{number_of};
ghost use Rattle.sheet.specs.Good.{All};
ghost use Rattle.sheet.specs.Page.{served, no_service};
ghost use Rattle.sheet.specs.Reader.{lead, content};
ghost use Rattle.sheet_services.specs.Services.{services_in, ServicesTaken, ServicesRefused, Servable, leading};

use numbers::section;
use sheet::LEAD;
use sheet_values::Services;
use varint::{Bytes, Refusal};
use walks::arc::Arc;

// Whether a 1 stands before the content of a sheet, and the bytes from its content on.
pub fn lead_and_content(sheet: &[u8]) -> (bool, &[u8])
    ensures lead_told { lead sheet.now ≡ leading result.0 }
    ensures content_told { result.1.now ≡ content sheet.now }
{
    match sheet.split_first() {
        Some((&first, content)) if first == LEAD => (true, content),
        _ => (false, sheet),
    }
}

// Whether no service takes a minute.
pub fn no_service(services: &[u32]) -> bool
    ensures { result ≡ no_service services.now }
{
    services.iter().all(|&minutes| minutes == 0)
}

// Takes what stands behind the content of a sheet of `nodes` nodes: where a 1 leads, the service minutes, of which one is not 0; else nothing.
// They are stored over the front of `services`. `leading` says how many numbers stand before the content. Where they are refused, nothing is taken.
pub fn take_services(
    bytes: &mut Bytes,
    leading: usize,
    nodes: usize,
    services: &mut [u32],
) -> Result<(), Refusal>
    requires { nodes ≤ length services.old }
    ensures got { OnOk result (ServicesTaken leading nodes bytes.old.rest.now bytes.new.rest.now) }
    ensures refused { IfErr result (λ why. ServicesRefused leading nodes bytes.old.rest.now (number_of why)) }
    ensures kept { OnErr result (bytes.new.rest.now ≡ bytes.old.rest.now) }
    ensures services_in_front { services.new ≡ front (services_in leading nodes bytes.old.rest.now) services.old }
{
    let listed = &mut services[..nodes];
    if leading == 0 {
        listed.fill(0);
        return Ok(());
    }
    let mut ahead = *bytes;
    section::read_all(&Services, &mut ahead, listed)?;
    if no_service(listed) {
        return Err(Refusal::Mark);
    }
    *bytes = ahead;
    Ok(())
}

// Adds to each arc's minutes the service minutes of its head.
pub fn serve(arcs: &mut [Arc], services: &[u32])
    requires { All (Servable services.now) arcs.old }
    ensures { arcs.new ≡ served services.now arcs.old }
{
    for l in 0..arcs.len() {
        arcs[l].weight += services[arcs[l].head as usize];
    }
}
