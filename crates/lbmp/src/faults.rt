// Which files are refused: the tests in their order.
ghost use Rattle.std.specs.Prelude.{◌≡◌, ◌*◌, ◌≤◌, Some};
ghost use Rattle.lbmp.specs.File.{kind_of};
ghost use Rattle.lbmp.specs.Faults.{area_fault, twice_fault, field_fault, planes_fault, bytes_fault, header_verdict, verdict};

use crate::Refusal;
use crate::header::{Header, Kind, expected_size, kind_of, mask_size, pixel_size, read_header};

#[tactic(auto, unfolding(crate::specs::Faults::area_fault))]
fn area_fault(h: Header) -> Result<(), Refusal>
    ensures { result ≡ area_fault h }
{
    if 4294967295 < u64::from(h.width) * u64::from(h.height) {
        return Err(Refusal::Invalid);
    }
    Ok(())
}

#[tactic(auto, unfolding(crate::specs::Faults::twice_fault))]
fn twice_fault(kind: Option<Kind>, n: u64) -> Result<(), Refusal>
    requires { n ≤ 4294967295 }
    ensures { result ≡ twice_fault kind n }
{
    match kind {
        Some(Kind::Rgb565) if 4294967295 < 2 * n => Err(Refusal::Invalid),
        _ => Ok(()),
    }
}

#[tactic(auto, unfolding(crate::specs::Faults::field_fault))]
fn field_fault(h: Header, kind: Kind) -> Result<(), Refusal>
    requires { (h.width * h.height ≤ 4294967295) × (kind_of h.kind ≡ Some kind) }
    ensures { result ≡ field_fault h }
{
    if h.width == 0 || h.height == 0 {
        return Err(Refusal::Invalid);
    }
    if u64::from(h.size) != expected_size(kind, h.width, h.height) || 1 < h.mask {
        return Err(Refusal::Invalid);
    }
    Ok(())
}

#[tactic(auto, unfolding(crate::specs::Faults::planes_fault))]
fn planes_fault(kind: Kind, size: u32) -> Result<(), Refusal>
    ensures { result ≡ planes_fault (Some kind) size }
{
    match kind {
        Kind::Greys if 4294967295 < 2 * u64::from(size) => Err(Refusal::Invalid),
        _ => Ok(()),
    }
}

#[tactic(auto, unfolding(crate::specs::Faults::bytes_fault))]
fn bytes_fault(h: Header, n: u64) -> Result<(), Refusal>
    ensures { result ≡ bytes_fault h n }
{
    if n < 24 + pixel_size(h) + mask_size(h) {
        return Err(Refusal::Invalid);
    }
    Ok(())
}

// The first fault that a header of a file of n bytes has.
#[tactic(auto, using(crate::proofs::faults::Verdicts::first_fault), unfolding(crate::specs::Faults::header_verdict))]
fn header_verdict(h: Header, n: u64) -> Result<(), Refusal>
    ensures { result ≡ header_verdict h n }
{
    area_fault(h)?;
    let kind = kind_of(h.kind);
    twice_fault(kind, u64::from(h.width) * u64::from(h.height))?;
    let kind = kind.ok_or(Refusal::BadType)?;
    field_fault(h, kind)?;
    planes_fault(kind, h.size)?;
    bytes_fault(h, n)
}

// The first fault of a file, ROOM apart.
#[tactic(auto, unfolding(crate::specs::Faults::verdict, crate::specs::Faults::short_fault, crate::specs::Faults::or_else))]
pub(crate) fn verdict_of(file: &[u8]) -> Result<(), Refusal>
    ensures { result ≡ verdict file.now }
{
    if file.len() < 24 {
        return Err(Refusal::Invalid);
    }
    header_verdict(read_header(file), file.len() as u64)
}
