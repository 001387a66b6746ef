//! Whether what a head says fits the limits of the binary form.
ghost use Rattle.std.specs.Prelude.{◌↔◌, IsTrue, length};
ghost use Rattle.bh_spec.specs.Bounds.{IsWithin};
ghost use Rattle.bh_spec.specs.Canonical.{ControlFits, FieldsFit};
ghost use Rattle.h1_rules.specs.Targeted.{control_by};

use crate::targets::TargetParts;
use bh_encode::string_bytes;
use bh_model::{Fields, Limits};

/// Whether field lines fit: each name and value, and the bytes of all lines in their least widths (RFC 9292, section 3.6).
pub fn fits(fields: &Fields, limits: &Limits) -> bool
    ensures { IsTrue result ↔ FieldsFit limits.now fields.now.lines }
{
    let mut room = limits.section();
    for i in 0..fields.len() {
        let (name, value) = fields.line(i);
        if !parts_fit(name, value, limits) {
            return false;
        }
        let used = string_bytes(name) + string_bytes(value);
        if used > room {
            return false;
        }
        room -= used;
    }
    true
}

/// Whether control data fits: the method, the scheme, the authority and the path (RFC 9292, section 3.4).
pub fn control_fits(method: &[u8], parts: TargetParts<'_>, limits: &Limits) -> bool
    ensures { IsTrue result ↔ ControlFits limits.now (control_by method.now parts.entry) }
{
    part_fits(method.len(), limits)
        && part_fits(parts.scheme.len(), limits)
        && part_fits(parts.authority.len(), limits)
        && part_fits(parts.front.len() + parts.rest.len(), limits)
}

/// Whether a name and a value fit.
fn parts_fit(name: &[u8], value: &[u8], limits: &Limits) -> bool
    ensures { IsTrue result ↔ (IsWithin limits.now.part (length name.now) × IsWithin limits.now.part (length value.now)) }
{
    part_fits(name.len(), limits) && part_fits(value.len(), limits)
}

/// Whether a part of so many bytes fits.
fn part_fits(bytes: usize, limits: &Limits) -> bool
    ensures { IsTrue result ↔ IsWithin limits.now.part bytes }
{
    bytes as u64 <= limits.part()
}
