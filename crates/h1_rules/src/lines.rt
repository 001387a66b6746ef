//! The lines of one name.
ghost use Rattle.std.specs.Prelude.{◌≡◌, ◌<◌, ◌≤◌, ◌∷◌, [], length, IfOk, IfSome, IfNone};
ghost use Rattle.bh_model.specs.Lines.{lines_room};
ghost use Rattle.h1_spec.specs.Cleaning.{values_of};
ghost use Rattle.h1_rules.specs.Values.{IsOnly, values_from};

use bh_base::NoMemory;
use bh_model::Fields;

/// The bytes of room that the lines use; or there is not so much memory.
pub fn room_of(fields: &Fields) -> Result<usize, NoMemory>
    ensures { IfOk result (λ room. room ≡ lines_room fields.now.lines) }
{
    let mut room = 0_usize;
    for i in 0..fields.len() {
        let (name, value) = fields.line(i);
        let Some(more) = room.checked_add(name.len() + value.len() + 2) else {
            return Err(NoMemory);
        };
        room = more;
    }
    Ok(room)
}

/// The value of the first line of a name from a place on, and the place behind it.
pub fn value_from<'a>(fields: &'a Fields, name: &[u8], from: usize) -> Option<(&'a [u8], usize)>
    requires { from ≤ length fields.now.lines }
    ensures found { IfSome result (λ p. values_from name.now fields.now.lines from ≡ p.0.now ∷ values_from name.now fields.now.lines p.1) }
    ensures later { IfSome result (λ p. from < p.1) }
    ensures within { IfSome result (λ p. p.1 ≤ length fields.now.lines) }
    ensures none { IfNone result (values_from name.now fields.now.lines from ≡ []) }
{
    for i in from..fields.len() {
        let (own, value) = fields.line(i);
        if own == name {
            return Some((value, i + 1));
        }
    }
    None
}

/// The lines of a name: none, one with this value, or several.
#[derive(Clone, Copy)]
pub enum Only<'a> {
    Missing,
    One(&'a [u8]),
    Several,
}

/// Which of these the lines of a name are.
pub fn only_value<'a>(fields: &'a Fields, name: &[u8]) -> Only<'a>
    ensures { IsOnly (values_of name.now fields.now.lines) result }
{
    let Some((value, next)) = value_from(fields, name, 0) else {
        return Only::Missing;
    };
    match value_from(fields, name, next) {
        Some(_) => Only::Several,
        None => Only::One(value),
    }
}
