//! Parts of bytes by the form of the message.
ghost use Rattle.std.specs.Prelude.{◌≡◌};
ghost use Rattle.bh_push.specs.Decoders.{length_part as part_of_length, first_part_of};

use bh_model::{Form, Part};

/// The part of the length of the content or of a chunk.
pub fn length_part(form: Form) -> Part
    ensures { result ≡ part_of_length form }
{
    match form {
        Form::Known => Part::ContentLength,
        Form::Indeterminate => Part::ChunkLength,
    }
}

/// The part of the first byte of a section.
pub fn section_part(form: Form) -> Part
    ensures { result ≡ first_part_of form }
{
    match form {
        Form::Known => Part::SectionLength,
        Form::Indeterminate => Part::NameLength,
    }
}
