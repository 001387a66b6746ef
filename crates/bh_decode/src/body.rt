//! The content of a message.
ghost use Rattle.std.specs.Prelude.{[], ◌≤◌, ◌^◌, length, IfOk, IfErr};
ghost use Rattle.bh_spec.specs.declared.Form.TheVariants as forms;
ghost use Rattle.bh_spec.specs.Pieces.{Ends};
ghost use Rattle.bh_decode.specs.Grammar.{BodyOf};
ghost use Rattle.bh_decode.specs.Stops.{StopsAt, AtStop};

use crate::content::read_run;
use crate::fault::Fault;
use bh_model::{Bytes, Form, Part};
use bh_push::behind;
use std::alloc::Global;

/// Content that was read, and how many bytes its text has.
#[derive(Drop)]
pub struct Body {
    pub content: Bytes,
    pub taken: usize,
}

/// Reads content in chunks, up to and with the 0 that ends them (RFC 9292, section 3.7).
fn read_chunks(alloc: Global, bytes: &[u8]) -> Result<Body, Fault>
    requires { length bytes.now ≤ 2 ^ 40 }
    ensures whole { IfOk result (λ body. Ends (BodyOf forms.Indeterminate body.content) [] bytes.now body.taken) }
    ensures stops { IfErr result (AtStop (StopsAt (BodyOf forms.Indeterminate) (BodyOf forms.Indeterminate) bytes.now)) }
{
    let mut content = Vec::new(alloc);
    let mut taken = 0;
    loop {
        match read_run(behind(bytes, taken), Part::ChunkLength) {
            Ok(run) => {
                taken += run.taken;
                if run.content.is_empty() {
                    let content = Bytes::from_slice(alloc, content.as_slice())?;
                    return Ok(Body { content, taken });
                }
                content.extend_from_slice(run.content)?;
            }
            Err(stop) => return Err(Fault::Stop(stop.behind(taken))),
        }
    }
}

/// Reads content of known length (RFC 9292, section 3.7).
fn read_known(alloc: Global, bytes: &[u8]) -> Result<Body, Fault>
    requires { length bytes.now ≤ 2 ^ 40 }
    ensures whole { IfOk result (λ body. Ends (BodyOf forms.Known body.content) [] bytes.now body.taken) }
    ensures stops { IfErr result (AtStop (StopsAt (BodyOf forms.Known) (BodyOf forms.Known) bytes.now)) }
{
    let run = read_run(bytes, Part::ContentLength)?;
    let content = Bytes::from_slice(alloc, run.content)?;
    Ok(Body {
        content,
        taken: run.taken,
    })
}

/// Reads content as the form spells it.
pub fn read_body(alloc: Global, form: Form, bytes: &[u8]) -> Result<Body, Fault>
    requires { length bytes.now ≤ 2 ^ 40 }
    ensures whole { IfOk result (λ body. Ends (BodyOf form body.content) [] bytes.now body.taken) }
    ensures stops { IfErr result (AtStop (StopsAt (BodyOf form) (BodyOf form) bytes.now)) }
{
    match form {
        Form::Known => read_known(alloc, bytes),
        Form::Indeterminate => read_chunks(alloc, bytes),
    }
}
