//! The command `trial`.
ghost use Rattle.std.specs.Prelude.{◌≤◌};
ghost use Rattle.bh_base.specs.Steps.{meanings};
ghost use Rattle.bh_text.specs.Reports.{trial_line};
ghost use Rattle.bh_cmd.specs.Runs.{TrialExitFacts, IsToldLine};

use crate::exits::Exit;
use crate::trial_port::TrialPort;
use bh_base::{Port, write_all};
use bh_canon::{CanonEnd, Engine};
use bh_model::{Cause, Limits, Summary};
use bh_text::{Trial, write_trial};
use std::alloc::Global;

/// Writes to `port` what the engine did with the input: its summary, and what the port of the trial counted.
fn tell<P: Port>(content: u64, summary: Summary, trial: &TrialPort, port: &mut P) -> Exit
    ensures { IsToldLine P.write_step summary
        (trial_line (record { content = content; bytes_in = summary.bytes; bytes_out = trial.now.written; sum = trial.now.sum }))
        port.old result port.new }
{
    let told = Trial {
        content,
        bytes_in: summary.bytes,
        bytes_out: trial.written(),
        sum: trial.sum(),
    };
    let mut line = [0; 192];
    let end = write_trial(&told, &mut line);
    match write_all(port, &line[..end]) {
        Ok(()) => Exit::Done(Some(summary)),
        Err(_) => Exit::WriteFault,
    }
}

/// Makes an input with so many bytes of content, runs the engine on it under the default limits, and writes to `port` what it
/// did.
pub(crate) fn trial<P: Port>(alloc: Global, content: u64, port: &mut P) -> Exit
    requires { content ≤ 67108864 }
    ensures { TrialExitFacts content P.write_step (meanings P.left P.sent P.read_faults P.write_faults) port.old result port.new }
{
    let Ok(mut engine) = Engine::new(alloc, &Limits::default()) else {
        return Exit::NoMemory;
    };
    let mut trial = TrialPort::new(content);
    match engine.canon(&mut trial) {
        CanonEnd::Done(summary) => tell(content, summary, &trial, port),
        CanonEnd::Refused(refusal) => Exit::Refused(Cause::Binary(refusal)),
        // No call of a `TrialPort` fails.
        CanonEnd::ReadFault | CanonEnd::WriteFault => Exit::NoMemory,
    }
}
