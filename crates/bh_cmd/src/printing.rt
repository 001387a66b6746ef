//! The line that says how a command ended.
ghost use Rattle.bh_text.specs.Reports.{report_line};
ghost use Rattle.bh_cmd.specs.Exits.{report_of};
ghost use Rattle.bh_cmd.specs.Runs.{IsPrinted};

use crate::exits::Exit;
use bh_base::{Sink, write_all};
use bh_text::write_line;

/// Sends the line of the exit's report. A failure there changes nothing.
pub(crate) fn print<E: Sink>(exit: &Exit, errs: &mut E)
    ensures { IsPrinted E.write_step E.sent E.write_faults (report_line (report_of exit.now)) errs.old errs.new }
{
    let mut line = [0; 192];
    let end = write_line(&exit.report(), &mut line);
    let _ = write_all(errs, &line[..end]);
}
