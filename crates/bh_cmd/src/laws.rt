//! Laws of runs. The functions are empty: their contracts are the laws.
ghost use Rattle.bh_base.specs.Steps.{meanings};
ghost use Rattle.bh_cmd.specs.Laws.{RunBackIsDone, RunsThereAndBack};
ghost use Rattle.bh_cmd.specs.Trials.{TrialIsMessage};

use bh_base::Port;

/// What a run of `from-http1` sends, over the text that a run of `to-http1` sent, is the canonical text of the cleaned message, where
/// both end with status 0.
pub fn there_and_back<P: Port, Q: Port>()
    ensures { RunsThereAndBack (meanings P.left P.sent P.read_faults P.write_faults) (meanings Q.left Q.sent Q.read_faults Q.write_faults) }
{}

/// And it ends with status 0, or for want of memory, where it counts no fault and the text keeps its limits.
pub fn back_is_done<P: Port, Q: Port>()
    ensures { RunBackIsDone (meanings P.left P.sent P.read_faults P.write_faults) (meanings Q.left Q.sent Q.read_faults Q.write_faults) }
{}

/// What `trial` makes is a message within the default limits.
pub fn trial_is_message()
    ensures { TrialIsMessage }
{}
