//! Which moment of judging comes with which item of the push decoder, and what follows for the answers of the translator to HTTP/1.1. Each
//! function is empty: its contract is a law. `specs/Seen` says which moments come with an item behind others, `specs/Laws` has the laws.
#![tactic(auto)]

ghost use Rattle.h1_moments.specs.Laws.{NoneComesUnseen, NoneIsJudgedYet, StandsInPlace, ItsMomentComes, JudgedThere};
ghost use Rattle.h1_moments.specs.Laws.{RefusedWhereFree, MissedWhereFree, FinishedWhereFree};

/// No moment comes unseen: a moment at one of the bytes that were taken is one of an item that was handed out.
pub fn none_comes_unseen()
    ensures { NoneComesUnseen }
{}

/// So none of the bytes is judged where no rule holds at the items.
pub fn none_is_judged_yet()
    ensures { NoneIsJudgedYet }
{}

/// Interim responses and the head stand before any head, and all else behind one.
pub fn stands_in_place()
    ensures { StandsInPlace }
{}

/// An item's moment comes with its last byte.
pub fn its_moment_comes()
    ensures { ItsMomentComes }
{}

/// Where a rule holds at the last item, and none before it, its last byte is the first that is judged.
pub fn judged_there()
    ensures { JudgedThere }
{}

/// Where no rule holds, what the decoder refuses is the translator's answer.
pub fn refused_where_free()
    ensures { RefusedWhereFree }
{}

/// And so is an end that comes too soon.
pub fn missed_where_free()
    ensures { MissedWhereFree }
{}

/// A message that ends there has a text, or a rule holds at its end.
pub fn finished_where_free()
    ensures { FinishedWhereFree }
{}
