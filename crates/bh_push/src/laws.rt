//! Laws about the definitions. Each function is empty: its contract is the law.
ghost use Rattle.bh_push.specs.Feeding.{OneAnswerForAnyPieces};
ghost use Rattle.bh_push.specs.Laws.{StartsWithAMessage, YieldsAMessage, ExactForEveryCut};
ghost use Rattle.bh_push.specs.Pushes.{OneAnswerForEveryCut};

/// From the start, what completes a message is a message, and its items are those that are handed out.
pub fn starts_with_a_message()
    ensures { StartsWithAMessage }
{}

/// What was yielded from the start is of each message that continues the bytes taken.
pub fn yields_a_message()
    ensures { YieldsAMessage }
{}

/// However the input is cut into calls, what the last one says is the answer for the input.
pub fn exact_for_every_cut()
    ensures { ExactForEveryCut }
{}

/// The same in the words of the calls: a first refusal, `TooLong` among them, and the end.
pub fn one_answer_for_every_cut()
    ensures { OneAnswerForEveryCut }
{}

/// However an input is cut into pieces, what the decoder says of them is the answer for the input.
pub fn one_answer_for_any_pieces()
    ensures { OneAnswerForAnyPieces }
{}
