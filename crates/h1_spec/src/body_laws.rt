//! Laws of a reader in the middle of a body. Each function is empty: its contract is the law.
ghost use Rattle.h1_spec.specs.BodyCalls.{StartsWithABody, ExactForEveryCut, OneCause, NoneWhereWhole, OneInFront, NoneBehindBody, WrittenIsBody};

/// From the start what completes a body is a body of the framing.
pub fn starts_with_a_body()
    ensures { StartsWithABody }
{}

/// However a body is cut into calls, it is the body that was read, and what is wrong is wrong with it.
pub fn exact_for_every_cut()
    ensures { ExactForEveryCut }
{}

/// One thing is wrong at most.
pub fn one_cause()
    ensures { OneCause }
{}

/// And nothing where the bytes complete a body.
pub fn none_where_whole()
    ensures { NoneWhereWhole }
{}

/// A body that doesn't last to the end of the bytes is the only one at their front.
pub fn one_in_front()
    ensures { OneInFront }
{}

/// With bytes that begin with a body nothing is wrong.
pub fn none_behind_body()
    ensures { NoneBehindBody }
{}

/// Chunks that are written, and their end, are a body again.
pub fn written_is_body()
    ensures { WrittenIsBody }
{}
