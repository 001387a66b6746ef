//! Laws of two translations. The functions are empty: their contracts are the laws.
ghost use Rattle.bh_translate.specs.Laws.{BackIsDone, ThereAndBack};

/// What `from_http1` sends of the text that `to_http1` sent is the canonical text of the cleaned message, where both are done.
pub fn there_and_back()
    ensures { ThereAndBack }
{}

/// And it is done where it counts no fault and the text keeps its limits.
pub fn back_is_done()
    ensures { BackIsDone }
{}
