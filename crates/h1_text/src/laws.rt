//! Laws of what is written. The function is empty: its contract is the laws.
ghost use Rattle.h1_text.specs.Laws.{OwesTheText};

/// What is owed for the items of a message is its text, each byte of content as content.
pub fn the_text_is_owed()
    ensures { OwesTheText }
{}
