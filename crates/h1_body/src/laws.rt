//! Laws. The functions are empty: their contracts are what is proved.
ghost use Rattle.h1_body.specs.Laws.{OneAnswer, ReadBack};

/// Two right answers of `read_body` are the same, unless memory runs out.
pub fn one_answer()
    ensures { OneAnswer }
{}

/// Chunks that are written, and their end, are read back with the same content and trailers, unless memory runs out.
pub fn read_back()
    ensures { ReadBack }
{}
