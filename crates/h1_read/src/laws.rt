//! Laws of a reader of HTTP/1.1 messages. Each function is empty: its contract is the law.
ghost use Rattle.h1_read.specs.Laws.{KnowsHttp1, JudgesAsFrom, ReadyAtStart};

/// At the start nothing was refused.
pub fn ready_at_start()
    ensures { ReadyAtStart }
{}

/// What completes a message from there are the texts of HTTP/1.1, each with the items of its message.
pub fn knows_http1()
    ensures { KnowsHttp1 }
{}

/// What a reader says behind bytes that it took is the answer of the translator from HTTP/1.1, however the input is cut.
pub fn judges_as_from()
    ensures { JudgesAsFrom }
{}
