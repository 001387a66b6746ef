//! A law of the calls. The function is empty: its contract is the law.
ghost use Rattle.bh_text.specs.Showing.{SendsListing};

/// The calls for a message, in their order and with its content in any pieces, send its listing.
pub fn calls_send_listing()
    ensures { SendsListing }
{}
