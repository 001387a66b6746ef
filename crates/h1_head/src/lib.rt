//! HTTP/1.1 heads: found in pieces, parsed, and written (RFC 9112, sections 2 to 5).
#![tactic(auto)]

mod field_lines;
mod head;
mod laws;
mod reader;
mod splitting;
mod start_line;
mod writing;

pub use field_lines::fill_fields;
pub use h1_spec::Framing1;
pub use head::{Head1, HeadWhy, StartLine, parse_head, parse_head_into};
pub use laws::{one_step, read_back, reads_alike, written_is_a_head};
pub use reader::{HeadReader, HeadStep};
pub use start_line::StartParts;
pub use writing::{
    put_section, write_head_end, write_request_front, write_request_head, write_response_head,
};
