//! Tests of `h1_text`: HTTP/1.1 texts, item by item.
#![tactic(auto)]

#[cfg(test)]
mod text;
