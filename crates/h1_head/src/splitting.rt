//! Bytes cut in two.
ghost use Rattle.std.specs.Prelude.{◌≡◌, ◌++◌, ◌∷◌, ℕ, List, IfSome, IfNone};
ghost use Rattle.h1_spec.specs.Grammar.{crlf};
ghost use Rattle.h1_head.specs.Cuts.{Lacks};

/// The bytes before the first that is this one, and those behind it.
pub fn cut_at(bytes: &[u8], byte: u8) -> Option<(&[u8], &[u8])>
    ensures first { IfSome result (λ cut. Lacks byte cut.0.now) }
    ensures whole { IfSome result (λ cut. bytes.now ≡ cut.0.now ++ (byte ∷ cut.1.now)) }
    ensures none { IfNone result (Lacks byte bytes.now) }
{
    let Some(at) = bytes.iter().position(|&b| b == byte) else {
        return None;
    };
    let (front, back) = bytes.split_at(at);
    Some((front, &back[1..]))
}

/// The first line of the bytes, without its line end, and what stands behind it. In a line is no CR.
pub fn cut_line(bytes: &[u8]) -> Option<(&[u8], &[u8])>
    ensures first { IfSome result (λ cut. Lacks 13 cut.0.now) }
    ensures whole { IfSome result (λ cut. bytes.now ≡ (cut.0.now ++ crlf) ++ cut.1.now) }
    ensures none { IfNone result ((line rest : List ℕ) → Lacks 13 line → bytes.now ≡ (line ++ crlf) ++ rest → ⊥) }
{
    let Some((line, rest)) = cut_at(bytes, b'\r') else {
        return None;
    };
    match behind(rest, b"\n") {
        Some(section) => Some((line, section)),
        None => None,
    }
}

/// What stands behind these bytes, where others begin with them.
pub fn behind<'a>(bytes: &'a [u8], front: &[u8]) -> Option<&'a [u8]>
    ensures found { IfSome result (λ rest. bytes.now ≡ front.now ++ rest.now) }
    ensures none { IfNone result ((rest : List ℕ) → bytes.now ≡ front.now ++ rest → ⊥) }
{
    if bytes.len() < front.len() {
        return None;
    }
    let (first, rest) = bytes.split_at(front.len());
    if first == front { Some(rest) } else { None }
}
