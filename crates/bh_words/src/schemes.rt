//! Schemes in words.
ghost use Rattle.std.specs.Prelude.{◌≡◌, option_map};
ghost use Rattle.h1_spec.specs.Targets.{scheme_of};
ghost use Rattle.bh_words.specs.Settings.{Finds};
ghost use Rattle.bh_words.specs.Words.{IsScheme};

use h1_spec::Scheme1;

/// The scheme that the text is, `http` or `https`.
fn scheme(text: &str) -> Option<Scheme1>
    ensures { Finds (λ scheme. text.now ≡ scheme_of scheme) result }
{
    if text == "http" {
        return Some(Scheme1::Http);
    }
    if text == "https" {
        return Some(Scheme1::Https);
    }
    None
}

/// The scheme that the text is, or `https` where there is no text.
pub(crate) fn given_scheme(text: Option<&str>) -> Option<Scheme1>
    ensures { Finds (IsScheme (option_map (λ s. s.now) text.entry)) result }
{
    match text {
        Some(text) => scheme(text),
        None => Some(Scheme1::Https),
    }
}
