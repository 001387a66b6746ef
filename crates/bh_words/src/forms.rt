//! What a command takes behind its name.

/// What a command takes behind its name: options, each of which has a value; switches, which have none; and a word of its own.
#[derive(Clone, Copy)]
pub(crate) struct Form {
    pub(crate) options: &'static [&'static str],
    pub(crate) switches: &'static [&'static str],
    pub(crate) own: Option<&'static str>,
}

/// `canon`.
pub(crate) const LIMITED: Form = Form {
    options: &["part", "section", "interims", "input"],
    switches: &[],
    own: None,
};

/// `from-http1`.
pub(crate) const FROM: Form = Form {
    options: &["part", "section", "interims", "input", "scheme"],
    switches: &["to-head"],
    own: None,
};

/// `to-http1`.
pub(crate) const INTO: Form = Form {
    options: &["part", "section", "interims", "input"],
    switches: &["to-head"],
    own: None,
};

/// `trial`.
pub(crate) const TRIAL: Form = Form {
    options: &[],
    switches: &[],
    own: Some("N"),
};
