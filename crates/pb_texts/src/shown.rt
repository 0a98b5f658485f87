//! A text for a file, and whether it reports a refusal.

/// What is written for a file.
#[derive(Debug, PartialEq, Eq, Drop)]
pub struct Shown {
    /// The text.
    pub text: Vec<u8>,
    /// Whether it reports a refusal or an illegal trace.
    pub is_refused: bool,
}

impl Shown {
    ghost use Rattle.std.specs.Prelude.{◌≡◌};
    ghost use Rattle.pb_texts.specs.Shown.{refusal, shown_of};

    /// The text of a refusal.
    pub fn refusal(text: Vec<u8>) -> Shown
        ensures { shown_of result ≡ refusal text.items }
    {
        Shown {
            text,
            is_refused: true,
        }
    }
}
