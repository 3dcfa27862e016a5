// A word of a line that is one given byte. What is left of a line is the part from a word on, or nothing once its last word
// is read.
ghost use Rattle.std.specs.Prelude.{◌≡◌, ◌≢◌, [], ◌∷◌, MatchOption};
ghost use Rattle.cases.specs.Line.{first_word, other_words};
ghost use Rattle.cases.specs.Place.{words_left};

// What is left after the first word, if that is this byte alone.
pub(crate) fn alone(text: &[u8], b: u8) -> Option<Option<&[u8]>>
    requires { b ≢ 32 }
    ensures { MatchOption result (first_word text.now ≢ b ∷ []) (λ l. first_word text.now ∷ other_words text.now ≡ (b ∷ []) ∷ words_left l) }
{
    let (first, rest) = text.split_first()?;
    if *first != b {
        return None;
    }
    if rest.is_empty() {
        return Some(None);
    }
    Some(Some(rest.strip_prefix(b" ")?))
}
