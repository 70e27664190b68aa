//! Splitting off the first or last word of a text, and trimming blanks. A blank is a space or a tab. A word consists of
//! consecutive bytes that are not blanks, as many as possible.

ghost use Rattle.std.specs.Prelude.{◌≡◌, ◌≤◌, ◌∷◌, [], MatchOption, false, length, not, true};
ghost use Rattle.std.specs.List.{after_last, before_last, list_any, prefix_len, suffix_len, position_or_len};
ghost use Rattle.cal_bytes.specs.rules.Trim.{trim_matches, trim_end_matches, trim_start_matches};
ghost use Rattle.cal_bytes.specs.rules.Separators.{is_blank, words};

/// Returns the first word of `text` and everything after it, or `None` if `text` is empty or has only blanks.
pub fn first_word(text: &str) -> Option<(&str, &str)>
    ensures { MatchOption result (words text.now ≡ [])
        (λ found. words text.now ≡ found.0.now ∷ words found.1.now) }
{
    let text = trim_blanks_start(text);
    if text.is_empty() {
        return None;
    }
    Some(text.split_at(word_len(text.as_bytes())))
}

/// Returns `text` without leading and trailing blanks.
#[tactic(auto, unfolding(crate::specs::rules::Trim::trim_matches))]
pub fn trim_blanks(text: &str) -> &str
    ensures { result.now ≡ trim_matches is_blank text.now }
{
    trim_blanks_end(trim_blanks_start(text))
}

#[tactic(auto, unfolding(crate::specs::rules::Trim::trim_start_matches))]
fn trim_blanks_start(text: &str) -> &str
    ensures { result.now ≡ trim_start_matches is_blank text.now }
{
    &text[blanks_in_front(text.as_bytes())..]
}

/// Returns `text` without trailing blanks.
#[tactic(auto, unfolding(crate::specs::rules::Trim::trim_end_matches))]
pub fn trim_blanks_end(text: &str) -> &str
    ensures { result.now ≡ trim_end_matches is_blank text.now }
{
    &text[..text.len() - blanks_at_end(text.as_bytes())]
}

/// Splits `text` at its last blank and returns the parts before and after this blank, or `None` if there is no blank.
pub fn last_word(text: &str) -> Option<(&str, &str)>
    ensures { MatchOption result (list_any is_blank text.now ≡ false) (λ found.
        (list_any is_blank text.now ≡ true)
        × (found.0.now ≡ before_last is_blank text.now)
        × (found.1.now ≡ after_last is_blank text.now)) }
{
    let len = last_word_len(text.as_bytes());
    if len == text.len() {
        return None;
    }
    let start = text.len() - len;
    Some((&text[..start - 1], &text[start..]))
}

fn is_blank(byte: u8) -> bool
    ensures { result ≡ is_blank byte }
{
    byte == b' ' || byte == b'\t'
}

/// Returns the number of leading blanks.
pub fn blanks_in_front(text: &[u8]) -> usize
    ensures value { result ≡ prefix_len is_blank text.now }
    ensures within { result ≤ length text.now }
{
    text.iter().take_while(|byte| is_blank(**byte)).count()
}

fn blanks_at_end(text: &[u8]) -> usize
    ensures value { result ≡ suffix_len is_blank text.now }
    ensures within { result ≤ length text.now }
{
    text.iter()
        .rev()
        .take_while(|byte| is_blank(**byte))
        .count()
}

/// Returns the number of bytes before the first blank, or the length of `text` if there is no blank.
pub fn word_len(text: &[u8]) -> usize
    ensures value { result ≡ position_or_len is_blank text.now }
    ensures solid { result ≡ prefix_len (λ byte. not (is_blank byte)) text.now }
    ensures within { result ≤ length text.now }
{
    text.iter().take_while(|byte| !is_blank(**byte)).count()
}

/// Returns the number of bytes after the last blank, or the length of `text` if there is no blank.
fn last_word_len(text: &[u8]) -> usize
    ensures value { result ≡ suffix_len (λ byte. not (is_blank byte)) text.now }
    ensures within { result ≤ length text.now }
{
    text.iter()
        .rev()
        .take_while(|byte| !is_blank(**byte))
        .count()
}
