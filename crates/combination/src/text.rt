ghost use Rattle.std.specs.Prelude.{◌≡◌, ◌-◌, ◌^◌, ◌<◌, min, [], ◌∷◌, length, nat_lt, if◌then◌else◌, Some, None};
ghost use Rattle.combination.specs.Reading.{line as line_of, after_line, blank, words, digits, number_behind};

/// A space, a tab, a newline or a carriage return.
fn is_blank(b: u8) -> bool
    ensures { result ≡ blank b }
{
    matches!(b, b' ' | b'\t' | b'\n' | b'\r')
}

/// The first line, and the text behind its newline.
pub(super) fn split_line(text: &[u8]) -> (&[u8], &[u8])
    ensures front { result.0.now ≡ line_of text.now }
    ensures back { result.1.now ≡ after_line text.now }
{
    match text.iter().position(|b| *b == b'\n') {
        Some(end) => (&text[..end], &text[end + 1..]),
        None => (text, &[]),
    }
}

/// The first word, and the text behind it.
pub(super) fn next_word(text: &[u8]) -> Option<(&[u8], &[u8])>
    ensures { elim result [ None ↦ words text.now ≡ [] | Some p ↦ (words text.now ≡ p.0.now ∷ words p.1.now) × (length p.1.now < length text.now) ] }
{
    let start = text.iter().position(|b| !is_blank(*b))?;
    let (_, text) = text.split_at(start);
    let end = text.iter().position(|b| is_blank(*b)).unwrap_or(text.len());
    Some(text.split_at(end))
}

/// Whether any word stands in the text.
pub(super) fn has_words(text: &[u8]) -> bool
    ensures { result ≡ nat_lt 0 (length (words text.now)) }
{
    text.iter().any(|b| !is_blank(*b))
}

/// The number that a word writes, or 4,294,967,295 where that is larger; `None` where a byte is no digit.
pub(super) fn number(word: &[u8]) -> Option<u32>
    ensures { result ≡ (if digits word.now then Some (min (number_behind 0 word.now) (2 ^ 32 - 1)) else None) }
{
    let mut n: u32 = 0;
    for b in word {
        if !b.is_ascii_digit() {
            return None;
        }
        n = n.saturating_mul(10).saturating_add((*b - b'0') as u32);
    }
    Some(n)
}
