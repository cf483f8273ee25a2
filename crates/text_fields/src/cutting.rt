//! Parts of a text: what stands before a mark or behind a keyword, and words.

ghost use Rattle.std.specs.Prelude.{◌≡◌, ◌<◌, ◌≤◌, ◌==◌, length, position, IfSome};
ghost use Rattle.std.specs.List.{position_or_len};
ghost use Rattle.std.specs.Str.{bytes_eq};
ghost use Rattle.text_fields.specs.Reading.{Reads, cut_at, stripped, is_mark, front_at, word_at};

/// What stands before the first such byte, and what stands after it.
#[tactic(auto, unfolding(crate::specs::Reading::cut_at))]
pub fn cut(bytes: &[u8], mark: u8) -> Option<(&[u8], &[u8])>
    ensures value { Reads (λ x. (x.0.now, x.1.now)) result (cut_at mark bytes.now) }
    ensures shorter { IfSome result (λ x. length x.1.now < length bytes.now) }
{
    let place = first_place(bytes, mark)?;
    let (front, rest) = bytes.split_at(place);
    let (_, rest) = rest.split_at(1);
    Some((front, rest))
}

/// Where the first such byte stands.
pub fn first_place(bytes: &[u8], mark: u8) -> Option<usize>
    ensures value { result ≡ position (λ b. b == mark) bytes.now }
    ensures place { IfSome result (λ k. k < length bytes.now) }
{
    bytes.iter().position(|&byte| byte == mark)
}

/// What stands behind a text at the front.
#[tactic(auto, unfolding(crate::specs::Reading::stripped))]
pub fn strip<'a>(bytes: &'a [u8], text: &[u8]) -> Option<&'a [u8]>
    ensures { Reads (λ x. x.now) result (stripped text.now bytes.now) }
{
    bytes.strip_prefix(text)
}

/// Whether a line or a word is this text and no other.
pub fn is_text(bytes: &[u8], text: &[u8]) -> bool
    ensures { result ≡ bytes_eq bytes.now text.now }
{
    bytes == text
}

/// Where the first byte stands that ends a word.
fn first_mark(bytes: &[u8]) -> Option<usize>
    ensures value { result ≡ position is_mark bytes.now }
    ensures place { IfSome result (λ k. k < length bytes.now) }
{
    bytes.iter().position(|&byte| byte < 33)
}

/// Where the word at the front ends.
#[tactic(auto, using(crate::proofs::Cuts::position_some, crate::proofs::Cuts::position_none))]
fn word_len(bytes: &[u8]) -> usize
    ensures value { result ≡ position_or_len is_mark bytes.now }
    ensures within { result ≤ length bytes.now }
{
    match first_mark(bytes) {
        Some(place) => place,
        None => bytes.len(),
    }
}

/// The word at the front, and what stands after it.
#[tactic(auto, unfolding(crate::specs::Reading::front_at))]
pub fn front_word(bytes: &[u8]) -> (&[u8], &[u8])
    ensures { (result.0.now, result.1.now) ≡ front_at bytes.now }
{
    bytes.split_at(word_len(bytes))
}

/// The word behind a space, and what stands after it.
#[tactic(auto, unfolding(crate::specs::Reading::word_at))]
pub fn next_word(bytes: &[u8]) -> Option<(&[u8], &[u8])>
    ensures { Reads (λ x. (x.0.now, x.1.now)) result (word_at bytes.now) }
{
    match bytes {
        [b' ', text @ ..] => Some(front_word(text)),
        _ => None,
    }
}
