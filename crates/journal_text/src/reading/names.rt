//! Names of events.

ghost use Rattle.text_fields.specs.Reading.{Reads};
ghost use Rattle.journal_text.specs.Lines.{name_of};

use text_fields::is_text;

/// Which kind of event a line is of.
#[derive(Clone, Copy, Debug, PartialEq, Eq)]
pub enum EventName {
    Fetch,
    Put,
    Diff,
    Take,
    Fold,
    Hold,
    Shut,
    Gone,
    Wiped,
    Fresh,
    Open,
    Close,
    Spoil,
    Note,
    Swap,
    Refuse,
}

#[tactic(auto, unfolding(crate::specs::Lines::name_of))]
pub fn name_in(word: &[u8]) -> Option<EventName>
    ensures { Reads (λ x. x) result (name_of word.now) }
{
    if is_text(word, b"fetch") {
        Some(EventName::Fetch)
    } else if is_text(word, b"put") {
        Some(EventName::Put)
    } else if is_text(word, b"diff") {
        Some(EventName::Diff)
    } else if is_text(word, b"take") {
        Some(EventName::Take)
    } else if is_text(word, b"fold") {
        Some(EventName::Fold)
    } else if is_text(word, b"hold") {
        Some(EventName::Hold)
    } else if is_text(word, b"shut") {
        Some(EventName::Shut)
    } else if is_text(word, b"gone") {
        Some(EventName::Gone)
    } else if is_text(word, b"wiped") {
        Some(EventName::Wiped)
    } else if is_text(word, b"fresh") {
        Some(EventName::Fresh)
    } else if is_text(word, b"open") {
        Some(EventName::Open)
    } else if is_text(word, b"close") {
        Some(EventName::Close)
    } else if is_text(word, b"spoil") {
        Some(EventName::Spoil)
    } else if is_text(word, b"note") {
        Some(EventName::Note)
    } else if is_text(word, b"swap") {
        Some(EventName::Swap)
    } else if is_text(word, b"refuse") {
        Some(EventName::Refuse)
    } else {
        None
    }
}
