//! Laws of the stream alone, each the contract of a function with an empty body.

ghost use Rattle.target_frames.specs.Laws.{NoItemBeginsAnother, StreamsHaveOneReading, SoundItemsAreRead, WholeItemsAreRead, PiecesJoin, RefusalsStay};

/// An item has one spelling, and none is the beginning of another's.
pub fn no_item_begins_another()
    ensures { NoItemBeginsAnother }
{}

/// A stream has one list of items and one end, so it doesn't matter in which pieces it came.
pub fn streams_have_one_reading()
    ensures { StreamsHaveOneReading }
{}

/// The spellings of items that may stand behind one another are read as these.
pub fn sound_items_are_read()
    ensures { SoundItemsAreRead }
{}

/// Items that may stand behind one another, at the front of a stream, are the first that are read of it, whatever
/// stands behind them.
pub fn whole_items_are_read()
    ensures { WholeItemsAreRead }
{}

/// What is read of two pieces, the second behind what the first left unfinished, is what is read of both.
pub fn pieces_join()
    ensures { PiecesJoin }
{}

/// Whatever comes behind a refused field, it is refused with the same items before it.
pub fn refusals_stay()
    ensures { RefusalsStay }
{}
