//! The events of commands that make a delta (SBC, XDWRITE, XDWRITE EXTENDED; SBC-2, XDWRITEREAD).

ghost use Rattle.std.specs.Prelude.{◌≡◌};
ghost use Rattle.array_journal.specs.declared.event.Event.TheVariants as events;
ghost use Rattle.xor_target.specs.Ways.{is_held, is_sent, is_dropped, is_back};

use crate::act::BlockAct;
use crate::order::Order;
use array_journal::{Event, Names};
use blocks_core::Bytes;

/// What becomes of a delta: it is held for an XDREAD, handed back to the initiator, or sent to another target,
/// unless that request is dropped.
#[derive(Clone, Copy, Debug, PartialEq, Eq)]
pub enum DeltaWay {
    Held,
    Back,
    Sent { dropped: bool },
}

/// New data were written.
pub fn diff_event(order: &Order, act: &BlockAct, bytes: Vec<u8>, way: DeltaWay) -> Event
    ensures { result ≡ events.Diff order.now.owner order.now.opened act.now.cdb act.now.row bytes.items (is_sent way) (is_dropped way) (is_back way) }
{
    Event::Diff {
        command: order.owner,
        opened: order.opened,
        cdb: act.cdb,
        row: act.row,
        bytes: Bytes::from_vec(bytes),
        sent: matches!(way, DeltaWay::Sent { .. }),
        dropped: matches!(way, DeltaWay::Sent { dropped: true }),
        back: matches!(way, DeltaWay::Back),
    }
}

/// Nothing was written; the bytes are the delta.
pub fn hold_event(
    order: &Order,
    act: &BlockAct,
    bytes: Vec<u8>,
    names: Names,
    way: DeltaWay,
) -> Event
    ensures { result ≡ events.Hold order.now.owner order.now.opened act.now.cdb act.now.row bytes.items (is_held way) names (is_back way) }
{
    Event::Hold {
        command: order.owner,
        opened: order.opened,
        cdb: act.cdb,
        row: act.row,
        bytes: Bytes::from_vec(bytes),
        kept: matches!(way, DeltaWay::Held),
        names,
        back: matches!(way, DeltaWay::Back),
    }
}
