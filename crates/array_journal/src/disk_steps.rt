//! What an event at a target makes of its disk.

ghost use Rattle.std.specs.Prelude.{◌≡◌, ◌<◌};
ghost use Rattle.array_journal.specs.Lives.{loss_after, life_after};
ghost use Rattle.array_journal.specs.Media.{drops_after};

use crate::at::At;
use crate::event::{Event, What};

impl Event {
    /// The newest loss that no fresh disk came after, once the event stands under this name.
    pub fn loss_after(&self, at: At, old: Option<At>) -> Option<At>
        ensures { result ≡ loss_after at self.now old }
    {
        match self {
            Event::Gone { .. } => Some(at),
            Event::Fresh { .. } => None,
            _ => old,
        }
    }

    /// How many fresh disks came after the event, of so many before it. Each is an entry that lies in memory,
    /// so the count stays below 2^63 and doesn't saturate: a checked sum would need an answer for what can't
    /// come.
    pub fn life_after(&self, life: usize) -> usize
        ensures { life < 9223372036854775808 → result ≡ life_after self.now life }
    {
        match self {
            Event::Fresh { .. } => life.saturating_add(1),
            _ => life,
        }
    }

    /// How many requests are to be dropped after the event, of so many before it. The sum doesn't saturate, as
    /// that of `life_after`.
    pub fn drops_after(&self, count: usize) -> usize
        ensures { count < 9223372036854775808 → result ≡ drops_after self.now count }
    {
        match self {
            Event::Wiped {
                what: What::Request,
                ..
            } => count.saturating_add(1),
            Event::Diff { sent: true, .. }
            | Event::Hold {
                kept: false,
                back: false,
                ..
            } => count.saturating_sub(1),
            _ => count,
        }
    }
}
