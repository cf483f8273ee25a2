//! Whether steps go through the pieces of a call.

ghost use Rattle.std.specs.Prelude.{◌≡◌, ◌∷◌, ◌<◌, ◌≤◌, ◌+◌, ◌^◌, [], true, List, map, length};
ghost use Rattle.stripe_check.specs.Asked.{goes_through, is_next};
ghost use Rattle.stripe_check.specs.Steps as asked;
ghost use Rattle.trace_check.specs.EntrySteps.{step_of, ending_of};
ghost use Rattle.trace_check.specs.PieceOrder.{after_progress, idle_of, after_failure};

use crate::asking::entry_steps::{CommandEnd, Step};

/// How many pieces a call has, and whether it ends with the first that fails.
#[derive(Clone, Copy, Debug)]
pub struct CallPieces {
    pub fatal: bool,
    pub count: u64,
}

/// Where the steps are.
#[derive(Clone, Copy, Debug)]
enum PieceProgress {
    /// Before this piece, with so many commands open that are to be given up.
    Before { next: u64, idle: u64 },
    /// A command was opened for a piece, with none open before it.
    Begun { next: u64, piece: u32, command: u32 },
    /// A piece failed that ends the call.
    Over,
    /// No steps of such a call begin so.
    Wrong,
}

fn is_next(pieces: CallPieces, piece: u32, next: u64) -> bool
    ensures { result ≡ is_next piece next pieces.count }
{
    u64::from(piece) == next && next < pieces.count
}

/// After a piece that is refused or spoilt.
fn pass(pieces: CallPieces, next: u64) -> PieceProgress
    requires { next < pieces.count }
    ensures progress { (rest : List asked.Step) → after_progress pieces.fatal pieces.count result rest ≡ after_failure pieces.fatal pieces.count next rest }
    ensures idle { idle_of result ≡ 0 }
{
    if pieces.fatal {
        PieceProgress::Over
    } else {
        PieceProgress::Before {
            next: next + 1,
            idle: 0,
        }
    }
}

fn step_first(pieces: CallPieces, next: u64, step: Step) -> PieceProgress
    ensures progress { (rest : List asked.Step) → after_progress pieces.fatal pieces.count (PieceProgress.Before next 0) (step_of step ∷ rest) ≡ after_progress pieces.fatal pieces.count result rest }
    ensures idle { idle_of result ≤ 1 }
{
    match step {
        Step::Begins { piece, command } => PieceProgress::Begun {
            next,
            piece,
            command,
        },
        Step::Refused { piece, .. } => {
            if is_next(pieces, piece, next) {
                pass(pieces, next)
            } else {
                PieceProgress::Wrong
            }
        }
        _ => PieceProgress::Wrong,
    }
}

/// After the end of a command, with commands open that are to be given up.
fn end_idle(
    pieces: CallPieces,
    next: u64,
    idle: u64,
    command: u32,
    ending: CommandEnd,
) -> PieceProgress
    requires { 0 < idle }
    ensures progress { (rest : List asked.Step) → after_progress pieces.fatal pieces.count (PieceProgress.Before next idle) (asked.Ends command (ending_of ending) ∷ rest) ≡ after_progress pieces.fatal pieces.count result rest }
    ensures idle { idle_of result ≤ idle }
{
    match ending {
        CommandEnd::GivenUp => PieceProgress::Before {
            next,
            idle: idle - 1,
        },
        CommandEnd::Done | CommandEnd::Spoilt => PieceProgress::Wrong,
    }
}

fn step_idle(pieces: CallPieces, next: u64, idle: u64, step: Step) -> PieceProgress
    requires some { 0 < idle }
    requires few { idle < 2 ^ 63 }
    ensures progress { (rest : List asked.Step) → after_progress pieces.fatal pieces.count (PieceProgress.Before next idle) (step_of step ∷ rest) ≡ after_progress pieces.fatal pieces.count result rest }
    ensures idle { idle_of result ≤ idle + 1 }
{
    match step {
        Step::Begins { piece, .. } => {
            if is_next(pieces, piece, next) {
                PieceProgress::Before {
                    next,
                    idle: idle + 1,
                }
            } else {
                PieceProgress::Wrong
            }
        }
        Step::Ends { command, ending } => end_idle(pieces, next, idle, command, ending),
        _ => PieceProgress::Wrong,
    }
}

/// After the end of a command that was opened with none open before it, for the next piece.
fn end_begun(
    pieces: CallPieces,
    next: u64,
    piece: u32,
    command: u32,
    other: u32,
    ending: CommandEnd,
) -> PieceProgress
    requires { is_next piece next pieces.count ≡ true }
    ensures progress { (rest : List asked.Step) → after_progress pieces.fatal pieces.count (PieceProgress.Begun next piece command) (asked.Ends other (ending_of ending) ∷ rest) ≡ after_progress pieces.fatal pieces.count result rest }
    ensures idle { idle_of result ≡ 0 }
{
    match ending {
        CommandEnd::GivenUp => PieceProgress::Before { next, idle: 0 },
        CommandEnd::Spoilt => {
            if other == command {
                pass(pieces, next)
            } else {
                PieceProgress::Wrong
            }
        }
        CommandEnd::Done => {
            if other == command {
                PieceProgress::Before {
                    next: next + 1,
                    idle: 0,
                }
            } else {
                PieceProgress::Wrong
            }
        }
    }
}

/// After a command was opened with none open before it, for the next piece.
fn step_begun(pieces: CallPieces, next: u64, piece: u32, command: u32, step: Step) -> PieceProgress
    requires { is_next piece next pieces.count ≡ true }
    ensures progress { (rest : List asked.Step) → after_progress pieces.fatal pieces.count (PieceProgress.Begun next piece command) (step_of step ∷ rest) ≡ after_progress pieces.fatal pieces.count result rest }
    ensures idle { idle_of result ≤ 2 }
{
    match step {
        Step::Ends {
            command: other,
            ending,
        } => end_begun(pieces, next, piece, command, other, ending),
        Step::Begins { piece: again, .. } => {
            if is_next(pieces, again, next) {
                PieceProgress::Before { next, idle: 2 }
            } else {
                PieceProgress::Wrong
            }
        }
        _ => PieceProgress::Wrong,
    }
}

fn step_any(pieces: CallPieces, next: u64, piece: u32, command: u32, step: Step) -> PieceProgress
    ensures progress { (rest : List asked.Step) → after_progress pieces.fatal pieces.count (PieceProgress.Begun next piece command) (step_of step ∷ rest) ≡ after_progress pieces.fatal pieces.count result rest }
    ensures idle { idle_of result ≤ 2 }
{
    if is_next(pieces, piece, next) {
        step_begun(pieces, next, piece, command, step)
    } else {
        PieceProgress::Wrong
    }
}

fn progress_on(pieces: CallPieces, progress: PieceProgress, step: Step) -> PieceProgress
    requires { idle_of progress < 2 ^ 63 }
    ensures progress { (rest : List asked.Step) → after_progress pieces.fatal pieces.count progress (step_of step ∷ rest) ≡ after_progress pieces.fatal pieces.count result rest }
    ensures idle { idle_of result ≤ idle_of progress + 1 }
{
    match progress {
        PieceProgress::Before { next, idle } => {
            if idle == 0 {
                step_first(pieces, next, step)
            } else {
                step_idle(pieces, next, idle, step)
            }
        }
        PieceProgress::Begun {
            next,
            piece,
            command,
        } => step_any(pieces, next, piece, command, step),
        PieceProgress::Over => PieceProgress::Wrong,
        PieceProgress::Wrong => PieceProgress::Wrong,
    }
}

fn is_through(pieces: CallPieces, progress: PieceProgress) -> bool
    ensures { result ≡ after_progress pieces.fatal pieces.count progress [] }
{
    match progress {
        PieceProgress::Before { next, idle } => idle == 0 && next == pieces.count,
        PieceProgress::Begun { .. } => false,
        PieceProgress::Over => true,
        PieceProgress::Wrong => false,
    }
}

/// Whether steps go through the pieces of a call.
pub fn goes_through(pieces: CallPieces, steps: &[Step]) -> bool
    requires { length steps.now < 2 ^ 32 }
    ensures { result ≡ goes_through pieces.fatal pieces.count 0 0 (map step_of steps.now) }
{
    let mut progress = PieceProgress::Before { next: 0, idle: 0 };
    for step in steps {
        progress = progress_on(pieces, progress, *step);
    }
    is_through(pieces, progress)
}
