//! A stream that is read to its end.

ghost use Rattle.std.specs.Prelude.{◌≡◌, ◌==◌, ◌&&◌, ◌≤◌, ◌+◌, ℕ, List, ◌++◌, length, is_some, IfErr, OnOk};
ghost use Rattle.std.specs.Io.KnownBytes.{Appends};
ghost use Rattle.program_status.specs.Endings.{StopsBy};
ghost use Rattle.target_frames.specs.State.{HasRoom, unfinished};
ghost use Rattle.program_status.specs.declared.stops.ProgramStop.{ProgramStop};
ghost use Rattle.target_service.specs.declared.findings.ServiceFinding.{ServiceFinding};
ghost use Rattle.target_service.specs.declared.findings.ServiceStop.TheVariants.{Noted};
ghost use Rattle.target_service.specs.Found.{finding_line, IsFoundServed};
ghost use Rattle.target_service.specs.Served.{IsServed};
ghost use Rattle.target_service.specs.Progress.{AreCounting, IsAt, IsHeldBack, StopsStream};
ghost use Rattle.target_service.specs.Stops.{IsWritten};
ghost use Rattle.target_service.specs.Endings.{Gains, StopsRun};

use crate::findings::{ServiceFinding, ServiceStop};
use crate::service::Service;
use outer_io::{Sink, Source};
use program_status::{ProgramStop, found};
use std::alloc::Global;
use target_frames::{FrameFault, Frames};

/// How many bytes are asked for at a time.
const CHUNK: usize = 8192;

/// More reads than any stream has before its end or a limit: each gives at least one byte, and a million frames
/// and what is read behind them are less than 2^45 bytes.
const MOST_READS: u64 = 1 << 50;

/// Takes the items before a refused field, and answers the refusal.
fn refuse<K: Sink>(
    alloc: Global,
    frames: &mut Frames,
    service: &mut Service,
    out: &mut K,
    byte: u64,
) -> ServiceStop
    requires held { (read : List ℕ) × ((replies : List ℕ) × IsHeldBack read replies frames.old service.old.opened byte) }
    requires counting { AreCounting service.old.opened }
    ensures never_falls { K.faults out.old ≤ K.faults out.new }
    ensures stop { (replies : List ℕ) × (IsWritten result (K.written out.old) (K.written out.new) (K.faults out.old) (K.faults out.new) replies
        × ((read sent : List ℕ) → IsHeldBack read sent frames.old service.old.opened byte → StopsStream read (sent ++ replies) result)) }
{
    let items = frames.take(alloc);
    match service.take_all(alloc, out, items) {
        Ok(()) => ServiceStop::Noted(found(alloc, ServiceFinding::Refused { byte })),
        Err(stop) => stop,
    }
}

/// Takes the next piece of the stream.
fn take_piece<K: Sink>(
    alloc: Global,
    frames: &mut Frames,
    service: &mut Service,
    out: &mut K,
    piece: &[u8],
) -> Result<(), ServiceStop>
    requires at { (read : List ℕ) × ((replies : List ℕ) × IsAt read replies frames.old service.old.opened) }
    requires room { HasRoom frames.old (length piece.now) }
    requires counting { AreCounting service.old.opened }
    ensures never_falls { K.faults out.old ≤ K.faults out.new }
    ensures counting { OnOk result (AreCounting service.new.opened) }
    ensures room { OnOk result ((n : ℕ) → HasRoom frames.old (length piece.now + n) → HasRoom frames.new n) }
    ensures served { OnOk result ((replies : List ℕ) × (Appends (K.written out.old) (K.written out.new) replies
        × ((read sent : List ℕ) → IsAt read sent frames.old service.old.opened → IsAt (read ++ piece.now) (sent ++ replies) frames.new service.new.opened))) }
    ensures stop { IfErr result (λ stop. (replies : List ℕ) × (IsWritten stop (K.written out.old) (K.written out.new) (K.faults out.old) (K.faults out.new) replies
        × ((read sent : List ℕ) → IsAt read sent frames.old service.old.opened → StopsStream (read ++ piece.now) (sent ++ replies) stop))) }
{
    match frames.feed(alloc, piece) {
        Ok(items) => service.take_all(alloc, out, items),
        Err(fault) => match fault {
            FrameFault::Field { byte } => Err(refuse(alloc, frames, service, out, byte)),
            FrameFault::Memory => Err(ServiceStop::Noted(ProgramStop::Memory)),
        },
    }
}

/// Whether an opening was there, and nothing of an item that isn't whole stands behind what was served.
fn is_whole(frames: &Frames, service: &Service) -> bool
    ensures { result ≡ (is_some service.now.opened && unfinished frames.now.end == 0) }
{
    service.opened.is_some() && frames.rest() == 0
}

/// What the end of a stream of so many bytes comes to.
fn at_end(alloc: Global, frames: &Frames, service: &Service, bytes: u64) -> Result<(), ServiceStop>
    ensures whole { OnOk result ((read sent : List ℕ) → IsAt read sent frames.now service.now.opened → IsServed read sent) }
    ensures stop { IfErr result (λ stop. (told : ProgramStop ServiceFinding) × ((stop ≡ Noted told) × ((read sent : List ℕ) → IsAt read sent frames.now service.now.opened → bytes ≡ length read →
        StopsBy finding_line (λ (f : ServiceFinding). IsFoundServed read f sent) told))) }
{
    if is_whole(frames, service) {
        return Ok(());
    }
    Err(ServiceStop::Noted(found(alloc, ServiceFinding::Ended { byte: bytes })))
}

/// Serves the stream that the source gives, to its end or to what stops it.
pub fn run<S: Source, K: Sink>(
    alloc: Global,
    source: &mut S,
    out: &mut K,
) -> Result<(), ServiceStop>
    ensures served { OnOk result (Gains (S.left source.old) IsServed (K.written out.old) (K.written out.new)) }
    ensures stop { IfErr result (λ stop. StopsRun (S.left source.old) (S.faults source.old) (S.faults source.new) (K.written out.old) (K.written out.new) (K.faults out.old) (K.faults out.new) stop) }
{
    let mut frames = Frames::new(alloc);
    let mut service = Service::new();
    let mut chunk = [0; CHUNK];
    let mut bytes = 0;
    for _ in 0..MOST_READS {
        let count = match source.read(&mut chunk) {
            Ok(count) => count,
            Err(_) => return Err(ServiceStop::Noted(ProgramStop::ReadFault)),
        };
        if count == 0 {
            return at_end(alloc, &frames, &service, bytes);
        }
        bytes += count as u64;
        if let Err(stop) = take_piece(alloc, &mut frames, &mut service, out, &chunk[..count]) {
            return Err(stop);
        }
    }
    Err(ServiceStop::Noted(ProgramStop::Memory))
}
