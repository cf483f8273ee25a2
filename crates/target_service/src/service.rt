//! The items of a stream, taken one after the other.

ghost use Rattle.std.specs.Prelude.{◌≡◌, ◌≤◌, ℕ, List, [], ◌∷◌, None, IfOk, IfErr, OnOk};
ghost use Rattle.std.specs.Io.KnownBytes.{Appends};
ghost use Rattle.host_scripts.specs.declared.bench.BenchLine.{BenchLine};
ghost use Rattle.program_status.specs.Endings.{StopsBy};
ghost use Rattle.target_frames.specs.Frames.{IsSound, AreSound, told, all_told};
ghost use Rattle.target_service.specs.Replies.{action_of};
ghost use Rattle.target_service.specs.Stops.{IsWriteFault};

use crate::findings::{ServiceFinding, ServiceStop};
use crate::open_service::OpenService;
use blocks_core::Bytes;
use host_scripts::{BenchAction, BenchLine};
use outer_io::{Sink, write_all};
use program_status::ProgramStop;
use std::alloc::Global;
use target_frames::{Item, Items};

/// What a frame asks. The reader lets no other kinds through than 1 to 5.
fn action_of(kind: u8, cdb: Bytes, bytes: Bytes) -> BenchAction
    ensures { result ≡ action_of kind cdb bytes }
{
    match kind {
        1 => BenchAction::Raw { cdb, bytes },
        2 => BenchAction::Lose,
        3 => BenchAction::Reset,
        4 => BenchAction::DropNext,
        _ => BenchAction::Fresh,
    }
}

/// Writes a reply.
fn send<K: Sink>(out: &mut K, reply: &[u8]) -> Result<(), ServiceStop>
    ensures never_falls { K.faults out.old ≤ K.faults out.new }
    ensures ok { OnOk result (Appends (K.written out.old) (K.written out.new) reply.now) }
    ensures stop { IfErr result (λ stop. IsWriteFault stop (K.written out.old) (K.written out.new) (K.faults out.old) (K.faults out.new) reply.now) }
{
    match write_all(out, reply) {
        Ok(()) => Ok(()),
        Err(_) => Err(ServiceStop::WriteFault),
    }
}

/// What is served of a stream.
#[derive(Drop)]
pub struct Service {
    /// The targets, as soon as an opening told of them.
    pub opened: Option<OpenService>,
}

impl Service {
    ghost use Rattle.target_service.specs.Found.{finding_line};
    ghost use Rattle.target_service.specs.Progress.{AreCounting, known_of, HasReplied, HasPassed, Asks, Goes, Halts};
    ghost use Rattle.target_service.specs.Stops.{IsWritten};

    /// Nothing is served yet.
    pub fn new() -> Service
        ensures { result.opened ≡ None }
    {
        Service { opened: None }
    }

    /// Answers the line of a frame.
    fn answer(
        &mut self,
        alloc: Global,
        line: &BenchLine,
    ) -> Result<Bytes, ProgramStop<ServiceFinding>>
        requires counting { AreCounting self.old.opened }
        requires target { Asks self.old.opened line.now }
        ensures counting { IfOk result (λ _. AreCounting self.new.opened) }
        ensures replied { IfOk result (λ reply. HasReplied self.old.opened line.now self.new.opened reply) }
        ensures stop { IfErr result (λ stop. StopsBy finding_line (HasPassed self.old.opened line.now) stop) }
    {
        match &mut self.opened {
            Some(service) => service.answer(alloc, line),
            // The reader hands out no frame before an opening.
            None => Err(ProgramStop::Memory),
        }
    }

    /// Takes the next item: makes the targets of an opening, answers a frame and writes the reply.
    fn take<K: Sink>(&mut self, alloc: Global, out: &mut K, item: Item) -> Result<(), ServiceStop>
        requires sound { IsSound (known_of self.old.opened) item }
        requires counting { AreCounting self.old.opened }
        ensures never_falls { K.faults out.old ≤ K.faults out.new }
        ensures counting { OnOk result (AreCounting self.new.opened) }
        ensures known { OnOk result (known_of self.new.opened ≡ told (known_of self.old.opened) item) }
        ensures served { OnOk result ((reply : List ℕ) × (Appends (K.written out.old) (K.written out.new) reply × Goes self.old.opened self.new.opened (item ∷ []) reply)) }
        ensures stop { IfErr result (λ stop. (replies : List ℕ) × (IsWritten stop (K.written out.old) (K.written out.new) (K.faults out.old) (K.faults out.new) replies × Halts self.old.opened (item ∷ []) replies stop)) }
    {
        match item {
            Item::Opening {
                targets,
                block,
                buffer,
                rows,
            } => {
                let made = OpenService::new(alloc, targets, block, buffer, rows);
                match made {
                    Ok(service) => {
                        self.opened = Some(service);
                        Ok(())
                    }
                    Err(stop) => Err(ServiceStop::Noted(stop)),
                }
            }
            Item::Frame {
                kind,
                target,
                cdb,
                bytes,
            } => {
                let action = action_of(kind, cdb, bytes);
                let line = BenchLine { target, action };
                match self.answer(alloc, &line) {
                    Ok(reply) => send(out, reply.as_slice()),
                    Err(stop) => Err(ServiceStop::Noted(stop)),
                }
            }
        }
    }

    /// Takes the next items. Each frame's reply is written before the next one is answered.
    pub fn take_all<K: Sink>(
        &mut self,
        alloc: Global,
        out: &mut K,
        items: Items,
    ) -> Result<(), ServiceStop>
        requires sound { AreSound (known_of self.old.opened) items }
        requires counting { AreCounting self.old.opened }
        ensures never_falls { K.faults out.old ≤ K.faults out.new }
        ensures counting { OnOk result (AreCounting self.new.opened) }
        ensures known { OnOk result (known_of self.new.opened ≡ all_told (known_of self.old.opened) items) }
        ensures served { OnOk result ((replies : List ℕ) × (Appends (K.written out.old) (K.written out.new) replies × Goes self.old.opened self.new.opened items replies)) }
        ensures stop { IfErr result (λ stop. (replies : List ℕ) × (IsWritten stop (K.written out.old) (K.written out.new) (K.faults out.old) (K.faults out.new) replies × Halts self.old.opened items replies stop)) }
    {
        for item in items.into_vec() {
            if let Err(stop) = self.take(alloc, out, item) {
                return Err(stop);
            }
        }
        Ok(())
    }
}
