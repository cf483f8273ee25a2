//! Openings whose commands are open.

ghost use Rattle.std.specs.Prelude.{◌≡◌, ◌==◌, ◌++◌, ◌<◌, not, OnOk, [], ◌∷◌, filter, length, slice_get, vec_len, vec_capacity, if◌then◌else◌};
ghost use Rattle.std.specs.Option.{option_copied};
ghost use Rattle.array_book.specs.OpenCommands.{KeepsOpen};

use blocks_core::Memory;
use std::alloc::Global;

/// An opening: the number of the command, and where the entry stands.
#[derive(Clone, Copy, Debug, PartialEq, Eq)]
pub struct OpenCommand {
    pub command: u32,
    pub place: usize,
}

/// The openings whose commands are open, the oldest first.
#[derive(Debug, Drop)]
pub struct OpenCommands {
    openings: Vec<OpenCommand>,
}

impl OpenCommands {
    /// No openings. Takes no memory.
    pub fn new(alloc: Global) -> OpenCommands
        ensures { KeepsOpen [] result }
    {
        OpenCommands {
            openings: Vec::new(alloc),
        }
    }

    /// Makes room for one more opening, so that it can be added without taking memory.
    pub fn reserve(&mut self) -> Result<(), Memory>
        ensures same { self.new.openings.items ≡ self.old.openings.items }
        ensures room { OnOk result (vec_len self.new.openings < vec_capacity self.new.openings) }
    {
        self.openings.reserve(1)?;
        Ok(())
    }

    /// One more opening, unless its command ended already.
    pub fn add(&mut self, opening: OpenCommand, ended: bool)
        requires { vec_len self.old.openings < vec_capacity self.old.openings }
        ensures { self.new.openings.items ≡ self.old.openings.items ++ (if ended then [] else opening ∷ []) }
    {
        if !ended {
            // There is room for it, so this can't want memory.
            self.openings.push(opening).unwrap();
        }
    }

    /// Takes out each opening of a command.
    pub fn end(&mut self, command: u32)
        ensures { self.new.openings.items ≡ filter (λ s. not (s.command == command)) self.old.openings.items }
    {
        self.openings.retain(|opening| opening.command != command);
    }

    pub fn len(&self) -> usize
        ensures { result ≡ length self.now.openings.items }
    {
        self.openings.len()
    }

    pub fn get(&self, k: usize) -> Option<&OpenCommand>
        ensures { option_copied result ≡ slice_get self.now.openings.items k }
    {
        self.openings.get(k)
    }
}
