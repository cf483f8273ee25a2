//! The bytes that come with a call.

ghost use Rattle.std.specs.Prelude.{◌≡◌, ◌↔◌, ◌++◌, [], ℕ, IsTrue, IfOk, OnOk, length, replicate};
ghost use Rattle.blocks_core.specs.Lists.{slice};
ghost use Rattle.host_requests.specs.Forms.{payload_bytes};

use blocks_core::{Bytes, Memory};
use std::alloc::Global;

/// The bytes that come with a call: given ones, or so many of one. A call that fills many blocks with one
/// byte takes no memory for them.
#[derive(Clone, Copy, Debug)]
pub enum Payload<'a> {
    Given(&'a [u8]),
    Repeated { byte: u8, len: usize },
}

impl<'a> Payload<'a> {
    /// No bytes.
    pub fn none() -> Payload<'static>
        ensures { payload_bytes result ≡ [] }
    {
        Payload::Repeated { byte: 0, len: 0 }
    }

    /// How many they are.
    pub fn len(self) -> usize
        ensures { result ≡ length (payload_bytes self.entry) }
    {
        match self {
            Payload::Given(bytes) => bytes.len(),
            Payload::Repeated { len, .. } => len,
        }
    }

    /// So many of them from a place on, or fewer where they end.
    pub fn part(self, at: u64, len: u64) -> Payload<'a>
        ensures { payload_bytes result ≡ slice (payload_bytes self.entry) at len }
    {
        match self {
            Payload::Given(bytes) => Payload::Given(part_of(bytes, at, len)),
            Payload::Repeated { byte, len: all } => Payload::Repeated {
                byte,
                len: part_len(all, at, len),
            },
        }
    }

    /// Whether they are these bytes.
    pub fn is(self, bytes: &[u8]) -> bool
        ensures { IsTrue result ↔ (payload_bytes self.entry ≡ bytes.now) }
    {
        match self {
            Payload::Given(given) => are_same(given, bytes),
            Payload::Repeated { byte, len } => len == bytes.len() && is_repeated(bytes, byte),
        }
    }

    /// A copy of them.
    pub fn copy(self, alloc: Global) -> Result<Bytes, Memory>
        ensures { IfOk result (λ bytes. bytes ≡ payload_bytes self.entry) }
    {
        let mut bytes = Bytes::new(alloc);
        match self {
            Payload::Given(given) => bytes.push_slice(given)?,
            Payload::Repeated { byte, len } => push_repeated(&mut bytes, byte, len)?,
        }
        Ok(bytes)
    }
}

fn part_of(bytes: &[u8], at: u64, len: u64) -> &[u8]
    ensures { result.now ≡ slice bytes.now at len }
{
    let start = at.min(bytes.len() as u64) as usize;
    let rest = &bytes[start..];
    let count = len.min(rest.len() as u64) as usize;
    &rest[..count]
}

/// How many of so many bytes stand from a place on, if at most so many are asked for.
fn part_len(all: usize, at: u64, len: u64) -> usize
    ensures { (byte : ℕ) → replicate result byte ≡ slice (replicate all byte) at len }
{
    let rest = (all as u64).saturating_sub(at);
    len.min(rest) as usize
}

fn are_same(a: &[u8], b: &[u8]) -> bool
    ensures { IsTrue result ↔ (a.now ≡ b.now) }
{
    a == b
}

fn is_repeated(bytes: &[u8], byte: u8) -> bool
    ensures { IsTrue result ↔ (bytes.now ≡ replicate (length bytes.now) byte) }
{
    bytes.iter().all(|other| *other == byte)
}

fn push_repeated(bytes: &mut Bytes, byte: u8, len: usize) -> Result<(), Memory>
    ensures { OnOk result (bytes.new ≡ bytes.old ++ replicate len byte) }
{
    for _ in 0..len {
        bytes.push(byte)?;
    }
    Ok(())
}
