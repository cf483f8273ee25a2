ghost use Rattle.std.specs.Prelude.{◌≡◌, ◌+◌, ◌≤◌, length, take};
ghost use Rattle.blocks_core.specs.Lists.{slice, put};
ghost use Rattle.blocks_core.specs.Xor.{xor};

use std::simd::prelude::*;

/// How many bytes a lane has. Two registers of the plainest x86-64 hold one, and one of AVX2.
const LANE: usize = 32;

/// Puts the exclusive-or of both, by place, into the first.
pub fn xor_into(into: &mut [u8], from: &[u8])
    requires { length into.old ≡ length from.now }
    ensures { into.new ≡ xor into.old from.now }
{
    let rest = xor_lanes(into, from);
    xor_bytes(&mut into[rest..], &from[rest..]);
}

/// Folds the bytes in front by whole lanes, and says where the rest begins.
fn xor_lanes(into: &mut [u8], from: &[u8]) -> usize
    requires { length into.old ≡ length from.now }
    ensures within { result ≤ length into.old }
    ensures bytes { into.new ≡ xor into.old (take result from.now) }
{
    let mut at = 0;
    while into.len() - at >= LANE {
        xor_lane(into, from, at);
        at += LANE;
    }
    at
}

/// Folds the one lane at a place.
#[inline(always)]
fn xor_lane(into: &mut [u8], from: &[u8], at: usize)
    requires same_length { length into.old ≡ length from.now }
    requires within { at + LANE ≤ length into.old }
    ensures { into.new ≡ put into.old at (xor (slice into.old at LANE) (slice from.now at LANE)) }
{
    let folded = u8x32::from_slice(&into[at..]) ^ u8x32::from_slice(&from[at..]);
    folded.copy_to_slice(&mut into[at..]);
}

/// Folds byte by byte, for what is shorter than a lane.
fn xor_bytes(into: &mut [u8], from: &[u8])
    requires { length into.old ≡ length from.now }
    ensures { into.new ≡ xor into.old from.now }
{
    for (place, byte) in into.iter_mut().enumerate() {
        *byte ^= from[place];
    }
}
