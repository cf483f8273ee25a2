//! The calls of one host, one after another.

ghost use Rattle.std.specs.Prelude.{◌≡◌, ◌<◌, ◌≤◌, ◌+◌, ◌^◌, [], ◌∷◌, ◌++◌, Some, None, drop, length, slice_get, option_copied, option_map, IfOk, OnOk, OnErr, IsOk, MatchOption, List};
ghost use Rattle.host_scripts.specs.declared.script.Call.{Call};
ghost use Rattle.array_control.specs.HostCalls.{HostCalls, calls_from, left_of, next_as, with_reply};

use crate::call_run::CallRun;
use blocks_core::Memory;
use host_scripts::{Action, Call, Calls};
use std::alloc::Global;
use std::marker::Model;
use unit_plans::Reply;

/// A call of a host that is to be served, with its number among all calls, from 1.
#[derive(Clone, Copy, Debug)]
pub(crate) struct NextCall<'a> {
    pub number: u32,
    pub action: &'a Action,
}

/// The calls of one host among all calls, and what its first ones were told.
#[derive(Debug, Drop)]
pub struct HostRun<'a> {
    calls: &'a Calls,
    host: u8,
    /// The place among all calls of the next one to look at. Those before it are another host's, or were told something.
    next: usize,
    replies: Vec<Reply>,
    /// That next one, where it was taken up.
    current: Option<CallRun<'a>>,
}

impl<'a> Model for HostRun<'a> {
    ghost use Rattle.std.specs.Prelude.{length};
    ghost use Rattle.array_control.specs.HostCalls.{HostCalls, IsPlace};

    ghost Value = { HostCalls };

    ghost view = { λ r. record { host = r.host; calls = r.calls.now; replies = r.replies.items; current = r.current } };

    ghost invariant = { λ r. IsPlace r.host r.next r.calls.now (length r.replies.items) };
}

impl<'a> HostRun<'a> {
    /// A host that was told nothing yet. Takes no memory.
    pub fn new(alloc: Global, calls: &'a Calls, host: u8) -> Result<HostRun<'a>, Memory>
        requires short { length calls.now < 2 ^ 32 }
        ensures run { IfOk result (λ run. run ≡ record { host = host; calls = calls.now; replies = []; current = None }) }
        ensures ok { IsOk result }
    {
        Ok(HostRun {
            calls,
            host,
            next: 0,
            replies: Vec::new(alloc),
            current: None,
        })
    }

    /// What its first calls were told, in their order.
    pub fn replies(&self) -> &[Reply]
        ensures { result.now ≡ self.now.replies }
    {
        self.replies.as_slice()
    }

    /// Further calls come behind those that there are; the host's own among them follow its others. Takes no memory.
    pub fn extend(&mut self, calls: &'a Calls) -> Result<(), Memory>
        requires short { length calls.now < 2 ^ 32 }
        requires begins { (later : List Call) × (calls.now ≡ self.old.calls ++ later) }
        ensures run { self.new ≡ record self.old { calls = calls.now } }
        ensures follow { left_of self.new ≡ left_of self.old ++ calls_from self.old.host (length self.old.calls + 1) (drop (length self.old.calls) calls.now) }
        ensures ok { IsOk result }
    {
        self.calls = calls;
        Ok(())
    }

    /// Goes to the next call of the host, if there is one. Each call of another host is passed once.
    pub(crate) fn come_to_call(&mut self) -> Option<NextCall<'a>>
        ensures same { self.new ≡ self.old }
        ensures next { option_map next_as result ≡ slice_get (left_of self.old) 0 }
    {
        let calls = self.calls.as_slice();
        match place_of_next(calls, self.host, self.next) {
            Some(place) => {
                self.next = place;
                Some(NextCall {
                    number: place as u32 + 1,
                    action: &calls[place].action,
                })
            }
            None => {
                self.next = calls.len();
                None
            }
        }
    }

    /// Its next call is told this. After want of memory it is as it was.
    pub(crate) fn tell(&mut self, reply: Reply) -> Result<(), Memory>
        requires { 0 < length (left_of self.old) }
        ensures told { OnOk result (self.new ≡ with_reply self.old reply) }
        ensures err { OnErr result (self.new ≡ self.old) }
    {
        let next = place_behind(self.calls.as_slice(), self.host, self.next);
        self.replies.push(reply)?;
        self.next = next;
        Ok(())
    }

    /// The call that was taken up, if one was. It is kept no longer.
    pub(crate) fn take_current(&mut self) -> Option<CallRun<'a>>
        ensures call { result ≡ self.old.current }
        ensures idle { self.new ≡ record self.old { current = None } }
    {
        self.current.take()
    }

    /// Keeps a call that was taken up.
    pub(crate) fn keep(&mut self, call: CallRun<'a>)
        ensures { self.new ≡ record self.old { current = Some call.entry } }
    {
        self.current = Some(call);
    }

    /// The call that was taken up, to be looked at.
    pub(crate) fn current(&self) -> Option<&CallRun<'a>>
        ensures { option_copied result ≡ self.now.current }
    {
        self.current.as_ref()
    }

    /// All calls, and the place among them from which on those of the host are left.
    pub(crate) fn rest(&self) -> (&'a [Call], usize)
        ensures within { result.1 ≤ length result.0.now }
        ensures short { length result.0.now < 2 ^ 32 }
        ensures left { calls_from self.now.host (result.1 + 1) (drop result.1 result.0.now) ≡ left_of self.now }
    {
        (self.calls.as_slice(), self.next)
    }

    /// The host.
    pub(crate) fn host(&self) -> u8
        ensures { result ≡ self.now.host }
    {
        self.host
    }
}

/// The place of a host's first call from a place on.
fn place_of_next(calls: &[Call], host: u8, from: usize) -> Option<usize>
    requires { from ≤ length calls.now }
    ensures { MatchOption result
        (calls_from host (from + 1) (drop from calls.now) ≡ [])
        (λ place. (call : Call) × (place < length calls.now) × (slice_get calls.now place ≡ Some call) × (call.host ≡ host)
        × (calls_from host (from + 1) (drop from calls.now) ≡ calls_from host (place + 1) (drop place calls.now))) }
{
    for place in from..calls.len() {
        if calls[place].host == host {
            return Some(place);
        }
    }
    None
}

/// The place behind that call.
fn place_behind(calls: &[Call], host: u8, from: usize) -> usize
    requires { from ≤ length calls.now }
    ensures in_calls { result ≤ length calls.now }
    ensures left { calls_from host (result + 1) (drop result calls.now) ≡ drop 1 (calls_from host (from + 1) (drop from calls.now)) }
{
    match place_of_next(calls, host, from) {
        Some(place) => place + 1,
        None => calls.len(),
    }
}
