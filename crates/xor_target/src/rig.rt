//! A row of targets, in which requests to other targets are carried at once.

ghost use Rattle.std.specs.Prelude.{◌≡◌, ◌<◌, false, length, Some};
ghost use Rattle.std.specs.Borrow.{sem};
ghost use Rattle.xor_target.specs.Rigs.{IsRow, Turns, IsRigAnswer, IsCarried, IsAsked, IsHanded, IsRequest, IsPending, IsIdle, IsLeft, IsLeftBy, IsFittingIn, asks_further, handed_back, greatest_stamp, stamp_with};
ghost use Rattle.xor_target.specs.Answers.{IsAnswered};
ghost use Rattle.xor_target.specs.declared.answer.Answer.{Answer};
ghost use Rattle.xor_target.specs.declared.answer.Answer.TheVariants as answers;
ghost use Rattle.xor_target.specs.declared.answer.PeerBack.{PeerBack};
ghost use Rattle.xor_target.specs.declared.answer.PeerBack.TheVariants as back;

use crate::answer::{Answer, PeerBack};
use crate::order::{Order, PeerRequest};
use crate::target::Target;
use array_journal::Names;
use sector_media::Medium;
use std::alloc::Global;
use std::marker::Model;

/// Targets of one array, target k at place k.
#[derive(Drop)]
pub struct Rig<M: Medium + Drop> {
    targets: Vec<Target<M>>,
}

impl<M: Medium + Drop> Model for Rig<M> {
    ghost use Rattle.std.specs.Prelude.{List};
    ghost use Rattle.xor_target.specs.State.{TargetState};

    ghost Value = { List TargetState };

    ghost view = { λ r. r.targets.items };
}

impl<M: Medium + Drop> Rig<M> {
    ghost use Rattle.xor_target.specs.Lends.{lends_targets};

    /// The targets, each at the place of its number, made for as many as there are, and with blocks of one size.
    pub fn new(targets: Vec<Target<M>>) -> Rig<M>
        requires { IsRow targets.items }
        ensures { result ≡ targets.items }
    {
        Rig { targets }
    }

    /// What target `number` answers to an order in the end: each request that it makes on the way is carried to the
    /// target that it asks, and back what that answers. No target waits for the order's owner before or after.
    pub fn run(&mut self, alloc: Global, number: u8, order: &Order) -> Answer
        requires number { number < length self.old }
        requires idle { IsIdle order.now.owner self.old }
        ensures answered { IsRigAnswer M.NEVER_FAILS self.old number order.now result self.new }
        ensures last { asks_further result ≡ false }
        ensures idle { IsIdle order.now.owner self.new }
    {
        let mut said = self.execute(alloc, number, order);
        'requests: loop {
            match said {
                Answer::Peer { request, .. } => said = self.carry(alloc, &request),
                answer => return answer,
            }
        }
    }

    /// Target `number` answers an order.
    fn execute(&mut self, alloc: Global, number: u8, order: &Order) -> Answer
        requires number { number < length self.old }
        requires idle { IsIdle order.now.owner self.old }
        ensures told { Turns number (λ t now. IsAnswered M.NEVER_FAILS t order.now result now) self.old self.new }
        ensures left { IsLeft order.now.owner result self.new }
    {
        self.targets[number as usize].execute(alloc, order)
    }

    /// Carries a request to the target that it asks, and back what that answers.
    fn carry(&mut self, alloc: Global, request: &PeerRequest) -> Answer
        requires { IsRequest request.now self.old }
        ensures carried { IsCarried M.NEVER_FAILS request.now result self.old self.new }
        ensures left { IsLeft request.now.order.owner result self.new }
    {
        let said = self.ask(alloc, request);
        let Some(back) = handed_back(said) else {
            return self.give_up(alloc, request);
        };
        match self.hand(alloc, request, &back) {
            Answer::Memory => self.give_up(alloc, request),
            answer => answer,
        }
    }

    /// The target that a request asks answers it.
    fn ask(&mut self, alloc: Global, request: &PeerRequest) -> Answer
        requires { IsRequest request.now self.old }
        ensures asked { IsAsked M.NEVER_FAILS request.now result self.old self.new }
        ensures last { asks_further result ≡ false }
        ensures pending { IsPending request.now self.new }
        ensures fits { (peer : PeerBack) → handed_back result ≡ Some peer → IsFittingIn request.now peer self.new }
    {
        self.targets[request.to as usize].execute(alloc, &request.order)
    }

    /// The target that asked is told that its request failed, which takes no memory, so that it waits no longer.
    fn give_up(&mut self, alloc: Global, request: &PeerRequest) -> Answer
        requires { IsPending request.now self.old }
        ensures handed { (ended : Answer) × IsHanded M.NEVER_FAILS request.now back.Failed ended self.old self.new }
        ensures says { result ≡ answers.Memory }
        ensures idle { IsIdle request.now.order.owner self.new }
    {
        self.hand(alloc, request, &PeerBack::Failed);
        Answer::Memory
    }

    /// The target that asked goes on with what is handed back.
    fn hand(&mut self, alloc: Global, request: &PeerRequest, back: &PeerBack) -> Answer
        requires pending { IsPending request.now self.old }
        requires fits { IsFittingIn request.now back.now self.old }
        ensures handed { IsHanded M.NEVER_FAILS request.now back.now result self.old self.new }
        ensures left { IsLeftBy request.now back.now result self.new }
    {
        let seen = stamp_with(request, back);
        self.targets[request.from as usize].resume(alloc, request.order.owner, back, seen)
    }

    /// The targets, to be changed in place. Whoever moves them puts them back as `new` asks for them before the next
    /// order.
    pub fn targets(&mut self) -> &mut [Target<M>]
        ensures* writes_back { sem 𝓛 (lends_targets M.row M.Medium self.entry result) }
        ensures value { result.now ≡ self.old }
    {
        self.targets.as_mut_slice()
    }

    /// The targets, to be read.
    pub fn as_slice(&self) -> &[Target<M>]
        ensures { result.now ≡ self.now }
    {
        self.targets.as_slice()
    }

    /// The targets.
    pub fn into_targets(self) -> Vec<Target<M>>
        ensures { result.items ≡ self }
    {
        self.targets
    }
}

/// What is handed back for what another target answered; nothing for want of memory, since it says nothing of the
/// request. The command of a request asks no further target.
fn handed_back(said: Answer) -> Option<PeerBack>
    ensures { result ≡ handed_back said }
{
    match said {
        Answer::Good { bytes, made } => Some(PeerBack::Good { bytes, made }),
        Answer::Check { .. } | Answer::Gone { .. } | Answer::Shut { .. } => Some(PeerBack::Failed),
        Answer::Peer { .. } | Answer::Memory => None,
    }
}

/// The greatest stamp that a target has seen that made a request, with what is handed back to it.
fn stamp_with(request: &PeerRequest, back: &PeerBack) -> u64
    ensures { result ≡ stamp_with request.now back.now }
{
    match back {
        PeerBack::Good { made, .. } => greatest_stamp(request.order.stamp, made),
        PeerBack::Failed => request.order.stamp,
    }
}

fn greatest_stamp(seen: u64, names: &Names) -> u64
    ensures { result ≡ greatest_stamp seen names.now }
{
    let mut greatest = seen;
    for name in names.as_slice() {
        greatest = greatest.max(name.stamp);
    }
    greatest
}
