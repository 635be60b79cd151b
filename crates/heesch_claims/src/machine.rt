//! The machine, a step at a time.
ghost use Rattle.std.specs.Prelude.{◌≡◌, ◌↔◌, ◌<◌, ◌+◌, ◌^◌, ℕ, IfOk, OnOk, OnErr, IsTrue, IsSome, Some, [], false};
ghost use Rattle.heesch_claims.specs.declared.event.Event.TheVariants.{Split, Draw, Join};
ghost use Rattle.heesch_claims.specs.Machine.{worker, merged, first_claims, worker_at, after, told, IsLawful, HasRoom};
ghost use Rattle.heesch_claims.specs.Machine.{ClaimsEachOnce, SharesTheWhole, EveryRunIsSound};

use crate::event::{Event, Told};
use heesch_io::NoMemory;
use std::alloc::Global;
use std::marker::Model;

/// The first worker starts with all shares.
const ALL_SHARES: u32 = 64;

/// A live worker.
#[derive(Drop)]
struct Claimant {
    tickets: Vec<u32>,
    shares: u32,
    ended: bool,
}

impl Claimant {
    fn newcomer(alloc: Global) -> Claimant
        ensures { result ≡ worker [] 1 false }
    {
        Claimant {
            tickets: Vec::new(alloc),
            shares: 1,
            ended: false,
        }
    }

    fn take_in(&mut self, giver: &mut Claimant) -> Result<(), NoMemory>
        requires { self.old.shares + giver.old.shares < 2 ^ 32 }
        ensures ok { OnOk result (self.new ≡ merged self.old giver.old) }
        ensures err { OnErr result ((self.new ≡ self.old) × (giver.new ≡ giver.old)) }
    {
        self.tickets.append(&mut giver.tickets)?;
        self.shares += giver.shares;
        self.ended = self.ended || giver.ended;
        Ok(())
    }
}

impl Model for Claimant {
    ghost use Rattle.heesch_claims.specs.Machine.{Worker, worker};

    ghost Value = { Worker };

    ghost view = { λ w. worker w.tickets.items w.shares w.ended };
}

/// The machine in which workers claim the numbers below a count. Each step is one event.
///
/// The type keeps that some list of lawful events led to its state, so that what `every_run_is_sound` says holds of
/// it.
#[derive(Drop)]
pub struct ClaimCore {
    count: u32,
    next: u64,
    workers: Vec<Option<Claimant>>,
}

impl Model for ClaimCore {
    ghost use Rattle.std.specs.Prelude.{◌<◌};
    ghost use Rattle.heesch_claims.specs.Machine.{Claims, claims, IsReached};

    ghost Value = { Claims };

    ghost view = { λ c. claims c.count c.next c.workers.items };

    ghost invariant = { λ c. IsReached (claims c.count c.next c.workers.items) };
}

/// The law of the machine, over every list of lawful events: no number is claimed twice, none below `next` is left
/// out, a worker is ended only where none is left, and the shares of the live workers sum to 64.
pub fn every_run_is_sound()
    ensures { EveryRunIsSound }
{}

impl ClaimCore {
    /// The machine before any event: `next` is 0, and worker 0 has 64 shares and no number.
    pub fn new(alloc: Global, count: u32) -> Result<ClaimCore, NoMemory>
        ensures { IfOk result (λ c. c ≡ first_claims count) }
    {
        let mut workers = Vec::new(alloc);
        workers.push(Some(Claimant {
            tickets: Vec::new(alloc),
            shares: ALL_SHARES,
            ended: false,
        }))?;
        Ok(ClaimCore {
            count,
            next: 0,
            workers,
        })
    }

    /// Whether the worker was made and not joined away. It takes no memory.
    pub fn live(&self, who: u32) -> bool
        ensures { IsTrue result ↔ IsSome (worker_at self.now.workers who) }
    {
        match self.workers.get(who as usize) {
            Some(place) => place.is_some(),
            None => false,
        }
    }

    /// Takes one event, and tells what it gave.
    ///
    /// The workers that the event names are live, and those of a join differ. A worker that splits isn't ended, has at
    /// least 2 shares, and finds fewer than 64 workers made. After `NoMemory` nothing has changed.
    ///
    /// A join costs the numbers that `from` has; any other event costs no more than a push.
    pub fn step(&mut self, event: Event) -> Result<Told, NoMemory>
        requires lawful { IsLawful self.old event }
        requires room { HasRoom self.old event }
        ensures ok { IfOk result (λ t. (self.new ≡ after self.old event) × (t ≡ told self.old event)) }
        ensures err { OnErr result (self.new ≡ self.old) }
        ensures sound { ClaimsEachOnce self.new × SharesTheWhole self.new }
    {
        let _next = self.next;
        match event {
            Event::Split { from } => self.split(from),
            Event::Draw { who } => self.draw(who),
            Event::Join { into, from } => self.join(into, from),
        }
    }

    fn draw(&mut self, who: u32) -> Result<Told, NoMemory>
        requires { IsLawful self.old (Draw who) }
        ensures ok { IfOk result (λ t. (self.new ≡ after self.old (Draw who)) × (t ≡ told self.old (Draw who))) }
        ensures err { OnErr result (self.new ≡ self.old) }
    {
        let Some(worker) = &mut self.workers[who as usize] else {
            unreachable!()
        };
        if worker.ended {
            return Ok(Told::End);
        }
        if self.next < u64::from(self.count) {
            let number = self.next as u32;
            worker.tickets.push(number)?;
            self.next += 1;
            Ok(Told::Ticket { number })
        } else {
            worker.ended = true;
            self.next += 1;
            Ok(Told::End)
        }
    }

    fn split(&mut self, from: u32) -> Result<Told, NoMemory>
        requires lawful { IsLawful self.old (Split from) }
        requires room { HasRoom self.old (Split from) }
        ensures ok { IfOk result (λ t. (self.new ≡ after self.old (Split from)) × (t ≡ told self.old (Split from))) }
        ensures err { OnErr result (self.new ≡ self.old) }
    {
        let alloc = *self.workers.allocator();
        let made = self.workers.len();
        self.workers.push(Some(Claimant::newcomer(alloc)))?;
        let Some(worker) = &mut self.workers[from as usize] else {
            unreachable!()
        };
        worker.shares -= 1;
        Ok(Told::Made { who: made as u32 })
    }

    fn join(&mut self, into: u32, from: u32) -> Result<Told, NoMemory>
        requires { IsLawful self.old (Join into from) }
        ensures ok { IfOk result
            (λ t. (self.new ≡ after self.old (Join into from)) × (t ≡ told self.old (Join into from))) }
        ensures err { OnErr result (self.new ≡ self.old) }
    {
        let Some(mut giver) = self.workers[from as usize].take() else {
            unreachable!()
        };
        let Some(taker) = &mut self.workers[into as usize] else {
            unreachable!()
        };
        if let Err(refused) = taker.take_in(&mut giver) {
            self.workers[from as usize] = Some(giver);
            return Err(refused);
        }
        Ok(Told::Joined)
    }
}
