//! The instance and its steps.

ghost use Rattle.std.specs.Prelude.{◌≡◌, ◌<◌, ◌≤◌, ◌^◌, ◌+◌, ◌++◌, ◌∷◌, [], ℕ, None, Some, IfErr, IfOk, IfSome, IsTrue, OnOk, OnErr, IsSome, flat_map, is_some, map, pos};
ghost use Rattle.sb_log.specs.declared.entries.Entry.TheVariants.{Defined, QueueSet};
ghost use Rattle.sb_log.specs.declared.entries.Op.TheVariants.{Send};
ghost use Rattle.sb_log.specs.declared.identifiers.Who.TheVariants.{A};
ghost use Rattle.sb_log.specs.declared.requests.Filter.TheVariants as filters;
ghost use Rattle.sb_log.specs.declared.requests.Reply.TheVariants as reply;
ghost use Rattle.sb_log.specs.declared.requests.Request.TheVariants as request;
ghost use Rattle.sb_model.specs.Catalog.{find_queue};
ghost use Rattle.sb_model.specs.Definitions.{define_refusal};
ghost use Rattle.sb_model.specs.Instance.{opened};
ghost use Rattle.sb_model.specs.Statements.{txn_entries};
ghost use Rattle.sb_instance.specs.Asked.{Answers, is_built};
ghost use Rattle.sb_log.specs.declared.steps.Verdict.TheVariants.{Next};
ghost use Rattle.sb_model.specs.Sides.{sides};
ghost use Rattle.sb_model.specs.Steps.{to_hand_over};
ghost use Rattle.sb_instance.specs.Candidates.{takes};
ghost use Rattle.sb_instance.specs.Handing.{HandsOver, pending_by, taken_in};
ghost use Rattle.sb_instance.specs.Learning.{IsBad};
ghost use Rattle.sb_instance.specs.Carrying.{IsCarried};
ghost use Rattle.sb_instance.specs.Running.{Commits, Refuses, Writes};
ghost use Rattle.sb_instance.specs.Sending.{IsQuiet};
ghost use Rattle.sb_instance.specs.Waiting.{IsWaiting, TakesNone};

use crate::carrying::{Carrying, behind, is_type_refused};
use crate::counters::{next_handle, next_tx};
use crate::defining::{copied, is_on, no_queue, push_definition, push_setting};
use crate::handing::{Pending, accepted_entry, all_pending, carried, is_carried};
use crate::learning::learned;
use crate::receiving::{check_receive, picked, takings};
use crate::sending::{Sending, check_send, kind_of, note};
use crate::stopped::Stopped;
use crate::unready::Unready;
use crate::waiting::{Waiting, waiting_in};
use sb_catalog::Catalog;
use sb_log::{
    Body, Data, Ddl, Entry, Filter, Handle, Listed, Name, Op, ReceivedItem, Refusal, Reply,
    Request, SideId, Verdict, Who,
};
use sb_scan::{partner, verdict};
use std::alloc::{AllocError, Global};
use std::marker::Model;

/// An instance that is up, has no journal and no open transaction.
#[derive(Drop)]
pub struct Instance {
    alloc: Global,
    who: Who,
    log: Vec<Entry>,
    next_handle: u64,
    next_tx: u64,
    // What the log defines and sets.
    catalog: Catalog,
    // What is known of the side whose message was handed over last, if the log ends with it.
    carrying: Option<Carrying>,
    // Sides that are known to be ones that may send.
    sending: Vec<Sending>,
    // What waits in the queue whose first item was asked for last.
    waiting: Option<Waiting>,
}

impl Model for Instance {
    ghost use Rattle.std.specs.Prelude.{◌<◌, ◌^◌};
    ghost use Rattle.sb_model.specs.Instance.{Part};
    ghost use Rattle.sb_log.specs.declared.steps.Verdict.TheVariants.{Next};
    ghost use Rattle.sb_model.specs.Sides.{sides};
    ghost use Rattle.sb_model.specs.Steps.{to_hand_over};
    ghost use Rattle.sb_instance.specs.Handing.{HandsOver, pending_by, taken_in};
    ghost use Rattle.sb_instance.specs.Noted.{IsOfLog};
    ghost use Rattle.sb_instance.specs.Running.{running};

    ghost Value = { Part };

    ghost view = { λ a. running a.who a.log.items a.next_handle a.next_tx };

    ghost invariant = { λ a. IsOfLog a.who a.log.items a.next_handle a.carrying a.sending.items a.waiting a.catalog };
}

fn push_transaction(log: &mut Vec<Entry>, tx: u64, ops: Vec<Op>) -> Result<(), AllocError>
    ensures written { OnOk result (log.new.items ≡ log.old.items ++ txn_entries tx ops.items) }
    ensures kept { OnErr result (log.new.items ≡ log.old.items) }
{
    if !ops.is_empty() {
        log.push(Entry::Txn {
            tx,
            ops: Listed::from_vec(ops),
        })?;
    }
    Ok(())
}

fn send_ops(
    alloc: Global,
    side: SideId,
    kind: Name,
    body: &Option<Body>,
) -> Result<Vec<Op>, AllocError>
    ensures { IfOk result (λ ops. ops.items ≡ Send side kind body.now ∷ []) }
{
    let body = body.clone()?;
    let mut ops = Vec::with_capacity(alloc, 1)?;
    ops.push(Op::Send { side, kind, body })?;
    Ok(ops)
}

impl Instance {
    /// The instance A, up, over these entries, with no journal.
    pub fn ready(alloc: Global, log: Vec<Entry>) -> Result<Instance, Unready>
        ensures ready { IfOk result (λ it. it ≡ opened A log.items None) }
        ensures bad { IfErr result (IsBad log.items) }
    {
        let catalog = learned(alloc, log.as_slice())?;
        let next_handle = next_handle(Who::A, log.as_slice());
        let next_tx = next_tx(log.as_slice());
        Ok(Instance {
            alloc,
            who: Who::A,
            log,
            next_handle,
            next_tx,
            catalog,
            carrying: None,
            sending: Vec::new(alloc),
            waiting: None,
        })
    }

    /// The entries so far.
    pub fn log(&self) -> &[Entry]
        ensures { result.now ≡ self.now.log }
    {
        self.log.as_slice()
    }

    /// Does a definition, ALTER QUEUE, SEND or RECEIVE of a session that has no transaction
    /// open.
    pub fn statement(&mut self, session: u8, now: u64, request: &Request) -> Result<Reply, Refusal>
        requires built { IsTrue (is_built request.now) }
        requires early { now < 2 ^ 62 }
        requires session { (1 ≤ session) × (session ≤ 9) }
        ensures answered { Answers self.old session now request.now result self.new }
    {
        match request {
            Request::Define(ddl) => self.define(ddl),
            Request::AlterQueue { queue, on } => self.alter_queue(queue, *on),
            Request::Send { handle, kind, body } => self.send(*handle, kind, body),
            Request::Receive { queue, top, filter } => self.receive(queue, *top, *filter),
            _ => unreachable!(),
        }
    }

    fn define(&mut self, ddl: &Ddl) -> Result<Reply, Refusal>
        ensures { (session now : ℕ) → Answers self.old session now (request.Define ddl.now) result self.new }
    {
        match self.catalog.define(ddl) {
            Err(why) => Err(why),
            Ok(()) => self.write_definition(ddl),
        }
    }

    /// The catalog makes room first, so that it takes up what the log got.
    fn write_definition(&mut self, ddl: &Ddl) -> Result<Reply, Refusal>
        requires { define_refusal self.old.log ddl.now ≡ None }
        ensures { Writes self.old (Defined ddl.now) result self.new }
    {
        let Ok(()) = self.catalog.reserve(ddl) else {
            return Err(Refusal::OutOfMemory);
        };
        let Ok(copy) = copied(ddl) else {
            return Err(Refusal::OutOfMemory);
        };
        match push_definition(&mut self.log, ddl) {
            Err(_) => Err(Refusal::OutOfMemory),
            Ok(()) => {
                self.catalog.apply(copy);
                self.carrying = None;
                self.sending.clear();
                self.waiting = None;
                Ok(Reply::Done)
            }
        }
    }

    fn alter_queue(&mut self, queue: &Name, on: bool) -> Result<Reply, Refusal>
        ensures { (session now : ℕ) → Answers self.old session now (request.AlterQueue queue.now on) result self.new }
    {
        match is_on(&self.catalog, queue) {
            None => Err(no_queue(queue)),
            Some(is_on) => {
                if is_on == on {
                    Ok(Reply::Done)
                } else {
                    self.write_setting(queue, on)
                }
            }
        }
    }

    fn write_setting(&mut self, queue: &Name, on: bool) -> Result<Reply, Refusal>
        requires { IsSome (find_queue self.old.log queue.now) }
        ensures { Writes self.old (QueueSet queue.now on) result self.new }
    {
        match push_setting(&mut self.log, queue, on) {
            Err(_) => Err(Refusal::OutOfMemory),
            Ok(()) => {
                self.catalog.set_queue(queue, on);
                self.carrying = None;
                self.sending.clear();
                self.waiting = None;
                Ok(Reply::Done)
            }
        }
    }

    fn refuse(&mut self, stopped: Stopped) -> Refusal
        ensures { Refuses self.old stopped result self.new }
    {
        match stopped {
            Stopped::OutOfMemory => Refusal::OutOfMemory,
            Stopped::Refused(refusal) => {
                self.next_tx = self.next_tx.wrapping_add(1);
                refusal
            }
        }
    }

    fn send(
        &mut self,
        handle: Handle,
        kind: &Option<Name>,
        body: &Option<Body>,
    ) -> Result<Reply, Refusal>
        ensures { (session now : ℕ) → Answers self.old session now (request.Send handle kind.now body.now) result self.new }
    {
        let Ok(kind) = kind_of(self.alloc, kind) else {
            return Err(Refusal::OutOfMemory);
        };
        match check_send(
            self.alloc,
            self.log.as_slice(),
            self.sending.as_slice(),
            handle,
            &kind,
            body,
        ) {
            Err(stopped) => Err(self.refuse(stopped)),
            Ok(side) => match send_ops(self.alloc, side, kind, body) {
                Err(_) => Err(Refusal::OutOfMemory),
                Ok(ops) => {
                    note(&mut self.sending, handle, side);
                    self.commit_sent(ops)
                }
            },
        }
    }

    /// A transaction that takes no item leaves what waits as it is.
    fn commit_sent(&mut self, ops: Vec<Op>) -> Result<Reply, Refusal>
        requires quiet { IsQuiet ops.items }
        requires none { TakesNone ops.items }
        ensures { Commits self.old ops.items reply.Done result self.new }
    {
        let waiting = self.waiting.take();
        let result = self.commit(ops, Reply::Done);
        self.waiting = waiting;
        result
    }

    fn receive(&mut self, queue: &Name, top: Option<i64>, filter: Filter) -> Result<Reply, Refusal>
        ensures { (session now : ℕ) → Answers self.old session now (request.Receive queue.now top filter) result self.new }
    {
        match (filter, top) {
            (Filter::All, Some(1)) => self.receive_first(queue),
            _ => self.receive_any(queue, top, filter),
        }
    }

    fn receive_first(&mut self, queue: &Name) -> Result<Reply, Refusal>
        ensures { (session now : ℕ) → Answers self.old session now (request.Receive queue.now (Some (pos 1)) filters.All) result self.new }
    {
        match self.waiting_for(queue) {
            None => self.receive_any(queue, Some(1), Filter::All),
            Some(waiting) => self.take_first(waiting),
        }
    }

    /// What waits in the queue, as it is noted or as the log has it.
    fn waiting_for(&mut self, queue: &Name) -> Option<Waiting>
        ensures same { self.new ≡ self.old }
        ensures noted { IfSome result (IsWaiting self.old.log) }
        ensures queue { IfSome result (λ waiting. waiting.queue ≡ queue.now) }
    {
        match self.waiting.take() {
            None => waiting_in(self.alloc, self.log.as_slice(), queue),
            Some(waiting) => {
                if waiting.is_of(queue) {
                    Some(waiting)
                } else {
                    waiting_in(self.alloc, self.log.as_slice(), queue)
                }
            }
        }
    }

    /// Takes the first item that waits, and notes the others.
    fn take_first(&mut self, mut waiting: Waiting) -> Result<Reply, Refusal>
        requires { IsWaiting self.old.log waiting }
        ensures { (session now : ℕ) → Answers self.old session now (request.Receive waiting.queue (Some (pos 1)) filters.All) result self.new }
    {
        match waiting.take_first(self.alloc) {
            Err(_) => Err(Refusal::OutOfMemory),
            Ok(items) => match self.take(&waiting.queue, items) {
                Err(refusal) => Err(refusal),
                Ok(reply) => {
                    self.waiting = Some(waiting);
                    Ok(reply)
                }
            },
        }
    }

    fn receive_any(
        &mut self,
        queue: &Name,
        top: Option<i64>,
        filter: Filter,
    ) -> Result<Reply, Refusal>
        ensures { (session now : ℕ) → Answers self.old session now (request.Receive queue.now top filter) result self.new }
    {
        let log = self.log.as_slice();
        match check_receive(self.alloc, log, queue, top, filter) {
            Err(stopped) => Err(self.refuse(stopped)),
            Ok(()) => match picked(self.alloc, log, queue, top, filter) {
                Err(_) => Err(Refusal::OutOfMemory),
                Ok(items) => self.take(queue, items),
            },
        }
    }

    fn take(&mut self, queue: &Name, items: Vec<ReceivedItem>) -> Result<Reply, Refusal>
        ensures { Commits self.old (map (takes queue.now) items.items) (reply.Received items.items) result self.new }
    {
        match takings(self.alloc, queue, items.as_slice()) {
            Err(_) => Err(Refusal::OutOfMemory),
            Ok(ops) => {
                let items = Listed::from_vec(items);
                self.commit(ops, Reply::Received { items })
            }
        }
    }

    fn commit(&mut self, ops: Vec<Op>, reply: Reply) -> Result<Reply, Refusal>
        requires { IsQuiet ops.items }
        ensures { Commits self.old ops.items reply result self.new }
    {
        self.carrying = None;
        self.waiting = None;
        match push_transaction(&mut self.log, self.next_tx, ops) {
            Err(_) => Err(Refusal::OutOfMemory),
            Ok(()) => {
                self.next_tx = self.next_tx.wrapping_add(1);
                Ok(reply)
            }
        }
    }

    /// What is still to be handed over of each side whose partner is on this instance by
    /// its route, in the order of the log.
    pub fn pending(&self, alloc: Global) -> Result<Vec<Pending>, AllocError>
        ensures { IfOk result (λ found. found.items ≡ flat_map (pending_by self.now) (sides self.now.log)) }
    {
        all_pending(alloc, self.who, self.log.as_slice())
    }

    /// Whether the side has a message with this number, and its partner is on this instance.
    pub fn can_hand_over(&self, side: SideId, number: u64) -> bool
        ensures { result ≡ is_some (to_hand_over self.now side number) }
    {
        is_carried(self.who, self.log.as_slice(), side, number)
    }

    /// Hands the message of the side with this number to the partner's side. One that comes
    /// behind a message that was just taken in is handed over without going over the log.
    pub fn hand_over(&mut self, side: SideId, number: u64) -> Result<Verdict, AllocError>
        requires { IsSome (to_hand_over self.old side number) }
        ensures handed { IfOk result (λ given. HandsOver self.old (to_hand_over self.old side number) given self.new) }
        ensures kept { OnErr result (self.new ≡ self.old) }
    {
        match self.carrying.take() {
            None => self.carry_first(side, number),
            Some(known) => {
                if known.is_before(side, number) {
                    self.carry_on(known, number)
                } else {
                    self.carry_first(side, number)
                }
            }
        }
    }

    fn carry_first(&mut self, side: SideId, number: u64) -> Result<Verdict, AllocError>
        requires { IsSome (to_hand_over self.old side number) }
        ensures handed { IfOk result (λ given. HandsOver self.old (to_hand_over self.old side number) given self.new) }
        ensures kept { OnErr result (self.new ≡ self.old) }
    {
        let log = self.log.as_slice();
        let Some(message) = carried(self.who, log, side, number)? else {
            unreachable!();
        };
        let given = verdict(self.who, log, &message);
        let known = behind(self.alloc, log, &message, given);
        self.take_in(message, given)?;
        self.carrying = known;
        Ok(given)
    }

    fn carry_on(&mut self, known: Carrying, number: u64) -> Result<Verdict, AllocError>
        requires known { IsCarried self.old.who self.old.log known }
        requires next { number ≡ known.number + 1 }
        requires there { IsSome (to_hand_over self.old known.side number) }
        ensures handed { IfOk result (λ given. HandsOver self.old (to_hand_over self.old known.side number) given self.new) }
        ensures kept { OnErr result (self.new ≡ self.old) }
    {
        let Carrying {
            side,
            number: _,
            contract,
            mut rest,
        } = known;
        let Some(content) = rest.pop_front() else {
            return self.carry_first(side, number);
        };
        if is_type_refused(self.log.as_slice(), side, &contract, &content) {
            return Ok(Verdict::NotHere(6));
        }
        self.carrying = None;
        self.sending.clear();
        self.waiting = None;
        self.log.push(Entry::Accepted {
            side: partner(side),
            number,
            made: None,
            content,
        })?;
        self.carrying = Some(Carrying {
            side,
            number,
            contract,
            rest,
        });
        Ok(Verdict::Next)
    }

    fn take_in(&mut self, message: Data, given: Verdict) -> Result<(), AllocError>
        ensures taken { OnOk result (self.new ≡ taken_in self.old message given) }
        ensures kept { OnErr result (self.new ≡ self.old) }
    {
        match given {
            Verdict::New => {
                self.accept(message)?;
                self.next_handle = self.next_handle.wrapping_add(2);
                Ok(())
            }
            Verdict::Next => self.accept(message),
            _ => Ok(()),
        }
    }

    fn accept(&mut self, message: Data) -> Result<(), AllocError>
        ensures taken { OnOk result (self.new ≡ taken_in self.old message Next) }
        ensures kept { OnErr result (self.new ≡ self.old) }
    {
        let entry = accepted_entry(self.who, self.log.as_slice(), self.next_handle, message)?;
        self.carrying = None;
        self.sending.clear();
        self.waiting = None;
        self.log.push(entry)?;
        Ok(())
    }
}

#[cfg(test)]
impl Instance {
    /// Forgets what is noted, so that the log is asked again.
    #[tactic(auto, using(crate::proofs::Noted::forgotten))]
    pub fn forget(&mut self)
        ensures { self.new ≡ self.old }
    {
        self.carrying = None;
        self.sending.clear();
        self.waiting = None;
    }
}
