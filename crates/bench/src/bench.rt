//! The bench: a block, and what a replay of it needs.
ghost use Rattle.std.specs.Prelude.{◌≡◌, [], ◌∷◌, IfOk, vec_len, OnOk};
ghost use Rattle.start.specs.Starts.{Start};
ghost use Rattle.monitor.specs.Calls.{Requested};
ghost use Rattle.monitor.specs.Lists.{Listed, requests, replies, asked, told};
ghost use Rattle.bench.specs.Kept.{Keeps};

use crate::replay::{give, gives, stands_in};
use block::Block;
use model::{Refusal, Request, StartRefusal};
use monitor::record::Record;
use monitor::{list, request, start};
use policy::{HouseRule, LevelOrder};
use std::alloc::Global;
use std::io;

/// A block, the text of its start, which is empty before that, and the accepted requests that gave.
#[derive(Drop)]
pub struct Bench<'a> {
    pub block: Block,
    text: &'a [u8],
    given: Vec<Request>,
}

/// How many requests a fresh block was given, how many it accepted, and whether all that stands in the block stands there.
#[derive(Clone, Copy)]
pub struct Replay {
    pub count: usize,
    pub accepted: usize,
    pub stands: bool,
}

impl<'a> Bench<'a> {
    /// A bench with a blank block.
    pub(crate) fn new(heap: Global) -> Bench<'a> {
        Bench {
            block: Block::new(),
            text: &[],
            given: Vec::new(heap),
        }
    }

    /// Starts the block, and keeps the text of an accepted start.
    pub(crate) fn start<O: LevelOrder, R: HouseRule>(
        &mut self,
        order: &O,
        rule: &R,
        text: &'a [u8],
    ) -> Result<(), StartRefusal>
        ensures outcome { Start (O.meaning order.now) (R.answers rule.now) self.old.block text.now result self.new.block }
        ensures text { OnOk result (self.new.text.now ≡ text.now) }
    {
        let answer = start(&mut self.block, order, rule, text);
        if answer.is_ok() {
            self.text = text;
        }
        answer
    }

    /// Keeps an accepted request that gives.
    fn keep(&mut self, q: &Request, answer: Result<(), Refusal>) -> io::Result<()>
        ensures block { self.new.block ≡ self.old.block }
        ensures given { OnOk result (Keeps self.old (q.now ∷ []) (answer ∷ []) self.new) }
    {
        if answer.is_ok() && gives(q) {
            self.given.push(*q)?;
        }
        Ok(())
    }

    /// Answers a request.
    pub(crate) fn request<O: LevelOrder, R: HouseRule>(
        &mut self,
        order: &O,
        rule: &R,
        q: &Request,
    ) -> io::Result<Result<(), Refusal>>
        ensures outcome { IfOk result (λ a. Requested (O.meaning order.now) (R.answers rule.now) self.old.block q.now a self.new.block) }
        ensures given { IfOk result (λ a. Keeps self.old (q.now ∷ []) (a ∷ []) self.new) }
    {
        let answer = request(&mut self.block, order, rule, q);
        self.keep(q, answer)?;
        Ok(answer)
    }

    fn keep_each(&mut self, records: &[Record]) -> io::Result<()>
        ensures block { self.new.block ≡ self.old.block }
        ensures given { OnOk result (Keeps self.old (requests records.now) (replies records.now) self.new) }
    {
        for record in records {
            self.keep(&record.request, record.answer)?;
        }
        Ok(())
    }

    /// Answers a list of requests, each in its place.
    pub(crate) fn list<O: LevelOrder, R: HouseRule>(
        &mut self,
        order: &O,
        rule: &R,
        records: &mut [Record],
    ) -> io::Result<Result<(), Refusal>>
        ensures outcome { IfOk result (λ a. Listed (O.meaning order.now) (R.answers rule.now) self.old.block records.old a records.new self.new.block) }
        ensures given { IfOk result (λ a. Keeps self.old (asked a records.old) (told a records.new) self.new) }
    {
        let answer = list(&mut self.block, order, rule, records);
        if answer.is_ok() {
            self.keep_each(records)?;
        }
        Ok(answer)
    }

    /// Gives what was given to a fresh block of the same start.
    pub(crate) fn replay<O: LevelOrder, R: HouseRule>(&self, order: &O, rule: &R) -> Replay
        ensures { result.count ≡ vec_len self.now.given }
    {
        let mut fresh = Block::new();
        let _ = start(&mut fresh, order, rule, self.text);
        let accepted = give(&mut fresh, order, rule, self.given.as_slice());
        Replay {
            count: self.given.len(),
            accepted,
            stands: stands_in(&self.block, &fresh),
        }
    }
}
