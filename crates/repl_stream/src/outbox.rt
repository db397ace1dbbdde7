ghost use Rattle.std.specs.Prelude.{◌≡◌, ◌<◌, ◌+◌, ◌++◌, ◌∷◌, [], ◌==◌, ℕ, length, if◌then◌else◌};
ghost use Rattle.std.specs.Prelude.{Some, None, Err, IfOk, OnOk, OnErr, is_some};
ghost use Rattle.std.specs.Option.{option_copied};
ghost use Rattle.repl_stream.specs.declared.error.KeepError.TheVariants.{Full};
ghost use Rattle.repl_stream.specs.Numbers.{item_at, without, IsOutbox};

use crate::KeepError;
use crdt_core::Message;
use std::alloc::Global;
use std::collections::BTreeMap;
use std::marker::Model;

/// The most messages that are kept.
const MOST_MESSAGES: usize = 4096;

/// Messages that are kept under numbers. Contracts see the list of the messages with their numbers, which ascend, and
/// the next number.
#[derive(Drop)]
pub struct Outbox<E> {
    messages: BTreeMap<u64, Message<E>>,
    next: u64,
}

impl<E> Model for Outbox<E> {
    ghost use Rattle.repl_stream.specs.Numbers.{Numbered, IsOutbox};

    ghost Value = { Numbered E };

    ghost view = { λ o. record { messages = o.messages.entries; next = o.next } };

    ghost invariant = { λ o. IsOutbox o.messages.entries o.next };
}

impl<E> Outbox<E> {
    /// Nothing kept; the first number is 1. Takes no memory.
    pub fn new(alloc: Global) -> Outbox<E>
        ensures value { result ≡ record { messages = []; next = 1 } }
        ensures sound { IsOutbox result.messages result.next }
    {
        Outbox {
            messages: BTreeMap::new(alloc),
            next: 1,
        }
    }

    /// The message that is kept under a number, if there is one.
    pub fn get(&self, k: u64) -> Option<&Message<E>>
        ensures value { option_copied result ≡ item_at self.now.messages k }
        ensures sound { IsOutbox self.now.messages self.now.next }
    {
        self.messages.get(&k)
    }
}

impl<E: Drop> Outbox<E> {
    /// Keeps a message under the next number, which is given to no other. Numbers begin at 1.
    ///
    /// # Errors
    ///
    /// `Full` exactly where 4,096 messages are kept. `NoMemory` where memory runs out; no number above 2^64 - 2 is
    /// given, and where none is left the answer is `NoMemory` too. All is as before then.
    pub fn keep(&mut self, m: Message<E>) -> Result<u64, KeepError>
        ensures number { IfOk result (λ k. k ≡ self.old.next) }
        ensures added { IfOk result
            (λ k. self.new ≡ record { messages = self.old.messages ++ (k, m) ∷ []; next = self.old.next + 1 }) }
        ensures found { OnOk result
            ((j : ℕ) → item_at self.new.messages j
            ≡ (if j == self.old.next then Some m else item_at self.old.messages j)) }
        ensures room { OnOk result (length self.old.messages < 4096) }
        ensures full { result ≡ Err Full → length self.old.messages ≡ 4096 }
        ensures filled { length self.old.messages ≡ 4096 → result ≡ Err Full }
        ensures err { OnErr result (self.new ≡ self.old) }
        ensures sound { IsOutbox self.new.messages self.new.next }
    {
        if self.messages.len() >= MOST_MESSAGES {
            return Err(KeepError::Full);
        }
        if self.next == u64::MAX {
            return Err(KeepError::NoMemory);
        }
        let number = self.next;
        match self.messages.insert(number, m) {
            Ok(_) => {}
            Err(_) => return Err(KeepError::NoMemory),
        }
        self.next += 1;
        Ok(number)
    }

    /// Drops the message that is kept under a number. Answers whether there was one.
    pub fn drop_one(&mut self, k: u64) -> bool
        ensures was { result ≡ is_some (item_at self.old.messages k) }
        ensures rest { self.new ≡ record self.old { messages = without self.old.messages k } }
        ensures found { (j : ℕ) → item_at self.new.messages j ≡ (if j == k then None else item_at self.old.messages j) }
        ensures count { length self.new.messages + (if result then 1 else 0) ≡ length self.old.messages }
        ensures sound { IsOutbox self.new.messages self.new.next }
    {
        let dropped = self.messages.remove(&k);
        dropped.is_some()
    }
}
