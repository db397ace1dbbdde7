// What a log must tell, reckoned from the calls alone, without a log or a disk.
use crate::call::Call;
use std::alloc::{AllocError, Global};

/// What a call writes into the log. Times are in logical ticks; a transaction is named by the time that was drawn for
/// it.
#[derive(Clone, Copy)]
pub(crate) enum Note {
    Lease { ceiling: u64 },
    Vote { begun: u64, time: u64, amount: u64 },
    Commit { begun: u64, time: u64, leads: bool },
    Abort { begun: u64 },
    Batch { hi: u64, amount: u64 },
}

/// A vote that has not ended.
#[derive(Clone, Copy)]
pub(crate) struct Waiting {
    pub(crate) begun: u64,
    pub(crate) time: u64,
    amount: u64,
}

/// What a log tells: the ceiling of its last lease, what is pending, what was committed here and when, how far the
/// other site's messages came and what they added, and the last transaction that was decided.
#[derive(Drop)]
pub(crate) struct Sum {
    pub(crate) ceiling: u64,
    pending: Vec<Waiting>,
    committed: Vec<(u64, u64)>,
    pub(crate) other: u64,
    brought: u64,
    decided: Option<u64>,
}

/// What a partition that comes up must tell and show.
#[derive(Drop)]
pub(crate) struct Telling {
    pub(crate) now: u64,
    pub(crate) own: u64,
    pub(crate) other: u64,
    pub(crate) decided: Option<u64>,
    pub(crate) pending: Vec<(u64, u64)>,
    pub(crate) shows: i128,
}

impl Sum {
    fn new(alloc: Global) -> Sum {
        Sum {
            ceiling: 0,
            pending: Vec::new(alloc),
            committed: Vec::new(alloc),
            other: 0,
            brought: 0,
            decided: None,
        }
    }

    /// What a list of notes comes to, the oldest first.
    pub(crate) fn of(alloc: Global, notes: &[Note]) -> Result<Sum, AllocError> {
        let mut sum = Sum::new(alloc);
        for note in notes {
            sum.add(*note)?;
        }
        Ok(sum)
    }

    fn add(&mut self, note: Note) -> Result<(), AllocError> {
        match note {
            Note::Lease { ceiling } => self.ceiling = ceiling,
            Note::Vote {
                begun,
                time,
                amount,
            } => {
                self.pending.push(Waiting {
                    begun,
                    time,
                    amount,
                })?;
            }
            Note::Commit { begun, time, leads } => self.commit(begun, time, leads)?,
            Note::Abort { begun } => {
                let _ = self.end(begun);
            }
            Note::Batch { hi, amount } => {
                self.other = hi;
                self.brought = self.brought.saturating_add(amount);
            }
        }
        Ok(())
    }

    fn commit(&mut self, begun: u64, time: u64, leads: bool) -> Result<(), AllocError> {
        if leads {
            self.decided = Some(begun);
        }
        if let Some(waiting) = self.end(begun) {
            self.committed.push((time, waiting.amount))?;
        }
        Ok(())
    }

    /// Takes out what waits for the end of a transaction.
    fn end(&mut self, begun: u64) -> Option<Waiting> {
        let found = self.pending.iter().position(|w| w.begun == begun)?;
        Some(self.pending.remove(found))
    }

    /// Whether the transaction has voted and not ended.
    pub(crate) fn awaits(&self, begun: u64) -> bool {
        self.pending.iter().any(|w| w.begun == begun)
    }

    /// The lesser of the ceiling and one below the least prepare time.
    fn own(&self) -> u64 {
        let mut own = self.ceiling;
        for waiting in self.pending.as_slice() {
            own = own.min(waiting.time.saturating_sub(1));
        }
        own
    }

    /// What the counter shows at the bounds.
    fn shows(&self) -> i128 {
        let own = self.own();
        let mut total = i128::from(self.brought);
        for (time, amount) in self.committed.as_slice() {
            if *time <= own {
                total = total.wrapping_add(i128::from(*amount));
            }
        }
        total
    }

    /// What a partition tells that comes up with this.
    pub(crate) fn telling(&self, alloc: Global) -> Result<Telling, AllocError> {
        let mut pending = Vec::new(alloc);
        for waiting in self.pending.as_slice() {
            pending.push((waiting.begun, waiting.time))?;
        }
        Ok(Telling {
            now: self.ceiling,
            own: self.own(),
            other: self.other,
            decided: self.decided,
            pending,
            shows: self.shows(),
        })
    }
}

impl Telling {
    /// It in words.
    pub(crate) fn text(&self, alloc: Global) -> Result<String, AllocError> {
        let mut out = String::new(alloc);
        write!(
            &mut out,
            "at {}, bounds {} {}, ",
            self.now, self.own, self.other
        )?;
        match self.decided {
            Some(begun) => write!(&mut out, "decided #{begun}, pending")?,
            None => out.push_str("decided none, pending")?,
        }
        for (begun, time) in self.pending.as_slice() {
            write!(&mut out, " #{begun} at {time}")?;
        }
        write!(&mut out, "; shows {}", self.shows)?;
        Ok(out)
    }
}

/// What the calls of a partition came to.
#[derive(Drop)]
pub(crate) struct Book {
    alloc: Global,
    now: u64,
    notes: Vec<Note>,
    /// What a call would have written that was cut off.
    torn: Vec<Note>,
}

/// The lease that the clock needs to show a time, if it needs one.
fn put_lease(notes: &mut Vec<Note>, ceiling: u64, time: u64) -> Result<(), AllocError> {
    if time > ceiling {
        let ceiling = time.saturating_add(1000).min(1 << 62);
        notes.push(Note::Lease { ceiling })?;
    }
    Ok(())
}

impl Book {
    pub(crate) fn new(alloc: Global) -> Book {
        Book {
            alloc,
            now: 0,
            notes: Vec::new(alloc),
            torn: Vec::new(alloc),
        }
    }

    /// The time that the clock shows once a call is done.
    pub(crate) fn after(&self, call: Call) -> u64 {
        match call {
            Call::Tick { clock_time } => self.now.max(clock_time),
            Call::Begin | Call::Prepare { .. } => self.now.saturating_add(1),
            _ => self.now,
        }
    }

    /// What a call writes that is done.
    pub(crate) fn notes_of(&self, call: Call) -> Result<Vec<Note>, AllocError> {
        let sum = Sum::of(self.alloc, self.notes.as_slice())?;
        let mut notes = Vec::new(self.alloc);
        let time = self.after(call);
        put_lease(&mut notes, sum.ceiling, time)?;
        if let Some(note) = note_of(&sum, call, time) {
            notes.push(note)?;
        }
        Ok(notes)
    }

    /// Keeps what a call wrote that is done.
    pub(crate) fn keep(&mut self, call: Call) -> Result<(), AllocError> {
        let notes = self.notes_of(call)?;
        self.now = self.after(call);
        self.notes.extend_from_slice(notes.as_slice())
    }

    /// Keeps what a call would have written that was cut off.
    pub(crate) fn tear(&mut self, call: Call) -> Result<(), AllocError> {
        if call != Call::Restart {
            self.torn = self.notes_of(call)?;
        }
        Ok(())
    }

    /// How many notes of the call that was cut off there are.
    pub(crate) fn torn(&self) -> usize {
        self.torn.len()
    }

    /// What a log tells with the first of these notes.
    fn front(&self, count: usize) -> Result<Sum, AllocError> {
        let mut notes = Vec::from_slice(self.alloc, self.notes.as_slice())?;
        for note in self.torn.iter().take(count) {
            notes.push(*note)?;
        }
        Sum::of(self.alloc, notes.as_slice())
    }

    /// The least front of the notes of the call that was cut off, with which a log tells this.
    pub(crate) fn front_of(&self, told: &str) -> Result<Option<usize>, AllocError> {
        for count in 0..=self.torn.len() {
            let sum = self.front(count)?;
            let telling = sum.telling(self.alloc)?;
            let text = telling.text(self.alloc)?;
            if text.as_str() == told {
                return Ok(Some(count));
            }
        }
        Ok(None)
    }

    /// Comes up with so many notes of the call that was cut off.
    pub(crate) fn come_up(&mut self, count: usize) -> Result<(), AllocError> {
        for note in self.torn.iter().take(count) {
            self.notes.push(*note)?;
        }
        self.torn.clear();
        let sum = Sum::of(self.alloc, self.notes.as_slice())?;
        self.now = sum.ceiling;
        Ok(())
    }
}

/// What a call writes beside a lease.
fn note_of(sum: &Sum, call: Call, time: u64) -> Option<Note> {
    match call {
        Call::Prepare { begun, amount, .. } => Some(Note::Vote {
            begun,
            time,
            amount,
        }),
        Call::Decide { begun, time } if sum.awaits(begun) => Some(Note::Commit {
            begun,
            time,
            leads: true,
        }),
        Call::Finish { begun, time } if sum.awaits(begun) => Some(Note::Commit {
            begun,
            time,
            leads: false,
        }),
        Call::Abort { begun } if sum.awaits(begun) => Some(Note::Abort { begun }),
        Call::Take { lo: _, hi, amount } if sum.other < hi => Some(Note::Batch { hi, amount }),
        _ => None,
    }
}
