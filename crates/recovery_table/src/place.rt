ghost use Rattle.std.specs.Prelude.{◌≡◌, ◌≤◌, ◌^◌, [], true, length, IsTrue};
ghost use Rattle.disk_core.specs.States.{bytes_of};
ghost use Rattle.crdt_core.specs.Spelled.{is_tx};
ghost use Rattle.recovery_table.specs.Places.{CanPut, CanPutMessage, MayTake};

use crate::answers::Failure;
use crate::call::Call;
use crate::words::{Brought, Vote, batch_message, key_of, vote_record};
use crdt_core::{Crdt, Kind, Message, ObjectId, Record, Value};
use crdt_counters::CounterPn;
use disk_core::{Fused, MemDisk};
use field_codec::Text;
use gate_log::format;
use partition_core::{DurablePartition, Restarted};
use site_vector::{PartId, TxId, VTime};
use std::alloc::Global;
use std::marker::Model;
use world_model::Mode;

/// How many sites the cluster has, and how many partitions each of them.
pub(crate) const SIZE: u8 = 2;

/// The last time of any clock.
pub(crate) const END_OF_TIME: u64 = 1 << 62;

/// The greatest room of a disk, in bytes.
pub(crate) const MOST_ROOM: u64 = 1 << 31;

/// A partition of counters on its disk, of a cluster of two sites with two partitions each. It is asked only where what
/// its call requires holds.
#[derive(Drop)]
pub(crate) struct Place {
    alloc: Global,
    id: PartId,
    partition: DurablePartition<CounterPn, Fused<MemDisk>>,
}

impl Model for Place {
    ghost use Rattle.std.specs.Prelude.{ℤ};
    ghost use Rattle.partition_core.specs.Tables.{Tables};
    ghost use Rattle.world_model.specs.lines.Places.{IsPlace};
    ghost use Rattle.recovery_table.specs.Places.{IsAt};

    ghost Value = { Tables ℤ };

    ghost view = { λ p. p.partition.tables };

    ghost invariant = { λ p. IsAt p.id p.partition.tables × IsPlace 2 2 p.id };
}

/// The counter that all updates of a partition add to.
fn counter(alloc: Global, part: u8) -> Result<ObjectId, Failure> {
    let (Some(bucket), Some(key)) = (Text::of(alloc, "b")?, Text::of(alloc, key_of(part))?) else {
        return Err(Failure::Unasked);
    };
    Ok(ObjectId {
        bucket,
        key,
        kind: Kind::CounterPn,
    })
}

/// A new disk of so much room, formatted.
fn new_disk(alloc: Global, room: u64) -> Result<Fused<MemDisk>, Failure> {
    if !(64..=MOST_ROOM).contains(&room) {
        return Err(Failure::Unasked);
    }
    let mut disk = MemDisk::new(alloc, room);
    match format(&mut disk) {
        Ok(()) => Ok(Fused::new(disk)),
        Err(_) => Err(Failure::Unasked),
    }
}

impl Place {
    /// The first site's partition with this number, over a disk.
    fn over(alloc: Global, part: u8, disk: Fused<MemDisk>) -> Result<Place, Failure>
        requires least { 1 ≤ part }
        requires most { part ≤ 2 }
    {
        let id = PartId { site: 1, part };
        match DurablePartition::make(alloc, id, SIZE, SIZE, disk) {
            Ok(partition) => Ok(Place {
                alloc,
                id,
                partition,
            }),
            Err((_disk, error)) => Err(Failure::Opening(error)),
        }
    }

    /// The first site's partition with this number, over a new disk of so much room.
    pub(crate) fn new(alloc: Global, part: u8, room: u64) -> Result<Place, Failure> {
        if part == 0 || part > SIZE {
            return Err(Failure::Unasked);
        }
        Place::over(alloc, part, new_disk(alloc, room)?)
    }

    /// The first site's partition with this number, over a disk that holds these bytes.
    pub(crate) fn of_bytes(alloc: Global, part: u8, bytes: &[u8]) -> Result<Place, Failure>
        requires least { 1 ≤ part }
        requires most { part ≤ 2 }
    {
        if bytes.len() as u64 > MOST_ROOM {
            return Err(Failure::Unasked);
        }
        let disk = MemDisk::of_bytes(alloc, MOST_ROOM, bytes)?;
        Place::over(alloc, part, Fused::new(disk))
    }

    /// The disk.
    pub(crate) fn into_disk(self) -> MemDisk {
        self.partition.into_disk().into_inner()
    }

    /// Arms the fuse of its disk.
    pub(crate) fn arm(&mut self, call: u64, cut_length: u64) {
        self.partition.arm(call, cut_length);
    }

    /// Takes the fuse away where it has fired.
    pub(crate) fn revive(&mut self) {
        self.partition.revive();
    }

    /// Comes up again.
    pub(crate) fn restart(&mut self) -> Result<Restarted, Failure> {
        Ok(self.partition.restart(self.alloc)?)
    }

    fn begin(&mut self) -> Result<u64, Failure> {
        let (tx, _s) = self.partition.begin(&VTime::zero(SIZE), Mode::Fresh)?;
        Ok(tx.time)
    }

    fn tick(&mut self, clock_time: u64) -> Result<u64, Failure> {
        if clock_time > END_OF_TIME {
            return Err(Failure::Unasked);
        }
        Ok(self.partition.tick(clock_time)?)
    }

    /// Asks for the vote that a record tells, whose own time doesn't count.
    fn prepare(&mut self, voted: &Record<i64>) -> Result<u64, Failure>
        requires { CanPut voted.now }
    {
        let Record::Prepare {
            tx,
            lead,
            s,
            updates,
            ..
        } = voted
        else {
            return Err(Failure::Unasked);
        };
        if tx.site != self.id.site || s.width() != SIZE || self.partition.knows(*tx) {
            return Err(Failure::Unasked);
        }
        Ok(self.partition.prepare(self.alloc, *tx, s, *lead, updates)?)
    }

    /// Asks it to commit a transaction of its site at a time: as the lead, or not.
    fn end(&mut self, tx: TxId, time: u64, leads: bool) -> Result<(), Failure> {
        if tx.site != self.id.site || !is_named(tx) {
            return Err(Failure::Unasked);
        }
        let c = VTime::zero(SIZE).with(1, time);
        if leads {
            return Ok(self.partition.decide(tx, &c)?);
        }
        Ok(self.partition.finish(tx, &c)?)
    }

    fn abort(&mut self, tx: TxId) -> Result<(), Failure> {
        if !is_named(tx) {
            return Err(Failure::Unasked);
        }
        Ok(self.partition.abort(tx)?)
    }

    fn take(&mut self, message: &Message<i64>) -> Result<(), Failure>
        requires { CanPutMessage message.now }
    {
        if !may_take(self.id.site, &self.partition, message) {
            return Err(Failure::Unasked);
        }
        Ok(self.partition.take(self.alloc, message)?)
    }

    /// What the counter shows at these times, to a transaction that began when the clock showed them.
    pub(crate) fn read(&mut self, s: &VTime) -> Result<i128, Failure> {
        if s.width() != SIZE {
            return Err(Failure::Unasked);
        }
        let tx = self.own(s.get(1));
        let counter = counter(self.alloc, self.id.part)?;
        if !CounterPn::has(counter.kind) {
            return Err(Failure::Unasked);
        }
        match self.partition.read(self.alloc, tx, s, &counter, &[])? {
            Value::Int(n) => Ok(n),
            _ => Err(Failure::Unasked),
        }
    }

    /// How far it has come with each site.
    pub(crate) fn report(&self) -> Result<VTime, Failure> {
        Ok(self.partition.report()?)
    }

    /// The transaction for which it drew this time.
    fn own(&self, time: u64) -> TxId {
        TxId {
            site: self.id.site,
            part: self.id.part,
            time,
        }
    }

    /// Asks for a vote for its own transaction of this time.
    fn ask_vote(&mut self, begun: u64, amount: u64, lead: u64) -> Result<u64, Failure> {
        let part = self.id.part;
        let wanted = Vote {
            at: part,
            part,
            begun,
            lead: if lead == 0 { part } else { lead.min(16) as u8 },
            time: 0,
            amount,
        };
        match vote_record(self.alloc, &wanted)? {
            Some(record) => self.prepare(&record),
            None => Err(Failure::Unasked),
        }
    }

    /// Hands on a message of the other site, with one transaction, committed at the message's end.
    fn ask_take(&mut self, lo: u64, hi: u64, amount: u64) -> Result<(), Failure> {
        let wanted = Brought {
            part: self.id.part,
            lo,
            hi,
            begun: lo,
            time: hi,
            amount,
        };
        match batch_message(self.alloc, &wanted)? {
            Some(message) => self.take(&message),
            None => Err(Failure::Unasked),
        }
    }

    /// Makes a call. Answers the time that it tells, or else 0.
    pub(crate) fn ask(&mut self, call: Call) -> Result<u64, Failure> {
        match call {
            Call::Tick { clock_time } => return self.tick(clock_time),
            Call::Begin => return self.begin(),
            Call::Prepare {
                begun,
                amount,
                lead,
            } => return self.ask_vote(begun, amount, lead),
            Call::Decide { begun, time } => self.end(self.own(begun), time, true)?,
            Call::Finish { begun, time } => self.end(self.own(begun), time, false)?,
            Call::Abort { begun } => self.abort(self.own(begun))?,
            Call::Take { lo, hi, amount } => self.ask_take(lo, hi, amount)?,
            Call::Restart => return Ok(self.restart()?.now),
        }
        Ok(0)
    }
}

/// Whether the transaction's name has a spelling.
fn is_named(tx: TxId) -> bool
    ensures { result ≡ is_tx tx }
{
    (1..=8).contains(&tx.site) && (1..=16).contains(&tx.part) && tx.time <= END_OF_TIME
}

/// Whether the partition of this site may take a message: of at most one part, which is of another site, and unknown
/// where it lies above what was taken.
fn may_take(
    site: u8,
    partition: &DurablePartition<CounterPn, Fused<MemDisk>>,
    message: &Message<i64>,
) -> bool
    requires { partition.now.tables.sites ≡ 2 }
    ensures { result ≡ true → MayTake site partition.now.tables message.now }
{
    let from = message.from;
    if from == 0 || from > SIZE {
        return false;
    }
    match message.parts.as_slice() {
        [] => true,
        [part] => {
            part.c.width() == SIZE
                && part.tx.site != site
                && (part.c.get(from) <= partition.bound(from) || !partition.knows(part.tx))
        }
        _ => false,
    }
}
