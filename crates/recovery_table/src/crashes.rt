ghost use Rattle.std.specs.Prelude.{◌≤◌};

// A partition that is cut off at each call of its disk, and comes up again.
use crate::answers::Failure;
use crate::book::{Book, Telling};
use crate::call::{Call, Step};
use crate::place::Place;
use disk_core::{Disk, MemDisk};
use partition_core::{DurableError, RestartError, Restarted};
use std::alloc::Global;

/// How many bytes are written of a write that fails, at most.
const CUT_LENGTHS: [u64; 2] = [0, 6];

/// More calls of the disk than any call of a partition makes.
const MOST_CALLS: u64 = 40;

/// Which partition of the first site a line asks, and the room of its disk in bytes.
#[derive(Clone, Copy)]
pub(crate) struct Home {
    pub(crate) part: u8,
    pub(crate) room: u64,
}

/// A partition, and the book of its calls.
#[derive(Drop)]
struct Scene {
    place: Place,
    book: Book,
}

/// Whether the disk failed.
fn is_cut(answer: &Result<u64, Failure>) -> bool {
    matches!(
        answer,
        Err(Failure::Answer(DurableError::Disk)) | Err(Failure::Opening(RestartError::Disk))
    )
}

/// Whether the partition is down.
fn is_down(answer: &Result<u64, Failure>) -> bool {
    matches!(answer, Err(Failure::Answer(DurableError::Down)))
}

/// What a partition tells that came up, and what it shows then.
fn telling_of(alloc: Global, place: &mut Place, up: &Restarted) -> Result<Telling, Failure> {
    let mut pending = Vec::new(alloc);
    for (tx, time) in up.pending.as_slice() {
        pending
            .push((tx.time, *time))
            .map_err(|_| Failure::Unasked)?;
    }
    let [own, other] = up.bounds.as_slice() else {
        return Err(Failure::Differs);
    };
    let (own, other) = (*own, *other);
    Ok(Telling {
        now: up.now,
        own,
        other,
        decided: up.decided.map(|tx| tx.time),
        pending,
        shows: place.read(&up.bounds)?,
    })
}

/// Comes up again. Answers what is told, in words.
fn come_up(alloc: Global, place: &mut Place) -> Result<String, Failure> {
    let up = place.restart()?;
    let telling = telling_of(alloc, place, &up)?;
    Ok(telling.text(alloc)?)
}

impl Scene {
    fn new(alloc: Global, home: Home) -> Result<Scene, Failure> {
        Ok(Scene {
            place: Place::new(alloc, home.part, home.room)?,
            book: Book::new(alloc),
        })
    }

    /// Makes a call, and keeps in the book what is done. Answers the call's own answer.
    fn ask(&mut self, call: Call) -> Result<Result<u64, Failure>, Failure> {
        let time = self.book.after(call);
        let answer = self.place.ask(call);
        if let Ok(told) = answer {
            if told != 0 && told != time {
                return Err(Failure::Differs);
            }
            self.book.keep(call)?;
        }
        Ok(answer)
    }

    /// Makes a call whose disk fails at a call of it. Answers whether it failed; the partition is down then, and its
    /// fuse taken away.
    fn cut(&mut self, call: Call, at: u64, cut_length: u64) -> Result<bool, Failure> {
        self.place.arm(at, cut_length);
        if !is_cut(&self.place.ask(call)) {
            return Ok(false);
        }
        self.book.tear(call)?;
        self.place.revive();
        if !is_down(&self.place.ask(Call::Tick { clock_time: 0 })) {
            return Err(Failure::Differs);
        }
        Ok(true)
    }

    /// Comes up again. Answers how many records of the call that was cut off are there, and what is told.
    fn restart(&mut self, alloc: Global) -> Result<(usize, String), Failure> {
        let text = come_up(alloc, &mut self.place)?;
        match self.book.front_of(text.as_str())? {
            None => Err(Failure::Differs),
            Some(count) => {
                self.book.come_up(count)?;
                Ok((count, text))
            }
        }
    }

    /// Comes up again, and adds what is told behind a step's text. Answers how many calls of the disk that may make, at
    /// least and at most.
    fn pass_restart(
        &mut self,
        alloc: Global,
        out: &mut String,
        text: &str,
    ) -> Result<(u64, u64), Failure> {
        let (_, told) = self.restart(alloc)?;
        writeln!(out, "{text}: {told}")?;
        Ok((1, 16))
    }

    /// Makes a step as it is, and adds its answer. Answers how many calls of the disk it may make, at least and at
    /// most.
    fn pass(&mut self, alloc: Global, out: &mut String, step: Step) -> Result<(u64, u64), Failure> {
        if step.call == Call::Restart {
            return self.pass_restart(alloc, out, step.text);
        }
        let records = self.book.notes_of(step.call)?.len() as u64;
        let calls = records.saturating_mul(4);
        match self.ask(step.call)? {
            Ok(time) => {
                writeln!(out, "{}: {time}", step.text)?;
                Ok((calls, calls))
            }
            Err(failure) => {
                writeln!(out, "{}: {failure}", step.text)?;
                Ok((0, 0))
            }
        }
    }

    /// Cuts a call off at a call of the disk, comes up again, and adds what is told. Answers whether it makes so many.
    fn crash(
        &mut self,
        alloc: Global,
        out: &mut String,
        call: Call,
        at: u64,
        cut_length: u64,
    ) -> Result<bool, Failure> {
        if !self.cut(call, at, cut_length)? {
            return Ok(false);
        }
        let torn = self.book.torn();
        let (count, text) = self.restart(alloc)?;
        writeln!(
            out,
            "  call {at}, {cut_length} bytes: with {count} of {torn} records {text}"
        )?;
        Ok(true)
    }

    /// Makes a step of a line.
    fn play(&mut self, alloc: Global, step: Step) -> Result<(), Failure> {
        match (step.cut, step.call) {
            (Some((at, cut_length)), call) => {
                if !self.cut(call, at, cut_length)? {
                    return Err(Failure::Unasked);
                }
            }
            (None, Call::Restart) => {
                let _ = self.restart(alloc)?;
            }
            (None, call) => {
                let _ = self.ask(call)?;
            }
        }
        Ok(())
    }

    /// The scene after these steps.
    fn after(alloc: Global, home: Home, steps: &[Step]) -> Result<Scene, Failure> {
        let mut scene = Scene::new(alloc, home)?;
        for step in steps {
            scene.play(alloc, *step)?;
        }
        Ok(scene)
    }
}

/// A step of a line, with those before it, and where they are made.
#[derive(Clone, Copy)]
struct Point<'a> {
    home: Home,
    before: &'a [Step<'a>],
    step: Step<'a>,
}

/// Cuts the step off at a call of the disk, and comes up again. Answers whether it makes so many.
fn crash(
    alloc: Global,
    out: &mut String,
    point: &Point,
    at: u64,
    cut_length: u64,
) -> Result<bool, Failure> {
    let mut scene = Scene::after(alloc, point.home, point.before)?;
    scene.crash(alloc, out, point.step.call, at, cut_length)
}

/// The same at each call of the disk. Answers how many it makes.
fn crash_each(
    alloc: Global,
    out: &mut String,
    point: &Point,
    cut_length: u64,
) -> Result<u64, Failure> {
    for at in 1..MOST_CALLS {
        if !crash(alloc, out, point, at, cut_length)? {
            return Ok(at - 1);
        }
    }
    Err(Failure::Differs)
}

/// Makes the step as it is. Answers how many calls of the disk it may make, at least and at most.
fn pass(alloc: Global, out: &mut String, point: &Point) -> Result<(u64, u64), Failure> {
    let mut scene = Scene::after(alloc, point.home, point.before)?;
    scene.pass(alloc, out, point.step)
}

/// Makes the step as it is, and cut off at each call of the disk.
fn try_step(alloc: Global, out: &mut String, point: &Point) -> Result<(), Failure> {
    if point.step.cut.is_some() {
        writeln!(out, "{}: cut off", point.step.text)?;
        return Ok(());
    }
    let (least, most) = pass(alloc, out, point)?;
    for cut_length in CUT_LENGTHS {
        let calls = crash_each(alloc, out, point, cut_length)?;
        if calls < least || calls > most {
            return Err(Failure::Differs);
        }
    }
    Ok(())
}

/// Each step of a line, made as it is and cut off at each call of the disk, after those before it.
pub(crate) fn try_each(
    alloc: Global,
    out: &mut String,
    home: Home,
    steps: &[Step],
) -> Result<(), Failure> {
    for (index, step) in steps.iter().enumerate() {
        let point = Point {
            home,
            before: steps.get(..index).unwrap_or(&[]),
            step: *step,
        };
        try_step(alloc, out, &point)?;
    }
    Ok(())
}

/// What a disk holds.
fn held_by(alloc: Global, disk: &mut MemDisk) -> Result<Vec<u8>, Failure> {
    let Ok(len) = disk.len() else {
        return Err(Failure::Unasked);
    };
    let mut bytes = vec![in alloc; 0u8; len as usize]?;
    match disk.read(0, bytes.as_mut_slice()) {
        Ok(()) => Ok(bytes),
        Err(_) => Err(Failure::Unasked),
    }
}

/// What the disk holds after these steps.
pub(crate) fn bytes_after(alloc: Global, home: Home, steps: &[Step]) -> Result<Vec<u8>, Failure> {
    let scene = Scene::after(alloc, home, steps)?;
    let mut disk = scene.place.into_disk();
    held_by(alloc, &mut disk)
}

/// What comes up over a disk that holds these bytes, as the first site's partition with this number.
pub(crate) fn wake(alloc: Global, part: u8, bytes: &[u8]) -> Result<String, Failure>
    requires least { 1 ≤ part }
    requires most { part ≤ 2 }
{
    let mut place = Place::of_bytes(alloc, part, bytes)?;
    come_up(alloc, &mut place)
}
