ghost use Rattle.std.specs.Prelude.{◌≡◌};
ghost use Rattle.client_pool.specs.Outcomes.{outcome_of};
ghost use Rattle.client_pool.specs.Told.{told_of, progress_of};

use world_model::{Next, Step};

/// What the answer to a call is to a client.
#[derive(Clone, Copy, Debug)]
pub enum Outcome {
    /// What was asked is done.
    Done,
    /// A wait, or want of time or room: it is asked again.
    Again,
    /// A refusal for good, or a fault of a disk.
    Stopped,
}

/// What this answer is to a client.
pub fn outcome_of(step: &Step) -> Outcome
    ensures { result ≡ outcome_of step.now }
{
    match step {
        Step::WaitClock { .. }
        | Step::WaitTxn { .. }
        | Step::WaitStable { .. }
        | Step::TimeEnd
        | Step::Full { .. } => Outcome::Again,
        Step::Down { .. }
        | Step::Disk { .. }
        | Step::Unsure { .. }
        | Step::Gone { .. }
        | Step::Dup { .. }
        | Step::Gap { .. }
        | Step::BadOp
        | Step::Damaged { .. } => Outcome::Stopped,
        _ => Outcome::Done,
    }
}

/// What a call came to, to a client.
#[derive(Debug, Drop)]
pub enum Reply {
    /// What was asked is done; its line.
    Done(Step),
    /// It is asked again.
    Again,
    /// The partition stopped.
    Stopped,
    /// Nothing was asked: memory ran out.
    NoMemory,
}

/// What a call came to. Each of its errors is taken for want of memory.
pub fn told<X: Drop>(answer: Result<Step, X>) -> Reply
    ensures { result ≡ told_of answer }
{
    match answer {
        Ok(step) => match outcome_of(&step) {
            Outcome::Done => Reply::Done(step),
            Outcome::Again => Reply::Again,
            Outcome::Stopped => Reply::Stopped,
        },
        Err(_) => Reply::NoMemory,
    }
}

/// What a step of a commit came to, to a client.
#[derive(Clone, Copy, Debug)]
pub enum Progress {
    /// It is done, or asked again.
    On,
    /// The partition stopped.
    Stopped,
    /// Nothing was asked: memory ran out.
    NoMemory,
}

/// What a step of a commit came to. Each of its errors is taken for want of memory.
pub fn progress_of<X: Drop>(answer: Result<(Step, Next), X>) -> Progress
    ensures { result ≡ progress_of answer }
{
    match answer {
        Ok((step, _)) => match outcome_of(&step) {
            Outcome::Done => Progress::On,
            Outcome::Again => Progress::On,
            Outcome::Stopped => Progress::Stopped,
        },
        Err(_) => Progress::NoMemory,
    }
}
