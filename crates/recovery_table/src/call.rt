// The calls that a line names.
use std::alloc::{AllocError, Global};

/// A call of a partition. Times are in logical ticks; a transaction of its own site is named by the time that was drawn
/// for it at the partition.
#[derive(Clone, Copy, PartialEq)]
pub(crate) enum Call {
    /// The clock reads a time.
    Tick { clock_time: u64 },
    Begin,
    /// A vote for a transaction that adds to the counter, with the number of its lead, or 0 where it is the partition.
    Prepare { begun: u64, amount: u64, lead: u64 },
    /// The commit at a time, of which the partition is the lead.
    Decide { begun: u64, time: u64 },
    /// The commit at a time, of which another one is.
    Finish { begun: u64, time: u64 },
    Abort { begun: u64 },
    /// A message of the other site, with one transaction that adds to the counter.
    Take { lo: u64, hi: u64, amount: u64 },
    Restart,
}

/// A call, and where it is cut off: the number of the disk's call that fails, and how many of its bytes are written.
#[derive(Clone, Copy)]
pub(crate) struct Step<'a> {
    /// As the line has it.
    pub(crate) text: &'a str,
    pub(crate) call: Call,
    pub(crate) cut: Option<(u64, u64)>,
}

/// A word, and up to four numbers behind it; 0 where there are fewer.
#[derive(Clone, Copy)]
pub(crate) struct Words<'a> {
    pub(crate) word: &'a str,
    pub(crate) numbers: [u64; 4],
}

/// The words of a part of a line.
pub(crate) fn words_of(text: &str) -> Words {
    let mut words = Words {
        word: "",
        numbers: [0; 4],
    };
    let mut count: usize = 0;
    for word in text.split(' ') {
        match word.parse::<u64>() {
            Ok(number) => {
                if count < 4 {
                    words.numbers[count] = number;
                    count += 1;
                }
            }
            Err(_) => {
                if words.word.is_empty() {
                    words.word = word;
                }
            }
        }
    }
    words
}

fn call_of(text: &str) -> Option<Call> {
    let words = words_of(text);
    let [first, second, third, _] = words.numbers;
    match words.word {
        "tick" => Some(Call::Tick { clock_time: first }),
        "begin" => Some(Call::Begin),
        "prepare" => Some(Call::Prepare {
            begun: first,
            amount: second,
            lead: third,
        }),
        "decide" => Some(Call::Decide {
            begun: first,
            time: second,
        }),
        "finish" => Some(Call::Finish {
            begun: first,
            time: second,
        }),
        "abort" => Some(Call::Abort { begun: first }),
        "take" => Some(Call::Take {
            lo: first,
            hi: second,
            amount: third,
        }),
        "restart" => Some(Call::Restart),
        _ => None,
    }
}

/// A call, or `cut CALL KEPT:` in front of one.
fn step_of(text: &str) -> Option<Step> {
    match text.split_once(": ") {
        None => Some(Step {
            text,
            call: call_of(text)?,
            cut: None,
        }),
        Some((cut, rest)) => {
            let [call, cut_length, _, _] = words_of(cut).numbers;
            Some(Step {
                text,
                call: call_of(rest)?,
                cut: Some((call, cut_length)),
            })
        }
    }
}

/// The calls of a line, which commas part. One that isn't in the grammar is left out.
pub(crate) fn steps_of(alloc: Global, text: &str) -> Result<Vec<Step>, AllocError> {
    let mut steps = Vec::new(alloc);
    for part in text.split(", ") {
        if let Some(step) = step_of(part) {
            steps.push(step)?;
        }
    }
    Ok(steps)
}
