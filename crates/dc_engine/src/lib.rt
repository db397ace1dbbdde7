//! The engine of the data centre: it plays a script from a source of bytes to a sink of bytes.
#![tactic(auto)]

mod fault;
mod format;
mod framing;
mod ground;
mod laws;
mod player;
mod responder;
mod script;
mod status;
mod streams;
mod top;
mod unanswered;
mod words;

pub use format::Format;
pub use framing::Framing;
pub use laws::{law_bodies, law_frames, law_one_reply, law_statuses};
pub use status::Status;
pub use streams::edge::{ReaderSource, WriterSink};
pub use streams::memory::{Calls, SliceSource, VecSink};
pub use streams::sink::Sink;
pub use streams::source::{Failed, Source};
pub use top::{play, run};
pub use words::run_words;
