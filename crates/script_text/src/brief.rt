ghost use Rattle.std.specs.Prelude.{◌≡◌};
ghost use Rattle.script_text.specs.declared.Parsed.{Parsed};
ghost use Rattle.script_text.specs.Brief.{command_of};

use crate::Parsed;
use site_vector::{PartId, TxId};
use world_model::Command;

/// A command that keeps no text, as it is read: a sixth of what a command takes, so that its moves cost next to nothing.
#[derive(Clone, Copy, Debug)]
pub enum Brief {
    Cluster {
        sites: u8,
        parts: u8,
    },
    Clock {
        part: PartId,
        n: u64,
    },
    Expire {
        part: PartId,
        tx: TxId,
    },
    Settle {
        part: PartId,
    },
    Send {
        part: PartId,
        site: u8,
        from: Option<u64>,
    },
    Deliver {
        number: u64,
    },
    DropMessage {
        number: u64,
    },
    DropReport {
        number: u64,
    },
    Report {
        part: PartId,
    },
    Hear {
        number: u64,
        part: PartId,
    },
    Crash {
        part: PartId,
    },
    Fuse {
        part: PartId,
        call: u64,
        keep: u64,
    },
    Restart {
        part: PartId,
    },
}

/// Puts a command into the place of a line. A function that did so itself would be dear to prove: what it drops is a
/// command of any name.
#[inline(always)]
pub fn put(parsed: &mut Parsed, command: Command)
    ensures { parsed.new ≡ Parsed.Command command }
{
    *parsed = Parsed::Command(command);
}

impl Brief {
    /// The command.
    fn command(self) -> Command
        ensures { result ≡ command_of self }
    {
        match self {
            Brief::Cluster { sites, parts } => Command::Cluster { sites, parts },
            Brief::Clock { part, n } => Command::Clock { part, n },
            Brief::Expire { part, tx } => Command::Expire { part, tx },
            Brief::Settle { part } => Command::Settle { part },
            Brief::Send { part, site, from } => Command::Send { part, site, from },
            Brief::Deliver { number } => Command::Deliver { number },
            Brief::DropMessage { number } => Command::DropMessage { number },
            Brief::DropReport { number } => Command::DropReport { number },
            Brief::Report { part } => Command::Report { part },
            Brief::Hear { number, part } => Command::Hear { number, part },
            Brief::Crash { part } => Command::Crash { part },
            Brief::Fuse { part, call, keep } => Command::Fuse { part, call, keep },
            Brief::Restart { part } => Command::Restart { part },
        }
    }
}

/// Puts the command into the place of a line. One value of a command is made for all that may be: else each is set to zero.
pub fn put_brief(parsed: &mut Parsed, brief: Brief)
    ensures { parsed.new ≡ Parsed.Command (command_of brief) }
{
    put(parsed, brief.command());
}
