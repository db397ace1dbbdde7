//! The law that the replies are a function of the script, and of what the disks tell.
#![tactic(auto)]

ghost use Rattle.one_run.specs.Leases.{LawLeases};
ghost use Rattle.one_run.specs.OneRun.{LawOneLawful, LawOneRun, LawOneTold};

/// Two runs that answer one script, of lines that are lawful at each moment, in which disks tell the same, are one; and
/// where no disk tells anything, the script alone tells the run. So it is where some run of the world shows the lines. The
/// function does nothing: its contract is the law.
pub fn law_one_run<S, E>()
    ensures told { LawOneTold }
    ensures lawful { LawOneLawful }
    ensures law { LawOneRun S E }
{}

/// Of lawful lines a restart shows the time of its partition's last lease, where no line before it tells of a disk.
pub fn law_leases()
    ensures leases { LawLeases }
{}
