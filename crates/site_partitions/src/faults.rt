// Crashes, restarts and fuses.
ghost use Rattle.std.specs.Prelude.{◌≡◌};
ghost use Rattle.world_model.specs.lines.Places.{IsPlace};
ghost use Rattle.site_partitions.specs.Faults.{CrashesAt, RestartsAt};
ghost use Rattle.site_partitions.specs.Reaches.{types_of};

use crate::Sites;
use crate::sites::index_of;
use crdt_core::Crdt;
use disk_core::{Disk, Fused};
use partition_core::{RestartError, Restarted};
use site_vector::PartId;

impl<C: Crdt, D: Disk + Drop> Sites<C, D> {
    /// Stops a partition, also where it is down already. Its disk isn't touched.
    pub fn crash_at(&mut self, at: PartId)
        requires { IsPlace self.old.sites self.old.parts at }
        ensures { CrashesAt (types_of C.laws C.spells D.state) self.old self.new at }
    {
        let i = index_of(at, self.sites, self.parts);
        self.partitions[i].crash();
    }

    /// Has a partition come up again from the log of its disk, also where it is up.
    ///
    /// # Errors
    ///
    /// As the partition's: it is down then, as after a crash inside the restart.
    pub fn restart_at(&mut self, at: PartId) -> Result<Restarted, RestartError>
        requires { IsPlace self.old.sites self.old.parts at }
        ensures { RestartsAt (types_of C.laws C.spells D.state) self.old self.new at result }
    {
        let i = index_of(at, self.sites, self.parts);
        self.partitions[i].restart(self.alloc)
    }
}

impl<C: Crdt, D: Disk + Drop> Sites<C, Fused<D>> {
    ghost use Rattle.disk_core.specs.Fuses.{fused_state};
    ghost use Rattle.site_partitions.specs.Faults.{ArmsAt, RevivesAt};

    /// Arms the fuse of a partition's disk: of its calls from now on the one with this number, from 1, fails, and all
    /// later ones. Where it writes, at most the first `keep` bytes are written.
    pub fn arm_at(&mut self, at: PartId, k: u64, keep: u64)
        requires { IsPlace self.old.sites self.old.parts at }
        ensures { ArmsAt (types_of C.laws C.spells (fused_state D.state)) self.old self.new at k keep }
    {
        let i = index_of(at, self.sites, self.parts);
        self.partitions[i].arm(k, keep);
    }

    /// Takes the fuse of a partition's disk away where it has fired.
    pub fn revive_at(&mut self, at: PartId)
        requires { IsPlace self.old.sites self.old.parts at }
        ensures { RevivesAt (types_of C.laws C.spells (fused_state D.state)) self.old self.new at }
    {
        let i = index_of(at, self.sites, self.parts);
        self.partitions[i].revive();
    }
}
