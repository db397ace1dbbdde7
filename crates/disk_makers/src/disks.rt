// What a maker of disks is.
ghost use Rattle.std.specs.Prelude.{◌≡◌, ◌≤◌, ◌-◌, ◌^◌, ℕ, List, Err, OnOk, OnErr};
ghost use Rattle.disk_makers.specs.Makers.{Maker, Makes, MakesAll, MakesSound, KeepsOn, TakesBack};

use crate::MakeFault;
use disk_core::Disk;
use site_vector::PartId;
use std::alloc::{AllocError, Global};

/// Whoever makes the disk of each partition, and gets it back.
///
/// Its state tells a count of faults that never falls, how many disks are out, and, where it keeps them, the disks that
/// were given back. A call answers `Failed` only where the count rose.
pub trait Disks {
    type Disk: Disk + Drop;

    ghost state: { Self → Maker Self.Disk };

    /// `makes_all m`: m fails to make no disk, but where memory runs out.
    ghost makes_all: { Self → Type 0 };

    /// `sound m`: each disk that m makes fails only where it finds no memory to grow.
    ghost sound: { Self → Type 0 };

    /// `keeps_in m folder`: what m makes from now on is kept in this folder, if m keeps disks in folders at all.
    ghost keeps_in: { Self → List ℕ → Type 0 };

    /// From now on each disk is kept in a new file of this folder, which is there, under the name of its partition, as
    /// `1.2.log`. Whoever makes disks in memory alone goes on with these.
    ///
    /// # Errors
    ///
    /// `AllocError` where memory runs out. The maker is as before then.
    fn keep_in(&mut self, alloc: Global, folder: &str) -> Result<(), AllocError>
        ensures kept { OnOk result (keeps_in self.new folder.now) }
        ensures state { state self.new ≡ state self.old }
        ensures same { OnErr result (self.new ≡ self.old) };

    /// Makes the disk of a partition. It is formatted, holds no record and has met no fault.
    ///
    /// # Errors
    ///
    /// `Failed` where the disk can't be made, and `NoMemory` where memory runs out. No disk is out for it then.
    fn make(&mut self, alloc: Global, part: PartId) -> Result<Self::Disk, MakeFault>
        ensures makes { Makes Self.Disk.state result (state self.old) (state self.new) }
        ensures makes_all { MakesAll makes_all (result ≡ Err MakeFault.Failed) self.old self.new }
        ensures sound { MakesSound sound Self.Disk.state result self.old self.new }
        ensures keeps { KeepsOn keeps_in self.old self.new };

    /// Takes back the disk of a partition, where one is out. Takes no memory: its place was taken when it was made.
    fn give_back(&mut self, part: PartId, disk: Self::Disk)
        requires { 1 ≤ (state self.old).out }
        ensures takes { TakesBack part disk (state self.old) (state self.new) }
        ensures makes_all { makes_all self.old → makes_all self.new }
        ensures sound { sound self.old → sound self.new }
        ensures keeps { KeepsOn keeps_in self.old self.new };

    ghost faults_fit: { (maker : Self) → (state maker).faults ≤ 2 ^ 64 - 1 };
}
