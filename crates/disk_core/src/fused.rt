// A disk that fails at a call that is picked, and from then on.
ghost use Rattle.std.specs.Prelude.{◌≡◌, ◌≤◌, ◌+◌, ◌-◌, ◌^◌, ◌++◌, ◌↔◌, ◌≢◌, length, take, drop, min, Some, None, is_none, IsTrue, IfOk, OnOk, OnErr};
ghost use Rattle.disk_core.specs.States.{DiskState, Called, GoesOn, IsWithin, Rests, Writes, Cuts, Syncs, MayTear, Rose, bytes_of};
ghost use Rattle.disk_core.specs.Burns.{WritesOrFails};

use crate::fuse::{Burn, burn_down};
use crate::{Disk, Failed};

// Writes the first `keep` bytes, whatever the disk answers.
fn write_front<D: Disk>(disk: &mut D, keep: u64, at: u64, bytes: &[u8])
    requires place { IsWithin at (D.state disk.old) }
    requires room { at + length bytes.now ≤ (D.state disk.old).room }
    ensures goes_on { GoesOn (D.state disk.old) (D.state disk.new) }
    ensures left { is_none (D.state disk.new).left ≡ is_none (D.state disk.old).left }
    ensures front { WritesOrFails at (take keep bytes.now) (D.state disk.old) (D.state disk.new) }
{
    let count = keep.min(bytes.len() as u64) as usize;
    let _ = disk.write_at(at, &bytes[..count]);
}

// The same of the three pieces together.
fn write_front_of_pieces<D: Disk>(
    disk: &mut D,
    keep: u64,
    at: u64,
    front: &[u8],
    middle: &[u8],
    back: &[u8],
)
    requires place { IsWithin at (D.state disk.old) }
    requires room { at + (length front.now + length middle.now + length back.now) ≤ (D.state disk.old).room }
    ensures goes_on { GoesOn (D.state disk.old) (D.state disk.new) }
    ensures left { is_none (D.state disk.new).left ≡ is_none (D.state disk.old).left }
    ensures front { WritesOrFails at (take keep
        (front.now ++ middle.now ++ back.now)) (D.state disk.old) (D.state disk.new) }
{
    let of_front = keep.min(front.len() as u64);
    let of_middle = (keep - of_front).min(middle.len() as u64);
    let of_back = (keep - of_front - of_middle).min(back.len() as u64);
    let _ = disk.write_pieces(
        at,
        &front[..of_front as usize],
        &middle[..of_middle as usize],
        &back[..of_back as usize],
    );
}

/// A disk with a fuse.
///
/// Once armed, the `k`-th call of the device from then on fails, and where that is a write its first `keep` bytes are
/// written. Each later call fails and does nothing, until the fuse is revived or armed again. Every other call is one
/// of the disk inside, which may fail by itself.
#[derive(Drop)]
pub struct Fused<D: Disk + Drop> {
    disk: D,
    left: Option<u64>,
    keep: u64,
    faults: u64,
}

impl<D: Disk + Drop> Fused<D> {
    ghost use Rattle.disk_core.specs.Fuses.{inside, calls_left, cut_length, fused_state, unarmed};

    /// The disk with a fuse that isn't armed.
    pub fn new(disk: D) -> Self
        ensures inside { inside result ≡ disk }
        ensures state { fused_state D.state result ≡ unarmed (D.state disk) }
    {
        Fused {
            disk,
            left: None,
            keep: 0,
            faults: 0,
        }
    }

    /// Arms the fuse: the `k`-th call of the device from now on fails, and where that is a write its first `keep`
    /// bytes are written (all, where there are fewer). With `k` 0 it has fired already.
    pub fn arm(&mut self, k: u64, keep: u64)
        ensures inside { inside self.new ≡ inside self.old }
        ensures keep { cut_length self.new ≡ keep }
        ensures state { fused_state D.state self.new ≡ record (fused_state D.state self.old) { left = Some k; keep = keep } }
    {
        self.left = Some(k);
        self.keep = keep;
    }

    /// Takes a fuse away that has fired. One that hasn't stays as it is.
    pub fn revive(&mut self)
        ensures inside { inside self.new ≡ inside self.old }
        ensures fired { calls_left self.old ≡ Some 0 → fused_state D.state self.new
            ≡ record (fused_state D.state self.old) { left = None } }
        ensures burning { calls_left self.old ≢ Some 0 → self.new ≡ self.old }
    {
        if self.fired() {
            self.left = None;
        }
    }

    /// Whether the fuse has fired.
    pub fn fired(&self) -> bool
        ensures { IsTrue result ↔ (calls_left self.now ≡ Some 0) }
    {
        self.left == Some(0)
    }

    /// The disk inside, without the fuse.
    pub fn into_inner(self) -> D
        ensures { result ≡ inside self }
    {
        self.disk
    }
}

impl<D: Disk + Drop> Disk for Fused<D> {
    ghost use Rattle.disk_core.specs.Fuses.{inside, calls_left, cut_length, fused_state, BurnsDown, fused_faults_fit};

    ghost state = { fused_state D.state };

    ghost room_fits = { λ fused. D.room_fits fused.disk };

    ghost faults_fit = { λ fused. fused_faults_fit D.state fused };

    ghost reads_an_image = { λ fused. D.reads_an_image fused.disk };

    fn room(&self) -> u64 {
        self.disk.room()
    }

    fn len(&mut self) -> Result<u64, Failed>
        ensures called { Called result (fused_state D.state self.old) (fused_state D.state self.new) }
        ensures rests { Rests (fused_state D.state self.old) (fused_state D.state self.new) }
        ensures len { IfOk result (λ n. IsTrue (fused_state D.state self.old).tells
            → n ≡ length (bytes_of (fused_state D.state self.old))) }
        ensures short { IfOk result (λ n. n ≤ (fused_state D.state self.old).room) }
        ensures burns { BurnsDown D.state result self.old self.new }
        ensures apart { calls_left self.old ≡ Some 1 → inside self.new ≡ inside self.old }
    {
        match burn_down(&mut self.left, &mut self.faults) {
            Burn::Passes => self.disk.len(),
            Burn::Fires | Burn::Fired => Err(Failed),
        }
    }

    fn read(&mut self, at: u64, buf: &mut [u8]) -> Result<(), Failed>
        requires { IsTrue (fused_state D.state self.old).tells
            → at + length buf.old ≤ length (bytes_of (fused_state D.state self.old)) }
        ensures called { Called result (fused_state D.state self.old) (fused_state D.state self.new) }
        ensures rests { Rests (fused_state D.state self.old) (fused_state D.state self.new) }
        ensures bytes { OnOk result (IsTrue (fused_state D.state self.old).tells
            → buf.new ≡ take (length buf.old) (drop at (bytes_of (fused_state D.state self.old)))) }
        ensures burns { BurnsDown D.state result self.old self.new }
        ensures apart { calls_left self.old ≡ Some 1 → inside self.new ≡ inside self.old }
    {
        match burn_down(&mut self.left, &mut self.faults) {
            Burn::Passes => self.disk.read(at, buf),
            Burn::Fires | Burn::Fired => Err(Failed),
        }
    }

    fn write_at(&mut self, at: u64, bytes: &[u8]) -> Result<(), Failed>
        requires place { IsWithin at (fused_state D.state self.old) }
        requires room { at + length bytes.now ≤ (fused_state D.state self.old).room }
        ensures called { Called result (fused_state D.state self.old) (fused_state D.state self.new) }
        ensures written { OnOk result (Writes at bytes.now (fused_state D.state self.old)
            (fused_state D.state self.new)) }
        ensures torn { OnErr result (MayTear at (length bytes.now) (fused_state D.state self.old)
            (fused_state D.state self.new)) }
        ensures burns { BurnsDown D.state result self.old self.new }
        ensures front { calls_left self.old ≡ Some 1 → WritesOrFails at (take (cut_length self.old) bytes.now)
            (D.state (inside self.old)) (D.state (inside self.new)) }
    {
        match burn_down(&mut self.left, &mut self.faults) {
            Burn::Passes => self.disk.write_at(at, bytes),
            Burn::Fires => {
                write_front(&mut self.disk, self.keep, at, bytes);
                Err(Failed)
            }
            Burn::Fired => Err(Failed),
        }
    }

    fn write_pieces(
        &mut self,
        at: u64,
        front: &[u8],
        middle: &[u8],
        back: &[u8],
    ) -> Result<(), Failed>
        requires place { IsWithin at (fused_state D.state self.old) }
        requires room { at + (length front.now + length middle.now + length back.now) ≤
            (fused_state D.state self.old).room }
        ensures called { Called result (fused_state D.state self.old) (fused_state D.state self.new) }
        ensures written { OnOk result (Writes at
            (front.now ++ middle.now ++ back.now) (fused_state D.state self.old) (fused_state D.state self.new)) }
        ensures torn { OnErr result (MayTear at (length
            (front.now ++ middle.now ++ back.now)) (fused_state D.state self.old) (fused_state D.state self.new)) }
        ensures burns { BurnsDown D.state result self.old self.new }
        ensures front { calls_left self.old ≡ Some 1 → WritesOrFails at (take (cut_length self.old)
            (front.now ++ middle.now ++ back.now)) (D.state (inside self.old)) (D.state (inside self.new)) }
    {
        match burn_down(&mut self.left, &mut self.faults) {
            Burn::Passes => self.disk.write_pieces(at, front, middle, back),
            Burn::Fires => {
                write_front_of_pieces(&mut self.disk, self.keep, at, front, middle, back);
                Err(Failed)
            }
            Burn::Fired => Err(Failed),
        }
    }

    fn cut(&mut self, len: u64) -> Result<(), Failed>
        requires { IsWithin len (fused_state D.state self.old) }
        ensures called { Called result (fused_state D.state self.old) (fused_state D.state self.new) }
        ensures cut { OnOk result (Cuts len (fused_state D.state self.old) (fused_state D.state self.new)) }
        ensures rests { OnErr result (Rests (fused_state D.state self.old) (fused_state D.state self.new)) }
        ensures burns { BurnsDown D.state result self.old self.new }
        ensures apart { calls_left self.old ≡ Some 1 → inside self.new ≡ inside self.old }
    {
        match burn_down(&mut self.left, &mut self.faults) {
            Burn::Passes => self.disk.cut(len),
            Burn::Fires | Burn::Fired => Err(Failed),
        }
    }

    fn sync(&mut self) -> Result<(), Failed>
        ensures called { Called result (fused_state D.state self.old) (fused_state D.state self.new) }
        ensures durable { OnOk result (Syncs (fused_state D.state self.old) (fused_state D.state self.new)) }
        ensures rests { OnErr result (Rests (fused_state D.state self.old) (fused_state D.state self.new)) }
        ensures burns { BurnsDown D.state result self.old self.new }
        ensures apart { calls_left self.old ≡ Some 1 → inside self.new ≡ inside self.old }
    {
        match burn_down(&mut self.left, &mut self.faults) {
            Burn::Passes => self.disk.sync(),
            Burn::Fires | Burn::Fired => Err(Failed),
        }
    }

    fn starved(&self) -> bool {
        self.disk.starved()
    }
}
