ghost use Rattle.std.specs.Prelude.{◌≡◌, ◌≤◌, ◌⊎◌, ◌++◌, ℕ, List, true, length, take, slice_set};
ghost use Rattle.disk_core.specs.Images.{Content, Image, IsTorn, is_written, after_write, after_cut, after_sync};

/// What a crash may leave: any byte in a range that was written since the last sync and past the least length since
/// then, and any length between that and the greatest since then.
pub fn law_images()
    ensures bytes { (content : Content) (image : List ℕ) (i byte : ℕ)
        → (is_written content.written i ≡ true) ⊎ (content.least ≤ i)
        → Image content image → Image content (slice_set image i byte) }
    ensures shorter { (content : Content) (image : List ℕ) (len : ℕ) → content.least ≤ len → Image content image
        → Image content (take len image) }
    ensures longer { (content : Content) (image more : List ℕ) → length (image ++ more) ≤ content.most
        → Image content image → Image content (image ++ more) }
{}

/// A crash inside a call leaves nothing that one after it couldn't leave: before a write and amid it, and before a cut. After a
/// sync it leaves what a read gives.
pub fn law_moments()
    ensures before_write { (at : ℕ) (bytes : List ℕ) (content : Content) (image : List ℕ) → at ≤ length content.bytes
        → Image content image → Image (after_write at bytes content) image }
    ensures amid_write { (at count : ℕ) (bytes : List ℕ) (content torn : Content) (image : List ℕ)
        → at ≤ length content.bytes → count ≤ length bytes
        → content.least ≤ length content.bytes → IsTorn at count content torn → Image torn image
        → Image (after_write at bytes content) image }
    ensures before_cut { (len : ℕ) (content : Content) (image : List ℕ) → Image content image
        → Image (after_cut len content) image }
    ensures after_sync { (content : Content) (image : List ℕ) → Image (after_sync content) image
        → image ≡ content.bytes }
{}
