ghost use Rattle.std.specs.Prelude.{◌≡◌, ◌≤◌, ℕ, List, Option, length, take};
ghost use Rattle.voy_disk.specs.Calls.{Change};
ghost use Rattle.voy_disk.specs.File.{File, IsImage};
ghost use Rattle.voy_disk.specs.FileLaws.{IsFrontSettled};
ghost use Rattle.voy_disk.specs.Files.{Files, IfTold};
ghost use Rattle.voy_disk.specs.Frames.{EitherOf, KeepsBeside, OneName};
ghost use Rattle.voy_disk.specs.Images.{Image, ImagesOf, IsSettled, Outage};
ghost use Rattle.voy_disk.specs.Steps.{Follows, Same, StaysTold};

/// What one call leaves beside one name, and the next beside another, both leave beside the two names.
pub fn frames_add_up()
    ensures images { (first second : List ℕ) (i j k : Image) → KeepsBeside (OneName first) i j → KeepsBeside (OneName second) j k
        → KeepsBeside (EitherOf (OneName first) (OneName second)) i k }
    ensures files { (first second : List ℕ) (x y z : Files) → KeepsBeside (OneName first) x y → KeepsBeside (OneName second) y z
        → KeepsBeside (EitherOf (OneName first) (OneName second)) x z }
{}

/// A front of a file that is the same in every image is touched by no range.
pub fn fronts_are_settled()
    ensures { (file : File) → IsImage file file.now → (n : ℕ) → n ≤ length file.now
        → ((image : List ℕ) → IsImage file image → take n image ≡ take n file.now) → IsFrontSettled n file }
{}

/// After an outage, on a disk that tells its files or does not, there is no image that could not have been before, nothing
/// is touched, and what was told is told.
#[tactic(auto, using(crate::specs::OutageLaws::outage_follows, crate::specs::OutageLaws::outage_stays_told))]
pub fn outages_settle()
    ensures images { (old new : Option Files) → Change Outage old new → Follows Same (ImagesOf old) (ImagesOf new) }
    ensures settled { (old new : Option Files) → Change Outage old new → IfTold new IsSettled }
    ensures told { (old new : Option Files) → Change Outage old new → StaysTold (ImagesOf old) (ImagesOf new) }
{}
