// What the contracts come to together, as laws: each function's contract is a fact, and its body is empty.
ghost use Rattle.std.specs.Prelude.{◌≤◌, ℕ, List};
ghost use Rattle.cache_model.specs.Files.{Image};
ghost use Rattle.cache_model.specs.Images.{IsSound};
ghost use Rattle.cache_model.specs.Plain.{Plain};
ghost use Rattle.cache_model.specs.Numbers.{Opens};
ghost use Rattle.cache_disk.specs.State.{SameFiles};
ghost use Rattle.cache_disk.specs.Calls.{AllLeft};
ghost use Rattle.cache_cli.specs.Talk.{Course, HoldsThroughout, FitsTalk};
ghost use Rattle.cache_cli.specs.Composing.{ReadsOn};

use cache_disk::Host;

/// Runs compose: what a crash leaves at any turn of a run is a directory that the next run may begin on, and it opens
/// with the entries and the mark of what was left. Where a talk was said by then, each key is visible in the next run's
/// map as after a prefix of its changes by that talk, which holds every change that an answer promised.
pub fn runs_compose<H: Host>()
    ensures begins { (from to next : H) (course : Course) (turn : ℕ) (image : Image)
        → HoldsThroughout (H.state from) (H.state to) course
        → (H.state from).turn ≤ turn → turn ≤ (H.state to).turn → (H.state to).left turn image
        → AllLeft (H.state next) (λ left. SameFiles image left)
        → AllLeft (H.state next) (λ left. IsSound left) }
    ensures opens { (next : H) (given : ℕ) (image : Image) (plain : Plain)
        → SameFiles image (H.state next).files → Opens (H.state next).files given plain → Opens image given plain }
    ensures reads { (next to : H) (again : ℕ) (course : Course) (said : List ℕ) (image : Image) (plain : Plain)
        → (fits : FitsTalk course (H.state to) said image)
        → SameFiles image (H.state next).files → Opens (H.state next).files again plain
        → (key : List ℕ) → ReadsOn course.synced fits.talk fits.left plain key }
{}
