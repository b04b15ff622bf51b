// Files that the front accepts.

ghost use Rattle.std.specs.Prelude.{◌≡◌, IsTrue, IfSome, map};
ghost use Rattle.std.specs.List.{AllByRecursion};
ghost use Rattle.jr_base.specs.Files.{plain};
ghost use Rattle.jr_base.specs.Paths.{is_java};
ghost use Rattle.jr_engine.specs.Steps.{IsHeld, IsRead};

use jr_base::{Files, Path};
use jr_front::Workspace;

/// Files that the front accepts, and their program.
#[derive(Drop)]
pub struct Left {
    pub files: Files,
    pub program: Workspace,
}

// All paths end in `.java`.
fn are_java(files: &[(Path, Vec<u8>)]) -> bool
    ensures { IsTrue result → AllByRecursion (λ path. IsTrue (is_java path)) (map (λ e. e.0) (plain files.now)) }
{
    let mut rest = files;
    while let [(path, _), after @ ..] = rest {
        if !path.is_java() {
            return false;
        }
        rest = after;
    }
    true
}

impl Left {
    #[tactic(auto, using(crate::proofs::Stepping::held_so))]
    /// The files that were opened; None where a path does not end in `.java`.
    pub fn of(files: Files, program: Workspace) -> Option<Left>
        requires { IsRead files program }
        ensures files { IfSome result (λ left. left.files ≡ files) }
        ensures program { IfSome result (λ left. left.program ≡ program) }
        ensures held { IfSome result IsHeld }
    {
        if are_java(files.entries()) {
            Some(Left { files, program })
        } else {
            None
        }
    }
}
