//! What was written goes, where it is known for which variables anything was.

ghost use Rattle.std.specs.Prelude.{◌≡◌, length, replicate, None};
ghost use Rattle.vc_session_evaluation.specs.Writing.{IsBlankBeside};

use vc_proc::Overlay;

/// Takes all away that was written; nothing was but for these variables.
pub fn clear_at(vars: &[u32], overlay: &mut Overlay)
    requires { IsBlankBeside vars.now overlay.old }
    ensures { overlay.new ≡ replicate (length overlay.old) None }
{
    let mut rest = vars;
    while let [var, more @ ..] = rest {
        overlay.enter(*var, None);
        rest = more;
    }
}
