//! What two paths have in common.
ghost use Rattle.std.specs.Prelude.{◌≡◌, ◌≤◌, length};
ghost use Rattle.pt_plan.specs.TurnMake.{common_names};

use pt_tree::Name;

/// How many names two paths begin with alike.
pub fn alike_names(path: &[Name], other: &[Name]) -> usize
    ensures alike { result ≡ common_names path.now other.now }
    ensures within { result ≤ length path.now }
{
    let [name, path @ ..] = path else {
        return 0;
    };
    let [first, other @ ..] = other else {
        return 0;
    };
    if name == first {
        1 + alike_names(path, other)
    } else {
        0
    }
}
