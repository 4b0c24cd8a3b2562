//! The way back from an object to its site.
ghost use Rattle.std.specs.Prelude.{◌<◌, length};
ghost use Rattle.pt_state.specs.States.{IsBack};

use pt_object::{Contents, Rows};
use pt_walk::Trail;

/// Forgets an object, and goes back to the start of its site, whose listing is the innermost.
pub fn back_to_site(trail: &mut Trail, rows: &mut Rows, contents: &mut Contents)
    requires { 0 < length trail.old }
    ensures { IsBack trail.old trail.new rows.new contents.new }
{
    trail.seek(0);
    rows.clear();
    contents.clear();
}
