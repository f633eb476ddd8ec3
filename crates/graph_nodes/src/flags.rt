//! Sets of flags.
ghost use Rattle.std.specs.Prelude.{◌≡◌, ◌<◌};
ghost use Rattle.graph_nodes.specs.Graphs.{has_flag};

/// Whether a set, N 8, Z 4, C 2 and V 1, has the flag of a number below 4: N 3, Z 2, C 1 and V 0.
pub fn has_flag(set: u8, flag: u8) -> bool
    requires { flag < 4 }
    ensures { result ≡ has_flag set flag }
{
    (set >> flag) % 2 == 1
}
