ghost use Rattle.std.specs.Prelude.{◌≡◌};
ghost use Rattle.pb_buses.specs.Edges.{edge_of, has_edge};

use pb_names::edge;

/// Which changes of an input count: the setting of SET_EDGE, RST_EDGE and TRIG_EDGE.
#[derive(Clone, Copy, Debug, PartialEq, Eq)]
pub enum Edge {
    Rising,
    Falling,
    Either,
}

impl Edge {
    /// The edge of a raw value of the setting. What is no raw value of it counts as `Rising`.
    pub fn new(raw: u64) -> Edge
        ensures { result ≡ edge_of raw }
    {
        if raw == u64::from(edge::FALLING) {
            Edge::Falling
        } else if raw == u64::from(edge::EITHER) {
            Edge::Either
        } else {
            Edge::Rising
        }
    }

    /// Whether an input that was `before` and is `seen` has this edge.
    pub fn is_at(self, before: bool, seen: bool) -> bool
        ensures { result ≡ has_edge self before seen }
    {
        match self {
            Edge::Rising => seen && !before,
            Edge::Falling => before && !seen,
            Edge::Either => before != seen,
        }
    }
}
