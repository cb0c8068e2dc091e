ghost use Rattle.std.specs.Prelude.{◌≡◌};
ghost use Rattle.esc_egraph.specs.declared.record.EgraphRec.{EgraphRec};

/// What takes one change of a graph back.
#[derive(Clone, Copy)]
pub enum EgraphRec {
    /// The last node was made.
    Made,
    /// The last merge was made.
    Merged,
    /// The last pair was forbidden.
    Forbidden,
}

/// A record of the whole trail, which can hold a record of a graph.
pub trait CarriesNodes: Copy {
    ghost carried_node: { EgraphRec → Self };

    fn carry_node(rec: EgraphRec) -> Self
        ensures { result ≡ carried_node rec };
}

impl CarriesNodes for EgraphRec {
    ghost carried_node = { λ rec. rec };

    fn carry_node(rec: EgraphRec) -> EgraphRec {
        rec
    }
}
