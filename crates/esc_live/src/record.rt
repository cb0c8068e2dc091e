//! What takes the changes of a branch back.

use esc_book::BookRec;
use esc_clause::ClauseRec;
use esc_distinct::{CarriesGroups, GroupRec};
use esc_egraph::{CarriesNodes, EgraphRec};
use esc_sharing::{CarriesShare, PartRec, ShareRec};
use esc_simplex::SimplexRec;
use esc_trail::Carries;

/// What takes one change of a branch back.
#[derive(Clone, Copy)]
pub enum LiveRec {
    Shared(PartRec<SimplexRec>),
    Clauses(ClauseRec),
    Book(BookRec),
    /// The newest literal was asserted.
    Literal,
}

impl CarriesNodes for LiveRec {
    ghost use Rattle.esc_live.specs.declared.record.LiveRec.TheVariants.{Shared};
    ghost use Rattle.esc_sharing.specs.declared.record.PartRec.TheVariants.{Nodes};

    ghost carried_node = { λ rec. Shared (Nodes rec) };

    fn carry_node(rec: EgraphRec) -> LiveRec {
        LiveRec::Shared(PartRec::Nodes(rec))
    }
}

impl CarriesGroups for LiveRec {
    ghost use Rattle.esc_live.specs.declared.record.LiveRec.TheVariants.{Shared};
    ghost use Rattle.esc_sharing.specs.declared.record.PartRec.TheVariants.{Groups};

    ghost carried_group = { λ rec. Shared (Groups rec) };

    fn carry_group(rec: GroupRec) -> LiveRec {
        LiveRec::Shared(PartRec::Groups(rec))
    }
}

impl CarriesShare for LiveRec {
    ghost use Rattle.esc_live.specs.declared.record.LiveRec.TheVariants.{Shared};
    ghost use Rattle.esc_sharing.specs.declared.record.PartRec.TheVariants.{Lists};

    ghost carried_share = { λ rec. Shared (Lists rec) };

    fn carry_share(rec: ShareRec) -> LiveRec {
        LiveRec::Shared(PartRec::Lists(rec))
    }
}

impl Carries<SimplexRec> for LiveRec {
    ghost use Rattle.esc_live.specs.declared.record.LiveRec.TheVariants.{Shared};
    ghost use Rattle.esc_sharing.specs.declared.record.PartRec.TheVariants.{Theory};

    ghost carried = { λ rec. Shared (Theory rec) };

    fn carry(rec: SimplexRec) -> LiveRec {
        LiveRec::Shared(PartRec::Theory(rec))
    }
}

impl Carries<ClauseRec> for LiveRec {
    ghost use Rattle.esc_live.specs.declared.record.LiveRec.TheVariants.{Clauses};

    ghost carried = { λ rec. Clauses rec };

    fn carry(rec: ClauseRec) -> LiveRec {
        LiveRec::Clauses(rec)
    }
}

impl Carries<BookRec> for LiveRec {
    ghost use Rattle.esc_live.specs.declared.record.LiveRec.TheVariants.{Book};

    ghost carried = { λ rec. Book rec };

    fn carry(rec: BookRec) -> LiveRec {
        LiveRec::Book(rec)
    }
}
