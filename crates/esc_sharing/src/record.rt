//! What takes the changes of a sharing back.

ghost use Rattle.std.specs.Prelude.{◌≡◌};
ghost use Rattle.esc_sharing.specs.declared.record.ShareRec.{ShareRec};

use esc_distinct::{CarriesGroups, GroupRec};
use esc_egraph::{CarriesNodes, EgraphRec};
use esc_trail::Carries;

/// What takes one change of a sharing's own lists back.
#[derive(Clone, Copy)]
pub enum ShareRec {
    /// The newest literal was asserted.
    Asserted,
    /// The newest pair was told.
    Told,
}

/// A record of one of the parts, where `Q` is the record of the theory.
#[derive(Clone, Copy)]
pub enum PartRec<Q> {
    Nodes(EgraphRec),
    Groups(GroupRec),
    Lists(ShareRec),
    Theory(Q),
}

/// A record of the whole trail, which can hold a record of a sharing's own lists.
pub trait CarriesShare: Copy {
    ghost carried_share: { ShareRec → Self };

    fn carry_share(rec: ShareRec) -> Self
        ensures { result ≡ carried_share rec };
}

impl<Q: Copy> CarriesNodes for PartRec<Q> {
    ghost use Rattle.esc_sharing.specs.declared.record.PartRec.TheVariants.{Nodes};

    ghost carried_node = { λ rec. Nodes rec };

    fn carry_node(rec: EgraphRec) -> PartRec<Q> {
        PartRec::Nodes(rec)
    }
}

impl<Q: Copy> CarriesGroups for PartRec<Q> {
    ghost use Rattle.esc_sharing.specs.declared.record.PartRec.TheVariants.{Groups};

    ghost carried_group = { λ rec. Groups rec };

    fn carry_group(rec: GroupRec) -> PartRec<Q> {
        PartRec::Groups(rec)
    }
}

impl<Q: Copy> CarriesShare for PartRec<Q> {
    ghost use Rattle.esc_sharing.specs.declared.record.PartRec.TheVariants.{Lists};

    ghost carried_share = { λ rec. Lists rec };

    fn carry_share(rec: ShareRec) -> PartRec<Q> {
        PartRec::Lists(rec)
    }
}

impl<Q: Copy> Carries<Q> for PartRec<Q> {
    ghost use Rattle.esc_sharing.specs.declared.record.PartRec.TheVariants.{Theory};

    ghost carried = { λ rec. Theory rec };

    fn carry(rec: Q) -> PartRec<Q> {
        PartRec::Theory(rec)
    }
}
