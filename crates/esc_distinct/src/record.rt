ghost use Rattle.std.specs.Prelude.{◌≡◌};
ghost use Rattle.esc_distinct.specs.declared.record.GroupRec.{GroupRec};

/// What takes one change of the groups back.
#[derive(Clone, Copy)]
pub enum GroupRec {
    /// The last group was added.
    Added,
}

/// A record of the whole trail, which can hold a record of the groups.
pub trait CarriesGroups: Copy {
    ghost carried_group: { GroupRec → Self };

    fn carry_group(rec: GroupRec) -> Self
        ensures { result ≡ carried_group rec };
}

impl CarriesGroups for GroupRec {
    ghost carried_group = { λ rec. rec };

    fn carry_group(rec: GroupRec) -> GroupRec {
        rec
    }
}
