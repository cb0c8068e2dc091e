//! What fails goes from the clauses of a branch.

ghost use Rattle.std.specs.Prelude.{IfOk};
ghost use Rattle.esc_trail.specs.Undo.{Notes};
ghost use Rattle.esc_live.specs.LiveUndo.{live_undo};
ghost use Rattle.esc_live.specs.Promises.{IsBranch};
ghost use Rattle.esc_refine.specs.ThinningInside.{IsThinner, Tells};

use esc_book::BookJudge;
use esc_clause::Refined;
use esc_live::{LiveBranch, LiveRec};
use esc_said::{Saying, saying_laws};
use esc_sharing::{model_laws, unquantified_laws};
use esc_trail::Trail;
use std::alloc::AllocError;

/// Drops what fails from the clauses, and tells what they come to. It fails only where memory is
/// wanting.
pub(crate) fn thin(
    branch: &mut LiveBranch,
    trail: &mut Trail<LiveRec>,
) -> Result<Refined, AllocError>
    requires branch { IsBranch branch.old }
    ensures thinner { IsThinner branch.old branch.new }
    ensures branch { IfOk result (λ told. IsBranch branch.new) }
    ensures tells { IfOk result (Tells branch.old branch.new) }
    ensures undo { Notes live_undo (λ rec. rec) trail.old.records trail.new.records
        branch.old branch.new }
{
    saying_laws();
    model_laws();
    unquantified_laws();
    let judge = BookJudge {
        book: &branch.book,
        saying: Saying {
            graph: branch.sharing.graph(),
            groups: branch.sharing.groups(),
            asserted: branch.sharing.asserted(),
        },
        literals: &branch.literals,
    };
    branch.clauses.refine(&judge, trail)
}
