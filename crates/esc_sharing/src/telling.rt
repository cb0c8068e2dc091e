//! The theory is told what the classes join.

ghost use Rattle.std.specs.Prelude.{◌≡◌, ℕ, ◌<◌, [], ◌∷◌, ◌++◌, length, IfErr, IfOk, Ok, OnErr};
ghost use Rattle.std.specs.Prelude.{OnOk};
ghost use Rattle.std.specs.List.{All};
ghost use Rattle.esc_egraph.specs.Graph.{number_of};
ghost use Rattle.esc_sharing.specs.KnownInside.{AreKnownBy, AreLabeled, KnowsMore, label_at};
ghost use Rattle.esc_sharing.specs.KnownInside.{StartsAt, node_at};
ghost use Rattle.esc_sharing.specs.Nodes.{node_count};
ghost use Rattle.esc_sharing.specs.Numbers.{number_terms};
ghost use Rattle.esc_sharing.specs.SettlingInside.{AllAgree, AreSeated, IsOrder, IsUnsettled};
ghost use Rattle.esc_sharing.specs.SettlingInside.{Keeps};
ghost use Rattle.esc_sharing.specs.Calls.{StepEnds};
ghost use Rattle.esc_sharing.specs.Shared.{AreToldIn, seen};
ghost use Rattle.esc_sharing.specs.SharingUndo.{part_carried};
ghost use Rattle.esc_sharing.specs.Stops.{UnlessMemory};

use crate::known::relabel;
use crate::record::{CarriesShare, ShareRec};
use crate::sharing::Sharing;
use crate::theory::Theory;
use esc_distinct::CarriesGroups;
use esc_egraph::{CarriesNodes, Node, State};
use esc_simplex::Stop;
use esc_trail::{Carries, Trail};
use std::alloc::AllocError;

/// Two known nodes of one class, by their places among the known ones: the first of the class, and
/// one that may be told to be equal to it, at its turn.
#[derive(Clone, Copy)]
pub(crate) struct Telling {
    pub(crate) turn: usize,
    pub(crate) first: usize,
    pub(crate) later: usize,
}

impl<T: Theory> Sharing<T> {
    /// Tells the theory all that the classes join and that it does not know.
    pub(crate) fn tell_all<R: CarriesNodes + CarriesGroups + CarriesShare + Carries<T::Rec>>(
        &mut self,
        known: &mut [(Node, usize)],
        trail: &mut Trail<R>,
    ) -> Result<State, Stop>
        requires unsettled { IsUnsettled (seen T.sound T.admits T.numbers self.old)
            (AreKnownBy known.old) }
        requires labeled { AreLabeled (T.numbers self.old.theory) known.old }
        ensures ends { StepEnds (seen T.sound T.admits T.numbers self.new)
            (IsUnsettled (seen T.sound T.admits T.numbers self.new) (AreKnownBy known.new))
            result }
        ensures agree { result ≡ Ok State.Open →
            AllAgree (seen T.sound T.admits T.numbers self.new) }
        ensures more { KnowsMore known.old known.new }
        ensures graph { self.new.graph ≡ self.old.graph }
        ensures keeps { Keeps T.undo
            (part_carried R.carried_node R.carried_group R.carried_share R.carried) T.sound
            T.numbers T.made [] [] trail.old.records trail.new.records self.old self.new }
        ensures stop { IfErr result (UnlessMemory (T.barred self.new.theory []
            (number_terms (T.numbers self.old.theory)))) }
    {
        let Ok(order) = self.telling_order(known) else {
            return Err(Stop::Memory);
        };
        'pairs: for place in 0..order.len() {
            let telling = order[place];
            match self.tell(telling.first, telling.later, known, trail)? {
                State::Open => (),
                State::Closed => return Ok(State::Closed),
            }
        }
        Ok(State::Open)
    }

    /// Tells the theory that two nodes of one class are equal, unless it knows that.
    fn tell<R: CarriesNodes + CarriesGroups + CarriesShare + Carries<T::Rec>>(
        &mut self,
        first: usize,
        later: usize,
        known: &mut [(Node, usize)],
        trail: &mut Trail<R>,
    ) -> Result<State, Stop>
        requires unsettled { IsUnsettled (seen T.sound T.admits T.numbers self.old)
            (AreKnownBy known.old) }
        requires first { first < length known.old }
        requires later { later < length known.old }
        requires pair { AreToldIn self.old.graph (T.numbers self.old.theory)
            (node_at known.old first, node_at known.old later) }
        ensures ends { StepEnds (seen T.sound T.admits T.numbers self.new)
            (IsUnsettled (seen T.sound T.admits T.numbers self.new) (AreKnownBy known.new))
            result }
        ensures told { result ≡ Ok State.Open → label_at known.new first
            ≡ label_at known.new later }
        ensures more { KnowsMore known.old known.new }
        ensures graph { self.new.graph ≡ self.old.graph }
        ensures keeps { Keeps T.undo
            (part_carried R.carried_node R.carried_group R.carried_share R.carried) T.sound
            T.numbers T.made [] [] trail.old.records trail.new.records self.old self.new }
        ensures stop { IfErr result (UnlessMemory (T.barred self.new.theory []
            (number_terms (T.numbers self.old.theory)))) }
    {
        let one = known[first];
        let other = known[later];
        if one.1 == other.1 {
            return Ok(State::Open);
        }
        let Ok(()) = self.push_told(one.0, other.0, trail) else {
            return Err(Stop::Memory);
        };
        match self.theory.told_equal(&self.graph, one.0, other.0, trail)? {
            State::Closed => Ok(State::Closed),
            State::Open => {
                relabel(known, other.1, one.1);
                Ok(State::Open)
            }
        }
    }

    /// Each known node with the first one of its class: the classes in the order of their first
    /// nodes, where there is anything to tell.
    fn telling_order(&self, known: &[(Node, usize)]) -> Result<Vec<Telling>, AllocError>
        requires nodes { All (λ entry. entry.0 < node_count self.now.graph) known.now }
        ensures { IfOk result (λ v. IsOrder self.now.graph known.now v.items) }
    {
        let seats = self.seats(known)?;
        let mut order = Vec::new(self.alloc);
        let mut start = 0;
        'seats: for place in 0..seats.len() {
            start = class_start(seats.as_slice(), start, place);
            let first = seats[start].1;
            let later = seats[place].1;
            let turn = self.turn(known, first, later);
            order.push(Telling { turn, first, later })?;
        }
        order.sort_by_key(|telling| telling.turn)?;
        Ok(order)
    }

    /// The places of the known nodes, each with the number of its class, side by side for each
    /// class.
    fn seats(&self, known: &[(Node, usize)]) -> Result<Vec<(Node, usize)>, AllocError>
        requires nodes { All (λ entry. entry.0 < node_count self.now.graph) known.now }
        ensures { IfOk result (λ v. AreSeated self.now.graph known.now v.items) }
    {
        let mut seats = Vec::new(self.alloc);
        'known: for place in 0..known.len() {
            let entry = known[place];
            seats.push((self.graph.class_number(entry.0), place))?;
        }
        seats.sort_by_key(|seat| seat.0.index())?;
        Ok(seats)
    }

    /// When two known nodes of one class are told: by the first node of the class, or at once where
    /// there is nothing to tell.
    fn turn(&self, known: &[(Node, usize)], first: usize, later: usize) -> usize
        requires first { first < length known.now }
        requires later { later < length known.now }
        requires nodes { All (λ entry. entry.0 < node_count self.now.graph) known.now }
    {
        let one = known[first];
        let other = known[later];
        if one.1 == other.1 {
            return 0;
        }
        self.first_made(one.0)
    }

    /// The number of the first node of a class.
    fn first_made(&self, node: Node) -> usize
        requires node { node < node_count self.now.graph }
    {
        let members = self.graph.class_of(node);
        let mut least = node.index();
        'members: for place in 0..members.len() {
            let member = members[place];
            if member.index() < least {
                least = member.index();
            }
        }
        least
    }

    /// Adds a pair that is told.
    fn push_told<R: CarriesShare>(
        &mut self,
        a: Node,
        b: Node,
        trail: &mut Trail<R>,
    ) -> Result<(), AllocError>
        ensures ok { OnOk result
            (self.new ≡ record self.old { told = self.old.told ++ (a, b) ∷ [] }) }
        ensures err { OnErr result (self.new ≡ self.old) }
        ensures noted { OnOk result
            (trail.new.records ≡ trail.old.records ++ R.carried_share ShareRec.Told ∷ []) }
        ensures still { OnErr result (trail.new.records ≡ trail.old.records) }
    {
        trail.reserve(1)?;
        self.told.push((a, b))?;
        trail.note(R::carry_share(ShareRec::Told));
        Ok(())
    }
}

/// Where the class of a seat starts, where the one before it has a class that starts there.
fn class_start(seats: &[(Node, usize)], start: usize, place: usize) -> usize
    requires start { start < length seats.now }
    requires place { place < length seats.now }
    ensures { StartsAt seats.now place start result }
{
    let first = seats[start];
    let seat = seats[place];
    if seat.0 == first.0 { start } else { place }
}
