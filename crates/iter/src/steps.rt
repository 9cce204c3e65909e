//! The steps of a walk: to its first entry, and from one entry to the next.
ghost use Rattle.std.specs.Prelude.{◌≡◌, true, ◌∷◌, suc, ◌≤◌, ◌<◌};
ghost use Rattle.layout.specs.Layout.{Lent};
ghost use Rattle.layout.specs.Columns.{columns};
ghost use Rattle.lookup.specs.Lookup.{entry_at};
ghost use Rattle.iter.specs.Met.{waiting, climbed, met, still, is_at_entry, Settled};

use crate::{PLACES, Walk};
use layout::Shape;
use lookup::links;

// A place is a branch that waits and its next child, as one number: the branch times this base, and the child. No branch
// has so many children.
const BASE: u64 = 128;

impl Walk {
    // To the first entry below a root.
    #[tactic(auto, using(crate::proofs::WalkLaws::walk_start))]
    pub fn start(a: &[u64], z: Shape, root: u64) -> Walk
        requires { Lent z a.now }
        ensures still_to_come { still z a.now result ≡ met z a.now root }
        ensures settled { Settled z result }
    {
        let mut w = Walk {
            stack: [0; PLACES],
            at: root,
            depth: 0,
            left: z.branches + z.entries,
        };
        w.dig(a, z);
        w
    }

    // Whether the walk has come to an entry.
    #[tactic(auto, unfolding(crate::specs::Met::is_at_entry))]
    pub fn has_entry(&self, z: Shape) -> bool
        ensures { result ≡ is_at_entry z self.now }
    {
        self.left > 0 && links::is_entry(z, self.at)
    }

    // To the entry behind the one that the walk has come to.
    #[tactic(auto, using(crate::proofs::WalkLaws::with_rest))]
    pub fn next(&mut self, a: &[u64], z: Shape)
        requires lent { Lent z a.now }
        requires at_entry { is_at_entry z self.old ≡ true }
        ensures gives_first { still z a.now self.old ≡ entry_at (columns z a.now) self.old.at ∷ still z a.now self.new }
        ensures settled { Settled z self.new }
        ensures fewer_visits { self.new.left < self.old.left }
    {
        self.advance(a, z);
        self.dig(a, z);
    }

    // Down to the next entry: each branch on the way waits, from its second child on. The walk's numbers are in hand meanwhile:
    // behind its reference each would be read again after every place that is stored.
    #[tactic(auto, using(crate::proofs::WalkLaws::full_stack, crate::proofs::WalkLaws::no_branch, crate::proofs::WalkLaws::cell_small, crate::proofs::WalkLaws::dig_on, lookup::proofs::FindLaws::kind_says))]
    fn dig(&mut self, a: &[u64], z: Shape)
        requires { Lent z a.now }
        ensures still_to_come { still z a.now self.new ≡ still z a.now self.old }
        ensures settled { Settled z self.new }
        ensures visits_left { self.new.left ≤ self.old.left }
    {
        let mut at = self.at;
        let mut depth = self.depth;
        let mut left = self.left;
        // A while: what is left to visit is the walk's own count, which goes on from call to call.
        while left > 0 && depth < PLACES && links::is_branch(z, at) {
            self.stack[depth] = at * BASE + 1;
            depth += 1;
            left -= 1;
            at = links::kid(a, z, at, 0);
        }
        self.at = at;
        self.depth = depth;
        self.left = left;
    }

    // Up to the last branch that has a child to go to.
    #[tactic(auto, using(crate::proofs::WalkLaws::place_small, crate::proofs::WalkLaws::climb_on, crate::proofs::WalkLaws::climb_over))]
    fn climb(&mut self, a: &[u64], z: Shape)
        requires { Lent z a.now }
        ensures climbed_to { self.new.at ≡ (climbed (columns z a.now) (waiting self.old.stack self.old.depth)).at }
        ensures places_left { waiting self.new.stack self.new.depth ≡ (climbed (columns z a.now) (waiting self.old.stack self.old.depth)).places }
        ensures visits_left { self.new.left ≡ self.old.left }
    {
        let mut depth = self.depth;
        // A while: how many places are taken is the walk's own, which goes on from call to call.
        while depth > 0 {
            let place = self.stack[depth - 1];
            let r = links::kid(a, z, place / BASE, place % BASE);
            if r != 0 {
                self.stack[depth - 1] = place + 1;
                self.at = r;
                self.depth = depth;
                return;
            }
            depth -= 1;
        }
        self.at = 0;
        self.depth = 0;
    }

    // Past an entry: to the next in its chain, or else up.
    #[tactic(auto, using(crate::proofs::WalkLaws::entry_left, crate::proofs::WalkLaws::advance_next, crate::proofs::WalkLaws::advance_climb))]
    fn advance(&mut self, a: &[u64], z: Shape)
        requires lent { Lent z a.now }
        requires at_entry { is_at_entry z self.old ≡ true }
        ensures gives_first { still z a.now self.old ≡ entry_at (columns z a.now) self.old.at ∷ still z a.now self.new }
        ensures one_visit { suc self.new.left ≡ self.old.left }
    {
        self.left -= 1;
        let next = links::kid(a, z, self.at, 0);
        if next != 0 {
            self.at = next;
            return;
        }
        self.climb(a, z);
    }
}
