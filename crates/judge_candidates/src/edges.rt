// The edges that each automaton can take.
#![tactic(auto, using(crate::proofs::WalkLaws::walk_laws))]

ghost use Rattle.std.specs.Prelude.{◌≡◌};
ghost use Rattle.judge_candidates.specs.Walk.{walk, kept, fits_at, takes_at, rest_at, edge_on, edges_from};
ghost use Rattle.judge_candidates.specs.Walk.{automaton_on, leg_of, masks_after, first_after};

use table_places::Layout;

// What a step asks of an automaton's edge: from where it leads, its action, and where to.
#[derive(Clone, Copy, Debug, PartialEq, Eq)]
pub struct Leg {
    pub from: usize,
    pub action: usize,
    pub to: usize,
}

// Where the walk stands in the table, and how many masks it has stored. The masks stay beside it: a struct that keeps
// the caller's `&mut` is no plainer, as each function would have to promise too that it is still the same one.
#[derive(Clone, Copy, Debug, PartialEq, Eq)]
pub struct Reached {
    pub next: usize,
    pub count: usize,
}

// The mask of the variables that the update of the edge at a place does not mention.
fn rest_at(words: &[u32], at: usize) -> u64
    ensures { result ≡ rest_at words.now at }
{
    let update = table_places::update_at(words, at);
    let nodes = table_places::word(words, update);
    table_writes::unwritten(words, table_places::nodes_at(words, update), nodes)
}

// What an automaton's edges are asked by: a table's words, the leg, and the values before and after the step.
#[derive(Clone, Copy, Debug, PartialEq, Eq)]
struct Asked<'a> {
    words: &'a [u32],
    leg: Leg,
    before: &'a [i32],
    after: &'a [i32],
}

impl Asked<'_> {
    // An edge's FROM, ACT and TO are the leg's numbers.
    fn fits(&self, at: usize) -> bool
        ensures { result ≡ fits_at self.now.words.now self.now.leg at }
    {
        let from = table_places::edge_from(self.words, at);
        let action = table_places::edge_action(self.words, at);
        let to = table_places::edge_to(self.words, at);
        (from == self.leg.from) & (action == self.leg.action) & (to == self.leg.to)
    }

    // The edge at a place can be taken. Its update is worked out only where the numbers fit.
    fn takes(&self, at: usize) -> bool
        ensures { result ≡ takes_at self.now.words.now self.now.before.now self.now.after.now self.now.leg at }
    {
        if self.fits(at) {
            let update = table_places::update_at(self.words, at);
            let nodes = table_places::nodes_at(self.words, update);
            return evaluator::holds(self.words, nodes, self.before, self.after);
        }
        false
    }

    // One edge: its mask is stored if the edge can be taken and there is room.
    fn edge(&self, at: usize, masks: &mut [u64; 512], count: usize) -> Reached
        ensures { walk masks.new result.next result.count
            ≡ edge_on self.now.words.now self.now.before.now self.now.after.now self.now.leg
            (walk masks.old at count) }
    {
        let next = table_places::after_predicate(
            self.words,
            table_places::update_at(self.words, at),
        );
        if model::Model::EDGES <= count {
            return Reached { next, count };
        }
        if self.takes(at) {
            masks[count] = rest_at(self.words, at);
            return Reached {
                next,
                count: count + 1,
            };
        }
        Reached { next, count }
    }

    // `number` edges, one after the other, from `at` on.
    fn edges(&self, at: usize, number: usize, masks: &mut [u64; 512], count: usize) -> Reached
        ensures { walk masks.new result.next result.count
            ≡ edges_from self.now.words.now self.now.before.now self.now.after.now self.now.leg number
            (walk masks.old at count) }
    {
        let mut reached = Reached { next: at, count };
        for _ in 0..number {
            reached = self.edge(reached.next, masks, reached.count);
        }
        reached
    }

    // The edges of an automaton whose number of edges stands at `place`. Gives how many masks are stored then.
    fn automaton(&self, place: usize, masks: &mut [u64; 512], count: usize) -> usize
        ensures { kept masks.new result
            ≡ automaton_on self.now.words.now self.now.before.now self.now.after.now self.now.leg place
            (kept masks.old count) }
    {
        let number = table_places::word(self.words, place);
        let start = table_places::first_edge(self.words, place);
        let r = self.edges(start, number, masks, count);
        r.count
    }
}

// What the step asks of automaton k.
fn leg_of(old: &[u32], new: &[u32], action: u32, k: usize) -> Leg
    ensures { result ≡ leg_of old.now new.now action k }
{
    Leg {
        from: table_places::word(old, k),
        action: arithmetic::index(action),
        to: table_places::word(new, k),
    }
}

// For each automaton, the edges that it can take under the action: from its old location to its new one, with an update
// that holds. Each as the mask of the variables that the update does not mention. Automaton k's stand in
// masks[first[k]..first[k + 1]].
pub fn gather(
    words: &[u32],
    x: Layout,
    old: &[u32],
    new: &[u32],
    before: &[i32],
    after: &[i32],
    action: u32,
    masks: &mut [u64; 512],
    first: &mut [usize; 17],
)
    ensures masks_after { masks.new
        ≡ masks_after words.now before.now after.now x old.now
        new.now action masks.old first.old }
    ensures first_after { first.new
        ≡ first_after words.now before.now after.now x old.now
        new.now action masks.old first.old }
{
    let automata = table_places::automata_of(x);
    let edges = x.edges;
    let mut count = 0;
    first[0] = 0;
    for k in 0..automata {
        let leg = leg_of(old, new, action, k);
        let asked = Asked {
            words,
            leg,
            before,
            after,
        };
        count = asked.automaton(edges[k], masks, count);
        first[k + 1] = count;
    }
}
