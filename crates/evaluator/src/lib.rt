// Predicates and expressions worked out from their table words: one word a node, in prefix order.
// Every call takes the count of nodes left, uses one for its own node and hands the rest on from operand to operand.
// So on any words, whatever they are, no more nodes are read than were given.
#![tactic(auto)]

mod nodes;

ghost use Rattle.std.specs.Prelude.{◌≡◌, true, false};
ghost use Rattle.evaluator.specs.Evaluate.{predicate_at, expression_at, gather, implication, numbers, choice};
ghost use Rattle.evaluator.specs.Evaluate.{evaluate};

use crate::nodes::{Gathered, Pair, Truth, Value};
use node_words::Node;

// A table's words, and the values before and after a step.
#[derive(Clone, Copy)]
struct Step<'a> {
    words: &'a [u32],
    before: &'a [i32],
    after: &'a [i32],
}

impl<'a> Step<'a> {
    // The predicate at `at`, with `left` nodes left.
    #[cycle(step)]
    #[tactic(auto, using(crate::proofs::NodeLaws::predicate_laws))]
    fn predicate(&self, at: usize, left: usize) -> Truth
        ensures { result ≡ predicate_at self.now.words.now self.now.before.now self.now.after.now left at }
    {
        if left == 0 {
            return nodes::no_truth(at, left);
        }
        let rest = left - 1;
        if self.words.len() <= at {
            return nodes::no_truth(at, rest);
        }
        let node = node_words::node_of(self.words[at]);
        let next = at + 1;
        match node {
            Node::All(k) => nodes::all_hold(self.operands(next, arithmetic::index(k), rest)),
            Node::Any(k) => nodes::any_holds(self.operands(next, arithmetic::index(k), rest)),
            Node::Not => nodes::negated(self.predicate(next, rest)),
            Node::Imp => self.implication(next, rest),
            Node::Eq => nodes::equal(self.numbers(next, rest)),
            Node::Le => nodes::ordered(self.numbers(next, rest)),
            _ => nodes::no_truth(next, rest),
        }
    }

    // `count` predicates, one after the other, from `at` on. All are read, also when the answer is known, to find the
    // end. Where no node is left, no further predicate can stand there, so not all hold.
    #[cycle(step)]
    #[tactic(auto, using(crate::proofs::NodeLaws::gather_stops))]
    fn operands(&self, at: usize, count: usize, left: usize) -> Gathered
        ensures { result ≡ gather (predicate_at self.now.words.now self.now.before.now self.now.after.now)
            count left at true false }
    {
        let mut next = at;
        let mut rest = left;
        let mut all = true;
        let mut any = false;
        for _ in 0..count {
            if rest == 0 {
                all = false;
                break;
            }
            let p = self.predicate(next, rest);
            all &= p.holds;
            any |= p.holds;
            next = p.next;
            rest = p.left;
        }
        Gathered {
            all,
            any,
            next,
            left: rest,
        }
    }

    // The two operands of `imp`.
    #[cycle(step)]
    #[tactic(auto, using(crate::proofs::NodeLaws::implication_by))]
    fn implication(&self, at: usize, left: usize) -> Truth
        ensures { result ≡ implication (predicate_at self.now.words.now self.now.before.now self.now.after.now)
            left at }
    {
        let p = self.predicate(at, left);
        nodes::implied(p.holds, self.predicate(p.next, p.left))
    }

    // The expression at `at`, with `left` nodes left.
    #[cycle(step)]
    #[tactic(auto, using(crate::proofs::NodeLaws::expression_laws))]
    fn expression(&self, at: usize, left: usize) -> Value
        ensures { result ≡ expression_at self.now.words.now self.now.before.now self.now.after.now left at }
    {
        if left == 0 {
            return nodes::no_value(at, left);
        }
        let rest = left - 1;
        if self.words.len() <= at {
            return nodes::no_value(at, rest);
        }
        let node = node_words::node_of(self.words[at]);
        let next = at + 1;
        match node {
            Node::Number(n) => nodes::constant(n, next, rest),
            Node::Old(k) => nodes::variable(self.before, k, next, rest),
            Node::New(k) => nodes::variable(self.after, k, next, rest),
            Node::Add => nodes::added(self.numbers(next, rest)),
            Node::Sub => nodes::subtracted(self.numbers(next, rest)),
            Node::Mul => nodes::multiplied(self.numbers(next, rest)),
            Node::If => self.choice(next, rest),
            _ => nodes::no_value(next, rest),
        }
    }

    // Two expressions, one after the other, from `at` on.
    #[cycle(step)]
    #[tactic(auto, using(crate::proofs::NodeLaws::numbers_by))]
    fn numbers(&self, at: usize, left: usize) -> Pair
        ensures { result ≡ numbers (expression_at self.now.words.now self.now.before.now self.now.after.now)
            left at }
    {
        let x = self.expression(at, left);
        let y = self.expression(x.next, x.left);
        Pair {
            first: x.number,
            second: y.number,
            next: y.next,
            left: y.left,
        }
    }

    // The three operands of `if`.
    #[cycle(step)]
    #[tactic(auto, using(crate::proofs::NodeLaws::choice_by))]
    fn choice(&self, at: usize, left: usize) -> Value
        ensures { result ≡ choice (predicate_at self.now.words.now self.now.before.now self.now.after.now)
            (expression_at self.now.words.now self.now.before.now self.now.after.now) left at }
    {
        let p = self.predicate(at, left);
        nodes::chosen(p.holds, self.numbers(p.next, p.left))
    }
}

// Whether the predicate whose node words stand from `at` on holds, between the values before and after a step.
#[tactic(auto, unfolding(crate::specs::Evaluate::evaluate))]
pub fn holds(words: &[u32], at: usize, before: &[i32], after: &[i32]) -> bool
    ensures { result ≡ evaluate words.now before.now after.now at }
{
    let step = Step {
        words,
        before,
        after,
    };
    let p = step.predicate(at, model::Model::NODES);
    p.holds
}
