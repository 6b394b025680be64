// The k-th move of a planned tree.
#![tactic(auto, using(crate::proofs::PickLaws::picking_laws))]

ghost use Rattle.std.specs.Prelude.{◌≡◌, replicate};
ghost use Rattle.model.specs.Bounds.{max_tree_nodes};
ghost use Rattle.merge_moves.specs.Pick.{divided_by, divided, named, cell_at, picked, picked_at, pick_at};

use crate::capping::{self};
use crate::planning::{self};
use table_tree::Found;

// Which sides of a `par` take part, each with the number of its own move.
// Nobody stays a variant: with an Option five of the six arms of `divide` would say `Some(Taking::..)`.
#[derive(Clone, Copy, Debug, PartialEq, Eq)]
pub enum Taking {
    Both(u32, u32),
    Left(u32),
    Right(u32),
    Nobody,
}

#[tactic(auto, using(crate::proofs::PickLaws::cell_at_is))]
fn cell_at(cells: &[u32; 192], root: usize, at: usize) -> u32
    ensures { result ≡ cell_at cells.now root at }
{
    cells.get(planning::place(at, root)).copied().unwrap_or(0)
}

// In both sets: pairs, the left slowest. Else the left's moves come before the right's.
fn divide(b: bool, e: bool, left: u32, right: u32, k: u32) -> Taking
    ensures { result ≡ divided_by b e left right k }
{
    match (b, e) {
        (true, true) if right == 0 => Taking::Nobody,
        (true, true) => Taking::Both(k / right, k % right),
        (true, false) => Taking::Left(k),
        (false, true) => Taking::Right(k),
        (false, false) if k < left => Taking::Left(k),
        (false, false) => Taking::Right(k - left),
    }
}

fn divide_cells(left: u32, right: u32, k: u32) -> Taking
    ensures { result ≡ divided left right k }
{
    divide(
        capping::is_inside(left),
        capping::is_inside(right),
        capping::count_of(left),
        capping::count_of(right),
        k,
    )
}

// Automaton i takes edge k of those that it has under the action.
fn name(edges: &mut [u32; 16], i: usize, k: u32)
    ensures { edges.new ≡ named i k edges.old }
{
    if i < 16 && k < 512 {
        edges[i] = k + 1;
    }
}

// A planned tree: its words, where its root's word stands, and the cells that its plan filled.
#[derive(Clone, Copy)]
struct PlannedTree<'a> {
    words: &'a [u32],
    root: usize,
    cells: &'a [u32; 192],
}

impl PlannedTree<'_> {
    // The cell of the subtree at a place; 0 past the cells.
    fn cell(&self, at: usize) -> u32
        ensures { result ≡ cell_at self.now.cells.now self.now.root at }
    {
        cell_at(self.cells, self.root, at)
    }

    // Move k of the subtree at `at`, with `left` nodes left: its own node uses one, and the rest goes from side to
    // side. The answer is how many are left.
    #[tactic(auto, using(crate::proofs::PickLaws::pick_laws))]
    fn pick(&self, at: usize, left: usize, k: u32, edges: &mut [u32; 16]) -> usize
        ensures { picked edges.new result
            ≡ picked_at self.now.words.now self.now.cells.now self.now.root left at k edges.old }
    {
        if left == 0 {
            return left;
        }
        let rest = left - 1;
        match table_tree::node_at(self.words, at) {
            Found::Par(next) => {
                let right = table_tree::skip(self.words, next);
                match divide_cells(self.cell(next), self.cell(right), k) {
                    Taking::Both(i, j) => {
                        let after = self.pick(next, rest, i, edges);
                        self.pick(right, after, j, edges)
                    }
                    Taking::Left(i) => self.pick(next, rest, i, edges),
                    Taking::Right(j) => self.pick(right, rest, j, edges),
                    Taking::Nobody => rest,
                }
            }
            Found::Syn(_, _, next) => self.pick(next, rest, k, edges),
            Found::Leaf(i, _) => {
                name(edges, i, k);
                rest
            }
            Found::Stray => rest,
        }
    }
}

// For each automaton 1 + the number, among its edges under the action, of the edge that it takes in move k; 0 if it
// takes none.
#[tactic(auto, unfolding(crate::specs::Pick::pick_at))]
pub fn pick(words: &[u32], at: usize, cells: &[u32; 192], k: u32) -> [u32; 16]
    ensures { result ≡ pick_at words.now cells.now at max_tree_nodes at k (replicate 16 0) }
{
    let mut edges = [0u32; 16];
    let tree = PlannedTree {
        words,
        root: at,
        cells,
    };
    tree.pick(at, model::Tree::NODES, k, &mut edges);
    edges
}
