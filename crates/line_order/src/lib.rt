// What the reader of sheets (over the text's lines) and the check of tables (over words) share: which line is due, and
// what has been counted so far.
#![tactic(auto)]

ghost use Rattle.std.specs.Prelude.{◌≡◌};
ghost use Rattle.line_order.specs.Due.{is_end, is_listed, is_owned, due_first, due_after};
ghost use Rattle.line_order.specs.Due.{due, due_only, due_variables, due_automata, due_locations, due_edges};
ghost use Rattle.line_order.specs.Counts.{counts_none, counts_after, with_nodes, add_up_to, capped};

use model::Model;

// The highest action of a list: A, or 63, since no list holds more.
#[tactic(auto, unfolding(crate::specs::Counts::capped))]
pub fn capped(actions: usize) -> u32
    ensures { result ≡ capped actions }
{
    actions.min(Model::LAST_ACTION) as u32
}

// The key of the line that is due; End after the last line.
#[derive(Clone, Copy, Debug, PartialEq, Eq)]
pub enum Key {
    Format,
    Actions,
    Variables,
    Variable,
    Automata,
    Sync,
    Locations,
    Init,
    Inv,
    Edges,
    Edge,
    Compose,
    End,
}

// No line is due any more.
#[tactic(auto, unfolding(crate::specs::Due::is_end))]
pub fn end(key: Key) -> bool
    ensures { result ≡ is_end key }
{
    key == Key::End
}

// The key that is due, the sheet's format (0 before its line), and what is still to come: variable lines; automata, the
// one under way included; locations of this automaton, the one under way included; its edge lines.
#[derive(Clone, Copy, Debug, PartialEq, Eq)]
pub struct Due {
    pub key: Key,
    pub format: usize,
    pub variables: usize,
    pub automata: usize,
    pub locations: usize,
    pub edges: usize,
}

// A line with this key is due, and nothing is counted.
fn only(format: usize, key: Key) -> Due
    ensures { result ≡ due_only format key }
{
    Due {
        key,
        format,
        variables: 0,
        automata: 0,
        locations: 0,
        edges: 0,
    }
}

// So many variable lines are due.
#[tactic(auto, unfolding(crate::specs::Due::due_variables, crate::specs::Due::if_none))]
fn variables_due(format: usize, n: usize) -> Due
    ensures { result ≡ due_variables format n }
{
    if n == 0 {
        return only(format, Key::Automata);
    }
    Due {
        variables: n,
        ..only(format, Key::Variable)
    }
}

// So many automata are due.
#[tactic(auto, unfolding(crate::specs::Due::due_automata, crate::specs::Due::if_none))]
fn automata_due(format: usize, n: usize) -> Due
    ensures { result ≡ due_automata format n }
{
    if n == 0 {
        return only(format, Key::Compose);
    }
    Due {
        automata: n,
        ..only(format, Key::Sync)
    }
}

// A line inside an automaton is due: so many automata are to come, this one included.
fn inside(format: usize, automata: usize, key: Key) -> Due
    ensures { result ≡ due key format 0 automata 0 0 }
{
    Due {
        automata,
        ..only(format, key)
    }
}

// So many locations of an automaton are due.
#[tactic(auto, unfolding(crate::specs::Due::due_locations, crate::specs::Due::if_none))]
fn locations_due(format: usize, automata: usize, n: usize) -> Due
    ensures { result ≡ due_locations format automata n }
{
    if n == 0 {
        return inside(format, automata, Key::Edges);
    }
    Due {
        locations: n,
        ..inside(format, automata, Key::Init)
    }
}

// So many edge lines of an automaton are due.
#[tactic(auto, unfolding(crate::specs::Due::due_edges, crate::specs::Due::if_none))]
fn edges_due(format: usize, automata: usize, n: usize) -> Due
    ensures { result ≡ due_edges format automata n }
{
    if n == 0 {
        return automata_due(format, automata.saturating_sub(1));
    }
    Due {
        edges: n,
        ..inside(format, automata, Key::Edge)
    }
}

impl Due {
    // What is due at first.
    pub fn first() -> Due
        ensures { result ≡ due_first }
    {
        only(0, Key::Format)
    }

    // A list of what it writes stands behind the line that is due: behind an edge, from the first format with lists on.
    #[tactic(auto, unfolding(crate::specs::Due::is_listed, crate::specs::Due::is_edge))]
    pub fn listed(self) -> bool
        ensures { result ≡ is_listed self }
    {
        self.key == Key::Edge && Model::WRITES_FORMAT <= self.format
    }

    // Its owner stands behind the line that is due: behind a variable, from the first format with owners on.
    #[tactic(auto, unfolding(crate::specs::Due::is_owned, crate::specs::Due::is_variable))]
    pub fn owned(self) -> bool
        ensures { result ≡ is_owned self }
    {
        self.key == Key::Variable && Model::OWNERS_FORMAT <= self.format
    }

    // What is due after the line that is due was read; `count` is its number, if it is the format's line or one that
    // counts.
    #[tactic(auto, unfolding(crate::specs::Due::due_after, crate::specs::Due::due_after_key))]
    pub fn after(self, count: usize) -> Due
        ensures { result ≡ due_after self count }
    {
        match self.key {
            Key::Format => only(count, Key::Actions),
            Key::Actions => only(self.format, Key::Variables),
            Key::Variables => variables_due(self.format, count),
            Key::Variable => variables_due(self.format, self.variables.saturating_sub(1)),
            Key::Automata => automata_due(self.format, count),
            Key::Sync => inside(self.format, self.automata, Key::Locations),
            Key::Locations => locations_due(self.format, self.automata, count),
            Key::Init => Due {
                locations: self.locations,
                ..inside(self.format, self.automata, Key::Inv)
            },
            Key::Inv => locations_due(self.format, self.automata, self.locations.saturating_sub(1)),
            Key::Edges => edges_due(self.format, self.automata, count),
            Key::Edge => edges_due(self.format, self.automata, self.edges.saturating_sub(1)),
            Key::Compose | Key::End => only(self.format, Key::End),
        }
    }
}

// What has been read and counted: the format; the actions; the variable lines; the automata begun; the locations of the
// automaton under way; the edge lines of all automata; the nodes of all predicates.
#[derive(Clone, Copy, Debug, PartialEq, Eq)]
pub struct Counts {
    pub format: usize,
    pub actions: usize,
    pub variables: usize,
    pub automata: usize,
    pub locations: usize,
    pub edges: usize,
    pub nodes: usize,
}

// The sum, or where it would be more, the highest count.
#[tactic(auto, unfolding(crate::specs::Counts::add_up_to))]
fn add(x: usize, y: usize) -> usize
    ensures { result ≡ add_up_to x y }
{
    x.saturating_add(y).min(Counts::MOST)
}

impl Counts {
    // No count goes higher; the limits are far below.
    pub const MOST: usize = 65536;

    pub fn none() -> Counts
        ensures { result ≡ counts_none }
    {
        Counts {
            format: 0,
            actions: 0,
            variables: 0,
            automata: 0,
            locations: 0,
            edges: 0,
            nodes: 0,
        }
    }

    // The nodes of one more predicate.
    pub fn with_nodes(self, nodes: usize) -> Counts
        ensures { result ≡ with_nodes self nodes }
    {
        Counts {
            nodes: add(self.nodes, nodes),
            ..self
        }
    }

    // After a line with this key and number, whose predicates have so many nodes.
    #[tactic(auto, unfolding(crate::specs::Counts::counts_after))]
    pub fn after(self, key: Key, number: usize, nodes: usize) -> Counts
        ensures { result ≡ counts_after self key number nodes }
    {
        match key {
            Key::Format => Counts {
                format: number,
                ..self
            },
            Key::Actions => Counts {
                actions: number,
                ..self
            },
            Key::Variable => Counts {
                variables: add(self.variables, 1),
                ..self
            },
            Key::Sync => Counts {
                automata: add(self.automata, 1),
                locations: 0,
                ..self
            },
            Key::Inv => Counts {
                locations: add(self.locations, 1),
                ..self.with_nodes(nodes)
            },
            Key::Edge => Counts {
                edges: add(self.edges, 1),
                ..self.with_nodes(nodes)
            },
            Key::Init | Key::Compose => self.with_nodes(nodes),
            Key::Variables | Key::Automata | Key::Locations | Key::Edges | Key::End => self,
        }
    }
}
