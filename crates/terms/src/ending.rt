// Whether every way down over the classes comes to an end: one walk down from the entries of both terms marks each class
// it meets.
ghost use Rattle.std.specs.Prelude.{◌≡◌, true, false, ℕ, ◌≤◌, ◌<◌, length};
ghost use Rattle.terms.specs.Term.{Message};
ghost use Rattle.terms.specs.Graph.{IsSymbol, Valid, Respects, Finite};
ghost use Rattle.terms.specs.TermGraph.{node_of, AtHome, OwnEntry};
ghost use Rattle.terms.specs.Names.{name_of, Linked};
ghost use Rattle.terms.specs.Ending.{ChildrenEnd, ParentEnds, Sound, Below, ChildrenBelow, Walked, EachFrom};

use crate::classes::find;
use crate::entry::children;
use crate::node::{ALL_NODES, Graph, RIGHT_NODES, VARIABLE_NODES};
use crate::tag::PAIR;

// What the walk has found of a class: it has not met it, it is below it, or every way down from it has ended.
#[derive(Clone, Copy)]
enum Mark {
    Unmet,
    Open,
    Ended,
}

// Every way down from node i ends, and the classes met are marked; or no valid valuation respects the classes. It falls by
// the number of classes not met.
#[cycle(children_end_ends)]
fn ends(g: &Graph, c: &[u8; ALL_NODES], marks: &mut [Mark; VARIABLE_NODES], i: usize) -> bool
    requires { Linked g.now.s.now g.now.t.now c.now
        × AtHome g.now.s.now g.now.t.now i × Sound g.now.s.now g.now.t.now c.now marks.old × Below g.now.s.now g.now.t.now c.now marks.old i }
    ensures { Walked g.now.s.now g.now.t.now c.now marks.old marks.new
        (Finite (node_of g.now.s.now g.now.t.now) (name_of c.now) i) result }
{
    let a = find(c, i);
    if VARIABLE_NODES <= a {
        return true;
    }
    match marks[a] {
        Mark::Ended => true,
        Mark::Open => false,
        Mark::Unmet => {
            marks[a] = Mark::Open;
            if children_end(g, c, marks, a) {
                marks[a] = Mark::Ended;
                true
            } else {
                false
            }
        }
    }
}

// Every way down from the children of node a ends.
#[cycle(children_end_ends)]
fn children_end(
    g: &Graph,
    c: &[u8; ALL_NODES],
    marks: &mut [Mark; VARIABLE_NODES],
    a: usize,
) -> bool
    requires { Linked g.now.s.now g.now.t.now c.now
        × IsSymbol (node_of g.now.s.now g.now.t.now a) × Sound g.now.s.now g.now.t.now c.now marks.old × ChildrenBelow g.now.s.now g.now.t.now c.now marks.old a }
    ensures { Walked g.now.s.now g.now.t.now c.now marks.old marks.new
        (ChildrenEnd g.now.s.now g.now.t.now c.now a) result }
{
    let tag = g.tag_at(a);
    if children(tag) == 0 {
        return true;
    }
    ends(g, c, marks, g.first_child(a)) && (tag != PAIR || ends(g, c, marks, g.second_child(a)))
}

// Every way down from the entry at node k ends, if it has children.
fn node_ends(g: &Graph, c: &[u8; ALL_NODES], marks: &mut [Mark; VARIABLE_NODES], k: usize) -> bool
    requires { Linked g.now.s.now g.now.t.now c.now
        × OwnEntry g.now.s.now g.now.t.now k × Sound g.now.s.now g.now.t.now c.now marks.old × Below g.now.s.now g.now.t.now c.now marks.old k }
    ensures { Walked g.now.s.now g.now.t.now c.now marks.old marks.new
        (ParentEnds g.now.s.now g.now.t.now c.now k) result }
{
    children(g.tag_at(k)) == 0 || ends(g, c, marks, k)
}

// Every way down from the entries at the nodes from `low` up to `high` ends, walked from the last first: most children are
// marked already, and few walks go deep; or no valid valuation respects the classes. Every node lies below all open
// classes: at the start there are none.
fn side_ends(
    g: &Graph,
    c: &[u8; ALL_NODES],
    marks: &mut [Mark; VARIABLE_NODES],
    low: usize,
    high: usize,
) -> bool
    requires { Linked g.now.s.now g.now.t.now c.now
        × EachFrom (OwnEntry g.now.s.now g.now.t.now) low high
        × Sound g.now.s.now g.now.t.now c.now marks.old × ((i : ℕ) → Below g.now.s.now g.now.t.now c.now marks.old i) }
    ensures { Walked g.now.s.now g.now.t.now c.now marks.old marks.new
        (EachFrom (ParentEnds g.now.s.now g.now.t.now c.now) low high) result }
{
    for k in (low..high).rev() {
        if !node_ends(g, c, marks, k) {
            return false;
        }
    }
    true
}

// Every way down over the classes ends, walked from the entries of both terms: the other nodes have no children; or no
// valid valuation respects the classes.
pub fn is_finite(g: &Graph, c: &[u8; ALL_NODES]) -> bool
    requires { Linked g.now.s.now g.now.t.now c.now }
    ensures { (result ≡ true → (i : ℕ) → Finite (node_of g.now.s.now g.now.t.now) (name_of c.now) i)
        × (result ≡ false → (v : ℕ → Message) → Valid (node_of g.now.s.now g.now.t.now) v → Respects (name_of c.now) v → ⊥) }
{
    let mut marks = [Mark::Unmet; VARIABLE_NODES];
    side_ends(g, c, &mut marks, RIGHT_NODES, RIGHT_NODES + g.t.len() / 4)
        && side_ends(g, c, &mut marks, 0, g.s.len() / 4)
}
