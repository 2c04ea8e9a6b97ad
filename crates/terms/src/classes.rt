// Classes of nodes that must get equal messages. In the array c every node leads to a lower node of its class, and the lowest
// leads to itself and names the class; so a symbol's class is named by a symbol.
ghost use Rattle.std.specs.Prelude.{◌≡◌, ℕ, ◌≤◌, ◌<◌, length, get_or};
ghost use Rattle.terms.specs.Graph.{Outcome, Any};
ghost use Rattle.terms.specs.Tag.{pair_tag};
ghost use Rattle.terms.specs.TermGraph.{all_nodes, AtHome, node_of, first_child, second_child, node_tag};
ghost use Rattle.terms.specs.Names.{name_of, class_count, Linked};
ghost use Rattle.terms.specs.Meeting.{MeetAs};

use crate::entry::children;
use crate::node::{ALL_NODES, Graph, VARIABLE_NODES};
use crate::tag::PAIR;
use blocks::wide;
use std::array;

// Every node as a class by itself.
pub fn alone() -> [u8; ALL_NODES]
    ensures { (i : ℕ) → i < all_nodes → get_or result i 0 ≡ i }
{
    array::from_fn(|k| k as u8)
}

// The name of a node's class. No way has 256 links.
pub fn find(c: &[u8; ALL_NODES], i: usize) -> usize
    requires { i < all_nodes }
    ensures { (result ≡ name_of c.now i) × (result < all_nodes) }
{
    let mut k = i;
    for _ in 0..ALL_NODES {
        let next = wide(c[k]);
        if next == k {
            return k;
        }
        k = next;
    }
    k
}

// How the names of two classes meet, a above b: a is a variable's node, or both are symbols.
#[derive(Clone, Copy)]
enum How {
    Free,
    Differ,
    Atoms,
    Wrappers,
    Pairs,
}

fn meeting(g: &Graph, a: usize, b: usize) -> How
    requires { AtHome g.now.s.now g.now.t.now a × AtHome g.now.s.now g.now.t.now b × (b < a) }
    ensures { MeetAs g.now.s.now g.now.t.now a b result }
{
    if VARIABLE_NODES <= a {
        return How::Free;
    }
    let tag = g.tag_at(a);
    if tag != g.tag_at(b) {
        return How::Differ;
    }
    if tag == PAIR {
        return How::Pairs;
    }
    if g.value_at(a) != g.value_at(b) {
        return How::Differ;
    }
    if children(tag) == 1 {
        return How::Wrappers;
    }
    How::Atoms
}

// Makes the classes of the nodes i and j one, and with them those of their children: the closure step. It falls by the
// number of classes.
#[cycle(unite_unite_halves_unite_names)]
pub fn unite(g: &Graph, c: &mut [u8; ALL_NODES], i: usize, j: usize) -> bool
    requires { Linked g.now.s.now g.now.t.now c.old × AtHome g.now.s.now g.now.t.now i × AtHome g.now.s.now g.now.t.now j }
    ensures { Linked g.now.s.now g.now.t.now c.new × (class_count c.new ≤ class_count c.old)
        × Outcome (node_of g.now.s.now g.now.t.now) Any (name_of c.old) (name_of c.new) (λ v. v i ≡ v j) result }
{
    let a = find(c, i);
    let b = find(c, j);
    a == b || unite_names(g, c, a.max(b), a.min(b))
}

// The same for the names of two classes, a above b: a leads to b from now on.
#[cycle(unite_unite_halves_unite_names)]
fn unite_names(g: &Graph, c: &mut [u8; ALL_NODES], a: usize, b: usize) -> bool
    requires { Linked g.now.s.now g.now.t.now c.old × AtHome g.now.s.now g.now.t.now a × AtHome g.now.s.now g.now.t.now b
        × (name_of c.old a ≡ a) × (name_of c.old b ≡ b) × (b < a) }
    ensures { Linked g.now.s.now g.now.t.now c.new × (class_count c.new ≤ class_count c.old)
        × Outcome (node_of g.now.s.now g.now.t.now) Any (name_of c.old) (name_of c.new) (λ v. v a ≡ v b) result }
{
    match meeting(g, a, b) {
        How::Differ => false,
        How::Free | How::Atoms => {
            c[a] = b as u8;
            true
        }
        How::Wrappers => {
            c[a] = b as u8;
            unite(g, c, g.first_child(a), g.first_child(b))
        }
        How::Pairs => {
            c[a] = b as u8;
            unite_halves(g, c, a, b)
        }
    }
}

// The halves of two pairs.
#[cycle(unite_unite_halves_unite_names)]
fn unite_halves(g: &Graph, c: &mut [u8; ALL_NODES], a: usize, b: usize) -> bool
    requires { Linked g.now.s.now g.now.t.now c.old
        × (node_tag g.now.s.now g.now.t.now a ≡ pair_tag) × (node_tag g.now.s.now g.now.t.now b ≡ pair_tag) }
    ensures { Linked g.now.s.now g.now.t.now c.new × (class_count c.new ≤ class_count c.old)
        × Outcome (node_of g.now.s.now g.now.t.now) Any (name_of c.old) (name_of c.new)
        (λ v. (v (first_child g.now.s.now g.now.t.now a) ≡ v (first_child g.now.s.now g.now.t.now b))
        × (v (second_child g.now.s.now g.now.t.now a) ≡ v (second_child g.now.s.now g.now.t.now b))) result }
{
    unite(g, c, g.first_child(a), g.first_child(b))
        && unite(g, c, g.second_child(a), g.second_child(b))
}
