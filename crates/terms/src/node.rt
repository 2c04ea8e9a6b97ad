// Two terms as one graph: the entries of the first from node 0, of the second from node 64, and the variables of each
// side as nodes of their own, from 128 and from 160.
ghost use Rattle.std.specs.Prelude.{◌≡◌, ◌+◌, ◌*◌, ◌≤◌, ◌<◌, length};
ghost use Rattle.blocks.specs.Limits.{most_term_bytes};
ghost use Rattle.terms.specs.Tag.{pair_tag};
ghost use Rattle.terms.specs.TermGraph as graph;

use crate::entry::value;
use crate::tag::{LAST, SLOTS, VARIABLES, first_slot, is_variable};
use blocks::wide;

// Where the nodes of the second term's entries begin, those of the first term's variables, and of the second's.
pub const RIGHT_NODES: usize = 64;

pub const VARIABLE_NODES: usize = 128;

pub const RIGHT_VARIABLES: usize = VARIABLE_NODES + SLOTS;

// How many numbers there are for nodes.
pub const ALL_NODES: usize = 256;

// The node of entry k, on the side whose entries begin at base and whose variables begin at slots.
fn home(e: &[u8], k: usize, base: usize, slots: usize) -> usize
    requires { (4 * (k + 1) ≤ length e.now) × (length e.now ≤ most_term_bytes) × (base ≤ graph.right_nodes) × (slots ≤ graph.right_variables) }
    ensures { (result ≡ graph.home e.now base slots k) × (result < graph.all_nodes) }
{
    let tag = e[4 * k];
    if !is_variable(tag) {
        return base + k;
    }
    // No tag: the entry stands for itself.
    if LAST < wide(tag) {
        return base + k;
    }
    slots + first_slot(tag) + value(&e[4 * k..]) % VARIABLES
}

// The entries of both terms. `zs` and `zt` have the sizes of the terms at the entries of each side.
#[derive(Clone, Copy)]
pub struct Graph<'a> {
    pub s: &'a [u8],
    pub t: &'a [u8],
    pub zs: &'a [u8],
    pub zt: &'a [u8],
    pub ghost terms: { ∥ graph.TwoTerms s.now t.now ∥₁ },
    pub ghost left: { graph.SizesOf s.now zs.now },
    pub ghost right: { graph.SizesOf t.now zt.now },
}

impl Graph<'_> {
    // The node of entry k of the first term.
    pub fn left_home(&self, k: usize) -> usize
        requires { 4 * (k + 1) ≤ length self.now.s.now }
        ensures { (result ≡ graph.home self.now.s.now 0 graph.variable_nodes k) × graph.AtHome self.now.s.now self.now.t.now result }
    {
        home(self.s, k, 0, VARIABLE_NODES)
    }

    // The node of entry k of the second term.
    pub fn right_home(&self, k: usize) -> usize
        requires { 4 * (k + 1) ≤ length self.now.t.now }
        ensures { (result ≡ graph.home self.now.t.now graph.right_nodes graph.right_variables k) × graph.AtHome self.now.s.now self.now.t.now result }
    {
        home(self.t, k, RIGHT_NODES, RIGHT_VARIABLES)
    }

    // The tag of the entry at a node.
    pub fn tag_at(&self, i: usize) -> u8
        requires { graph.OwnEntry self.now.s.now self.now.t.now i }
        ensures { result ≡ graph.node_tag self.now.s.now self.now.t.now i }
    {
        if i < RIGHT_NODES {
            self.s[4 * i]
        } else {
            self.t[4 * (i - RIGHT_NODES)]
        }
    }

    // The value of the entry at a node.
    pub fn value_at(&self, i: usize) -> usize
        requires { graph.OwnEntry self.now.s.now self.now.t.now i }
        ensures { result ≡ graph.node_value self.now.s.now self.now.t.now i }
    {
        if i < RIGHT_NODES {
            value(&self.s[4 * i..])
        } else {
            value(&self.t[4 * (i - RIGHT_NODES)..])
        }
    }

    // The node of the first child of a pair, or of the term that something is put around.
    pub fn first_child(&self, i: usize) -> usize
        requires { graph.HasChild self.now.s.now self.now.t.now i }
        ensures { (result ≡ graph.first_child self.now.s.now self.now.t.now i) × graph.AtHome self.now.s.now self.now.t.now result }
    {
        if i < RIGHT_NODES {
            self.left_home(i + 1)
        } else {
            self.right_home(i - RIGHT_NODES + 1)
        }
    }

    // The node of a pair's second child, by the sizes.
    pub fn second_child(&self, i: usize) -> usize
        requires { graph.node_tag self.now.s.now self.now.t.now i ≡ pair_tag }
        ensures { (result ≡ graph.second_child self.now.s.now self.now.t.now i) × graph.AtHome self.now.s.now self.now.t.now result }
    {
        if i < RIGHT_NODES {
            self.left_home(i + 1 + wide(self.zs[i + 1]))
        } else {
            let k = i - RIGHT_NODES + 1;
            self.right_home(k + wide(self.zt[k]))
        }
    }
}
