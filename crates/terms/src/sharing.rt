// Shared instances: two terms are walked side by side, by recursion over the entries left; where a variable stands on either
// side, the two entries are noted. The terms share an instance if messages for the variables make the noted entries equal,
// two and two: classes of nodes that must get equal messages are united; a class that holds a nonce variable must hold no symbol
// but a nonce; and every way down over the classes must come to an end. `zs` and `zt` have the sizes
// of the terms at the entries of each side, and `nonces` tells which atoms are nonces.
ghost use Rattle.std.specs.Prelude.{◌≡◌, true, ◌≤◌, length, List};
ghost use Rattle.blocks.specs.Limits.{most_term_bytes};
ghost use Rattle.terms.specs.Entry.{Begins, term_of};
ghost use Rattle.terms.specs.Tag.{signature_tag, children_of};
ghost use Rattle.terms.specs.declared.atom.Atom.{Atom};
ghost use Rattle.terms.specs.Nonces.{NoncesIn};
ghost use Rattle.terms.specs.Decisions.{Says};
ghost use Rattle.terms.specs.Decide.{answer, share?};
ghost use Rattle.terms.specs.Graph.{Outcome, Any, NonceNode};
ghost use Rattle.terms.specs.TermGraph.{all_nodes, variable_nodes, right_variables, TwoTerms, SizesOf, node_of, AtHome};
ghost use Rattle.terms.specs.Names.{name_of, Linked};
ghost use Rattle.terms.specs.Meetings.{RootsDiffer, Noted, NotedIn, Walking, Reduced, WalkSays, Stops, Distinct, AllEqual, SideKeeps, NoncesKept, NoncesAlone};

use crate::atom::is_nonce;
use crate::classes::{alone, find, unite};
use crate::ending::is_finite;
use crate::entry::children;
use crate::matching::{run_on, same_entry, slot};
use crate::node::{ALL_NODES, Graph, RIGHT_VARIABLES, VARIABLE_NODES};
use crate::tag::{ANY_SLOTS, ATOM, SLOTS, is_variable};
use blocks::wide;

// Two entries that stand beside each other, of the first term and of the second.
#[derive(Clone, Copy)]
struct Beside {
    i: u8,
    j: u8,
}

// Room for the entries noted.
const NOTES: usize = 64;

// How far a walk has come: the entry of each side, the terms left, and the entries noted. `meet` and `note` get them one by one:
// handed over as one value, in memory, they make a sharing test up to a fifth slower.
#[derive(Clone, Copy)]
struct Passed {
    i: usize,
    j: usize,
    left: usize,
    n: usize,
}

// Is either a variable's tag, and neither one of an entry with children?
fn leaves_meet(p: u8, q: u8) -> bool
    requires { (p ≤ signature_tag) × (q ≤ signature_tag) }
    ensures { result ≡ true → (children_of p ≡ 0) × (children_of q ≡ 0) }
{
    (is_variable(p) || is_variable(q)) && children(p) == 0 && children(q) == 0
}

// Walks on as long as entry stands beside entry: the same symbol, or a variable beside a leaf, which are noted.
fn pass(
    g: &Graph,
    m: &mut [Beside; NOTES],
    first: usize,
    second: usize,
    need: usize,
    noted: usize,
) -> Passed
    requires { Walking g.now.s.now g.now.t.now m.old noted first second need }
    ensures { Walking g.now.s.now g.now.t.now m.new result.n result.i result.j result.left × (first ≤ result.i)
        × (¬ (result.left ≡ 0) → Stops g.now.s.now g.now.t.now result.i result.j) }
{
    let Graph { s, t, .. } = *g;
    let mut i = first;
    let mut j = second;
    let mut left = need;
    let mut n = noted;
    while 0 < left {
        let run = run_on(&s[4 * i..], &t[4 * j..], left);
        let count = run.count;
        i += count;
        j += count;
        left = run.left;
        if left == 0 || !leaves_meet(s[4 * i], t[4 * j]) {
            return Passed { i, j, left, n };
        }
        m[n] = Beside {
            i: i as u8,
            j: j as u8,
        };
        i += 1;
        j += 1;
        left -= 1;
        n += 1;
    }
    Passed { i, j, left, n }
}

// Walks on with `need` terms left on each side, from entry i of s and entry j of t. n entries of each are noted in m. None where
// the terms are apart, or how many entries are noted at the end.
#[cycle(meet_note)]
fn meet(
    g: &Graph,
    m: &mut [Beside; NOTES],
    i: usize,
    j: usize,
    need: usize,
    n: usize,
) -> Option<usize>
    requires { Walking g.now.s.now g.now.t.now m.old n i j need }
    ensures { WalkSays g.now.s.now g.now.t.now m.new result }
{
    let to = pass(g, m, i, j, need, n);
    if to.left == 0 {
        return Some(to.n);
    }
    note(g, m, to.i, to.j, to.left, to.n)
}

// The walk has come to entries that are not the same symbol: a variable stands on one side, or the terms are apart.
#[cycle(meet_note)]
fn note(
    g: &Graph,
    m: &mut [Beside; NOTES],
    i: usize,
    j: usize,
    left: usize,
    n: usize,
) -> Option<usize>
    requires { Walking g.now.s.now g.now.t.now m.old n i j left × ¬ (left ≡ 0) × Stops g.now.s.now g.now.t.now i j }
    ensures { WalkSays g.now.s.now g.now.t.now m.new result }
{
    if !is_variable(g.s[4 * i]) && !is_variable(g.t[4 * j]) {
        return None;
    }
    m[n] = Beside {
        i: i as u8,
        j: j as u8,
    };
    meet(g, m, i + wide(g.zs[i]), j + wide(g.zt[j]), left - 1, n + 1)
}

// Unites the classes of the noted entries, two and two.
fn unite_noted(g: &Graph, m: &[Beside; NOTES], n: usize, c: &mut [u8; ALL_NODES]) -> bool
    requires { Noted g.now.s.now g.now.t.now m.now n × Linked g.now.s.now g.now.t.now c.old }
    ensures { Linked g.now.s.now g.now.t.now c.new
        × Outcome (node_of g.now.s.now g.now.t.now) Any (name_of c.old) (name_of c.new)
        (AllEqual g.now.s.now g.now.t.now m.now n) result }
{
    for k in 0..n {
        let i = g.left_home(wide(m[k].i));
        let j = g.right_home(wide(m[k].j));
        if !unite(g, c, i, j) {
            return false;
        }
    }
    true
}

// May a class of this name hold a nonce variable? It is named by a variable, or by a nonce.
fn may_be_nonce(g: &Graph, a: usize, nonces: &[u8]) -> bool
    requires { AtHome g.now.s.now g.now.t.now a }
    ensures { (atoms : List Atom) → NoncesIn atoms nonces.now → Says result (NonceNode atoms (node_of g.now.s.now g.now.t.now a)) }
{
    VARIABLE_NODES <= a || g.tag_at(a) == ATOM && is_nonce(nonces, g.value_at(a))
}

// May the classes of all nonce variables hold one, on the side whose variables begin at this node?
fn side_keeps(g: &Graph, c: &[u8; ALL_NODES], slots: usize, nonces: &[u8]) -> bool
    requires { Linked g.now.s.now g.now.t.now c.now × (variable_nodes ≤ slots) × (slots ≤ right_variables) }
    ensures { (atoms : List Atom) → NoncesIn atoms nonces.now
        → Says result (SideKeeps atoms g.now.s.now g.now.t.now (name_of c.now) slots) }
{
    for k in ANY_SLOTS..SLOTS {
        if !may_be_nonce(g, find(c, slots + k), nonces) {
            return false;
        }
    }
    true
}

// Are the two numbers the same, and was the answer yes before?
fn and_same(before: bool, a: u8, b: u8) -> bool
    ensures { result ≡ true → (before ≡ true) × (a ≡ b) }
{
    before && a == b
}

// Is every nonce variable a class by itself, as in terms that have none? All are asked, which the compiler does many at a time.
fn nonces_alone(c: &[u8; ALL_NODES]) -> bool
    ensures { result ≡ true → NoncesAlone (name_of c.now) }
{
    let mut alone = true;
    for k in ANY_SLOTS..SLOTS {
        let left = VARIABLE_NODES + k;
        let right = RIGHT_VARIABLES + k;
        alone = and_same(alone, c[left], left as u8);
        alone = and_same(alone, c[right], right as u8);
    }
    alone
}

// And on both sides?
fn keep_nonces(g: &Graph, c: &[u8; ALL_NODES], nonces: &[u8]) -> bool
    requires { Linked g.now.s.now g.now.t.now c.now }
    ensures { (atoms : List Atom) → NoncesIn atoms nonces.now
        → Says result (NoncesKept atoms g.now.s.now g.now.t.now (name_of c.now)) }
{
    nonces_alone(c)
        || side_keeps(g, c, VARIABLE_NODES, nonces) && side_keeps(g, c, RIGHT_VARIABLES, nonces)
}

// Do messages for the variables make the noted entries equal, nonces for the nonce variables?
fn have_solution(g: &Graph, m: &[Beside; NOTES], n: usize, nonces: &[u8]) -> bool
    requires { Reduced g.now.s.now g.now.t.now m.now n }
    ensures { (atoms : List Atom) → NoncesIn atoms nonces.now → result ≡ answer (share? atoms (term_of g.now.s.now) (term_of g.now.t.now)) }
{
    let mut c = alone();
    if !unite_noted(g, m, n, &mut c) {
        return false;
    }
    keep_nonces(g, &c, nonces) && is_finite(g, &c)
}

// Is a variable for any message noted at each of the n entries of s, and each time another one? Then these can take what stands
// opposite.
fn is_free_match(s: &[u8], m: &[Beside; NOTES], n: usize) -> bool
    requires { Begins s.now × (length s.now ≤ most_term_bytes) × NotedIn s.now m.now n }
    ensures { result ≡ true → Distinct s.now m.now n }
{
    let mut seen = [false; ANY_SLOTS];
    for k in 0..n {
        let at = wide(m[k].i);
        let x = slot(&s[4 * at..]);
        if ANY_SLOTS <= x || seen[x] {
            return false;
        }
        seen[x] = true;
    }
    true
}

// Do both begin with symbols, and not with the same one?
fn roots_differ(s: &[u8], t: &[u8]) -> bool
    requires { Begins s.now × Begins t.now }
    ensures { result ≡ true → RootsDiffer s.now t.now }
{
    !is_variable(s[0]) && !is_variable(t[0]) && !same_entry(s, t)
}

// Two terms share an instance: some finite message is an instance of both, each term with variables of its own. Most
// tests end where the two first differ, or as the first one's variables can take what stands opposite.
pub fn shares(s: &[u8], t: &[u8], zs: &[u8], zt: &[u8], nonces: &[u8]) -> bool
    requires { TwoTerms s.now t.now × SizesOf s.now zs.now × SizesOf t.now zt.now }
    ensures { (atoms : List Atom) → NoncesIn atoms nonces.now → result ≡ answer (share? atoms (term_of s.now) (term_of t.now)) }
{
    if roots_differ(s, t) {
        return false;
    }
    let mut m = [Beside { i: 0, j: 0 }; NOTES];
    let g = Graph { s, t, zs, zt };
    let Some(n) = meet(&g, &mut m, 0, 0, 1, 0) else {
        return false;
    };
    is_free_match(s, &m, n) || have_solution(&g, &m, n, nonces)
}
