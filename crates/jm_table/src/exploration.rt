ghost use Rattle.std.specs.Prelude.{ℕ, ◌≡◌, ◌<◌, ◌≤◌, ◌+◌, ◌*◌, ◌⊎◌, [], ◌∷◌, ◌++◌, Some, Ok, Err, IfOk, IfErr, OnOk, IsOkUnless, map, slice_get, vec_len};
ghost use Rattle.jm_model.specs.declared.fault.SpecFault.{SpecFault};
ghost use Rattle.jm_table.specs.Explorations.{Finds, IsExplored, IsInWork, IsMet, IsCrowded, IfBad, first_found, most_states};
ghost use Rattle.jm_table.specs.Tables.{Follows};
ghost use Rattle.jm_table.specs.Buckets.{IsIndex};

use crate::graph::Graph;
use crate::known::Known;
use crate::table::Table;
use jm_model::{Letter, NoMemory, SpecError, SpecFault};
use std::alloc::Global;

const MAX_STATES: usize = 1024;

/// What is known of a graph in the course of the work.
#[derive(Drop)]
struct Work<N: Drop> {
    /// Node k is that of state k.
    nodes: Vec<N>,
    known: Known,
    /// The next states so far, state by state and letter by letter.
    next: Vec<u16>,
}

/// The table of what a graph reaches by words of letters below `letters`, and its nodes: node k is that of state k.
///
/// Nodes are numbered breadth first, letters in order; nodes that stand for the same are one. The fault is
/// `TooManyStates` where a 1,025th node is found, and the graph's where the start or a step has one, whichever comes
/// first in this order.
pub fn build<G: Graph>(
    alloc: Global,
    graph: &G,
    letters: u8,
) -> Result<(Table, Vec<G::Node>), SpecError>
    requires { letters ≤ 32 }
    ensures shape { IfOk result (λ r. (r.0.letters ≡ letters) × (r.0.groups ≡ [])) }
    ensures follows { IfOk result (λ r. Follows (G.meaning graph.now) r.0 (map (G.data_of graph.now) r.1.items)) }
    ensures explored { IfOk result (λ r. IsExplored (G.meaning graph.now) letters
        (Ok (map (G.data_of graph.now) r.1.items))) }
    ensures fault { IfErr result (λ e. IfBad e (λ fault. IsExplored (G.meaning graph.now) letters (Err fault))) }
    ensures cause { IfErr result (λ e. IfBad e (λ fault. IsMet (G.meaning graph.now) letters fault
        ⊎ ((fault ≡ SpecFault.TooManyStates) × IsCrowded (G.meaning graph.now) letters))) }
    ensures refused { (fault : SpecFault) → IsExplored (G.meaning graph.now) letters (Err fault) →
        (result ≡ Err (SpecError.Bad fault)) ⊎ (result ≡ Err SpecError.NoMemory) }
    ensures accepted { (found : _) → IsExplored (G.meaning graph.now) letters (Ok found)
        → IsOkUnless result SpecError.NoMemory }
{
    let mut work = begin(alloc, graph)?;
    let mut state = 0;
    while state < work.nodes.len() {
        expand(graph, &mut work, state, letters)?;
        state += 1;
    }
    let Work { nodes, known, next } = work;
    let table = Table::new(alloc, letters, nodes.len() as u16, next);
    Ok((table, nodes))
}

/// The start alone.
fn begin<G: Graph>(alloc: Global, graph: &G) -> Result<Work<G::Node>, SpecError>
    ensures ok { IfOk result (λ w. first_found (G.meaning graph.now).start
        ≡ Ok (map (G.data_of graph.now) w.nodes.items)) }
    ensures next { IfOk result (λ w. w.next.items ≡ []) }
    ensures index { IfOk result (λ w. IsIndex (G.key_of graph.now) (map (G.data_of graph.now) w.nodes.items) w.known) }
    ensures fault { IfErr result (λ e. IfBad e (λ fault. (G.meaning graph.now).start ≡ Err fault)) }
{
    let node = graph.start()?;
    let known = Known::new(alloc)?;
    let mut work = Work {
        nodes: Vec::new(alloc),
        known,
        next: Vec::new(alloc),
    };
    append(graph, &mut work, node)?;
    Ok(work)
}

/// Takes the letters of a state in order.
fn expand<G: Graph>(
    graph: &G,
    work: &mut Work<G::Node>,
    state: usize,
    letters: u8,
) -> Result<(), SpecError>
    requires state { state < vec_len work.old.nodes }
    requires work { IsInWork (G.meaning graph.now) letters (state * letters)
        (map (G.data_of graph.now) work.old.nodes.items) work.old.next.items }
    requires index { IsIndex (G.key_of graph.now) (map (G.data_of graph.now) work.old.nodes.items) work.old.known }
    ensures work { OnOk result (IsInWork (G.meaning graph.now) letters ((state + 1) * letters)
        (map (G.data_of graph.now) work.new.nodes.items) work.new.next.items) }
    ensures index { OnOk result (IsIndex (G.key_of graph.now)
        (map (G.data_of graph.now) work.new.nodes.items) work.new.known) }
    ensures grown { OnOk result (vec_len work.old.nodes ≤ vec_len work.new.nodes) }
    ensures fault { IfErr result (λ e. IfBad e (λ fault. IsExplored (G.meaning graph.now) letters (Err fault))) }
{
    for letter in 0..letters {
        follow(graph, work, state, Letter(letter))?;
    }
    Ok(())
}

/// Takes a letter of a state: finds the state that it leads to, and notes it.
fn follow<G: Graph>(
    graph: &G,
    work: &mut Work<G::Node>,
    state: usize,
    letter: Letter,
) -> Result<(), SpecError>
    requires state { state < vec_len work.old.nodes }
    requires bounded { vec_len work.old.nodes ≤ most_states }
    requires index { IsIndex (G.key_of graph.now) (map (G.data_of graph.now) work.old.nodes.items) work.old.known }
    ensures finds { (d : _) → slice_get (map (G.data_of graph.now) work.old.nodes.items) state ≡ Some d →
        OnOk result (Finds (map (G.data_of graph.now) work.old.nodes.items) ((G.meaning graph.now).step d letter.0)
        (Ok (map (G.data_of graph.now) work.new.nodes.items))) }
    ensures fault { (d : _) → slice_get (map (G.data_of graph.now) work.old.nodes.items) state ≡ Some d →
        IfErr result (λ e. IfBad e (λ fault. Finds (map (G.data_of graph.now) work.old.nodes.items)
        ((G.meaning graph.now).step d letter.0) (Err fault))) }
    ensures target { (d : _) → slice_get (map (G.data_of graph.now) work.old.nodes.items) state ≡ Some d →
        OnOk result ((e : _) × (target : ℕ) × ((G.meaning graph.now).step d letter.0 ≡ Ok e)
        × (slice_get (map (G.data_of graph.now) work.new.nodes.items) target ≡ Some e)
        × (work.new.next.items ≡ work.old.next.items ++ target ∷ [])) }
    ensures index { OnOk result (IsIndex (G.key_of graph.now)
        (map (G.data_of graph.now) work.new.nodes.items) work.new.known) }
{
    let node = graph.step(&work.nodes[state], letter)?;
    let target = number(graph, work, node)?;
    work.next.push(target)?;
    Ok(())
}

/// The number of a node, which is a new one where no known node stands for the same.
fn number<G: Graph>(graph: &G, work: &mut Work<G::Node>, node: G::Node) -> Result<u16, SpecError>
    requires bounded { vec_len work.old.nodes ≤ most_states }
    requires index { IsIndex (G.key_of graph.now) (map (G.data_of graph.now) work.old.nodes.items) work.old.known }
    ensures finds { OnOk result (Finds (map (G.data_of graph.now) work.old.nodes.items) (Ok (G.data_of graph.now node))
        (Ok (map (G.data_of graph.now) work.new.nodes.items))) }
    ensures fault { IfErr result (λ e. IfBad e
        (λ fault. Finds (map (G.data_of graph.now) work.old.nodes.items) (Ok (G.data_of graph.now node)) (Err fault))) }
    ensures at_key { IfOk result (λ number. slice_get (map (G.data_of graph.now) work.new.nodes.items) number
        ≡ Some (G.data_of graph.now node)) }
    ensures index { OnOk result (IsIndex (G.key_of graph.now)
        (map (G.data_of graph.now) work.new.nodes.items) work.new.known) }
    ensures next { work.new.next ≡ work.old.next }
{
    for number in work.known.bucket(graph.key(&node)) {
        if graph.same(&work.nodes[*number as usize], &node) {
            return Ok(*number);
        }
    }
    if work.nodes.len() == MAX_STATES {
        return Err(SpecFault::TooManyStates.into());
    }
    append(graph, work, node)
}

/// Makes a node known, and gives it the next number.
fn append<G: Graph>(graph: &G, work: &mut Work<G::Node>, node: G::Node) -> Result<u16, SpecError>
    requires bounded { vec_len work.old.nodes < most_states }
    requires index { IsIndex (G.key_of graph.now) (map (G.data_of graph.now) work.old.nodes.items) work.old.known }
    ensures fault { IfErr result (λ e. e ≡ SpecError.NoMemory) }
    ensures number { IfOk result (λ number. number ≡ vec_len work.old.nodes) }
    ensures found { OnOk result (map (G.data_of graph.now) work.new.nodes.items
        ≡ map (G.data_of graph.now) work.old.nodes.items ++ G.data_of graph.now node ∷ []) }
    ensures index { OnOk result (IsIndex (G.key_of graph.now)
        (map (G.data_of graph.now) work.new.nodes.items) work.new.known) }
    ensures next { work.new.next ≡ work.old.next }
{
    let number = work.nodes.len() as u16;
    work.known.add(graph.key(&node), number)?;
    work.nodes.push(node)?;
    Ok(number)
}
