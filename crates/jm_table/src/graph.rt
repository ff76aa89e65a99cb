ghost use Rattle.std.specs.Prelude.{ℕ, ◌≡◌, ◌↔◌, IsTrue};
ghost use Rattle.jm_table.specs.Graphs.{GraphMeaning, Answers};

use jm_model::{Letter, SpecError};

/// A graph whose edges have letters, and which has a start. Its nodes are made as they are asked for.
///
/// A node stands for plain data, and what the graph reaches is said of this data: `meaning` has where the graph starts
/// and where each letter leads, or the one fault of that step.
pub trait Graph {
    type Node: Drop;

    /// What nodes stand for. No value of it need be made.
    type Data;

    ghost data_of: { Self → Self.Node → Self.Data };

    ghost meaning: { Self → GraphMeaning Self.Data };

    ghost key_of: { Self → Self.Data → ℕ };

    /// The start, or its fault.
    fn start(&self) -> Result<Self::Node, SpecError>
        ensures { Answers (data_of self.now) (meaning self.now).start result };

    /// Where a letter leads from a node, or the fault of this step.
    fn step(&self, node: &Self::Node, letter: Letter) -> Result<Self::Node, SpecError>
        ensures { Answers (data_of self.now) ((meaning self.now).step (data_of self.now node.now) letter.0) result };

    /// Whether two nodes stand for the same data.
    fn same(&self, a: &Self::Node, b: &Self::Node) -> bool
        ensures { IsTrue result ↔ (data_of self.now a.now ≡ data_of self.now b.now) };

    /// A hash of what the node stands for. Known nodes are looked up by its low ten bits, so these should differ
    /// where nodes do.
    fn key(&self, node: &Self::Node) -> u64
        ensures { result ≡ key_of self.now (data_of self.now node.now) };
}
