// Values of paths.
ghost use Rattle.std.specs.Prelude.{◌≡◌, ℕ};
ghost use Rattle.table.specs.declared.records.Node.{Node};
ghost use Rattle.paths.specs.Algebra.{LawfulAlgebra};

use table::records::Node;

// A path's value is made of the weights of its nodes, by extension; the value of several paths is a choice of theirs.
pub trait PathAlgebra {
    type Value: Copy;

    ghost choice: { Self → Self.Value → Self.Value → Self.Value };

    ghost extension: { Self → Self.Value → Self.Value → Self.Value };

    ghost weight: { Self → ℕ → Node → Self.Value };

    fn choose(&self, a: Self::Value, b: Self::Value) -> Self::Value
        ensures { result ≡ choice self.now a b };

    fn extend(&self, a: Self::Value, b: Self::Value) -> Self::Value
        ensures { result ≡ extension self.now a b };

    // What the node of this number is worth.
    fn weigh(&self, number: usize, node: &Node) -> Self::Value
        ensures { result ≡ weight self.now number node.now };

    ghost lawful: { (s : Self) → LawfulAlgebra Self.Value (choice s) (extension s) };
}
