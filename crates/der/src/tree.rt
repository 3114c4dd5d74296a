ghost use Rattle.std.specs.Prelude.{◌≡◌, ℕ, ◌+◌, ◌≤◌, ◌++◌, List, length};
ghost use Rattle.der.specs.Node.{Node, encoding, contents_octets, IsFormed, IsLawful, AreOctets};

use crate::tag::Tag;

/// A value: contents octets under a tag, or further values under a tag (X.690 8.1.1, 8.1.4).
#[derive(Drop)]
pub enum Tree {
    /// Contents octets, under a tag whose bit 6 is 0 where the value is lawful.
    Primitive(Tag, Vec<u8>),
    /// Values one after the other, under a tag whose bit 6 is 1 where the value is lawful.
    Constructed(Tag, Vec<Tree>),
}

/// No two lawful values have one encoding.
pub fn trees_have_one_encoding()
    ensures { (m n : Node) → IsLawful m → IsLawful n → encoding m ≡ encoding n → m ≡ n }
{}

/// An encoding consists of octets: at least two more than its contents, at most five more, and it tells where it ends.
pub fn encodings_are_bounded()
    ensures octets { (n : Node) → IsFormed n → AreOctets (encoding n) }
    ensures at_least { (n : Node) → length (contents_octets n) + 2 ≤ length (encoding n) }
    ensures at_most { (n : Node) → IsFormed n → length (encoding n) ≤ length (contents_octets n) + 5 }
    ensures ends { (m n : Node) (x y : List ℕ) → IsFormed m → IsFormed n → encoding m ++ x ≡ encoding n ++ y
        → (m ≡ n) × (x ≡ y) }
{}
