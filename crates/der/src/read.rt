//! Reading a value, or refusing octets at their first fault.
ghost use Rattle.std.specs.Prelude.{◌≡◌, ℕ, ◌<◌, ◌+◌, ◌*◌, List, length, map, IfOk, IfErr};
ghost use Rattle.der.specs.{Node.Node, Node.encoding, Node.IsLawful, FirstFault.node_at, FirstFault.nodes_with};
ghost use Rattle.der.specs.{FirstFault.tree_of, auxiliary.Piece.piece_view, Tree.view, Tree.nodes, Tree.IsRead};
ghost use Rattle.der.specs.FirstFault.{Gives, Reads, IsFaultOf, long_length, length_at, identifier_at, element_at};

use crate::fault::DerFault;
use crate::tag::Tag;
use crate::tree::Tree;
use std::alloc::Global;

/// How many levels a value may have; itself is one.
pub(crate) const MAX_LEVELS: u8 = 32;

/// The front of octets: a value's identifier octet and contents octets, and the octets after it.
#[derive(Clone, Copy)]
pub(crate) struct Piece<'a> {
    pub(crate) tag: Tag,
    pub(crate) contents: &'a [u8],
    pub(crate) rest: &'a [u8],
}

/// The identifier octet, and the octets after it.
#[tactic(auto, unfolding(crate::specs::FirstFault::identifier_at))]
fn read_identifier(bytes: &[u8]) -> Result<(Tag, &[u8]), DerFault>
    ensures read { Reads (λ found. (found.0.octet, found.1.now)) result (identifier_at bytes.now) }
    ensures shorter { IfOk result (λ found. length found.1.now < length bytes.now) }
{
    match bytes {
        [] => Err(DerFault::Truncated),
        [octet, rest @ ..] => {
            let tag = Tag::new(*octet).ok_or(DerFault::HighTag)?;
            Ok((tag, rest))
        }
    }
}

/// How many contents octets there are, by the octets after the first length octet. They must be the fewest, so the
/// first of them is not 0 and the number is at least 128 (X.690 8.1.3.5, 10.1).
#[tactic(auto, unfolding(crate::specs::FirstFault::long_length))]
fn long_length(octets: &[u8]) -> Result<usize, DerFault>
    ensures { (rest : List ℕ) → Reads (λ count. (count, rest)) result (long_length octets.now rest) }
{
    let [first, others @ ..] = octets else {
        return Err(DerFault::LengthForm);
    };
    if *first == 0 {
        return Err(DerFault::LengthForm);
    }
    let first = usize::from(*first);
    match others {
        [] if first < 128 => Err(DerFault::LengthForm),
        [] => Ok(first),
        [low] => Ok(first * 256 + usize::from(*low)),
        [middle, low] => Ok((first * 256 + usize::from(*middle)) * 256 + usize::from(*low)),
        [_second, _third, _fourth, _others @ ..] => Err(DerFault::TooLong),
    }
}

/// How many contents octets there are, by the length octets at the front, and the octets after those.
#[tactic(auto, unfolding(crate::specs::FirstFault::length_at))]
fn read_length(bytes: &[u8]) -> Result<(usize, &[u8]), DerFault>
    ensures read { Reads (λ found. (found.0, found.1.now)) result (length_at bytes.now) }
    ensures shorter { IfOk result (λ found. length found.1.now < length bytes.now) }
{
    match bytes {
        [] => Err(DerFault::Truncated),
        [first, rest @ ..] => {
            if *first < 0x80 {
                return Ok((usize::from(*first), rest));
            }
            if *first == 0x80 || *first == 0xff {
                return Err(DerFault::LengthForm);
            }
            let count = usize::from(*first - 0x80);
            if rest.len() < count {
                return Err(DerFault::Truncated);
            }
            let (octets, rest) = rest.split_at(count);
            Ok((long_length(octets)?, rest))
        }
    }
}

/// Identifier and contents of the value at the front, and the octets after it, whatever the contents are.
#[tactic(auto, unfolding(crate::specs::FirstFault::element_at, crate::specs::FirstFault::contents_at))]
pub(crate) fn read_element(bytes: &[u8]) -> Result<Piece<'_>, DerFault>
    ensures read { Reads piece_view result (element_at bytes.now) }
    ensures shorter { IfOk result (λ piece. length piece.rest.now < length bytes.now) }
{
    let (tag, rest) = read_identifier(bytes)?;
    let (count, rest) = read_length(rest)?;
    if rest.len() < count {
        return Err(DerFault::Truncated);
    }
    let (contents, rest) = rest.split_at(count);
    Ok(Piece {
        tag,
        contents,
        rest,
    })
}

/// The value at the front of at most that many levels, and the octets after it. A value's own faults come before those
/// of the values inside it.
#[cycle(node)]
fn read_node(alloc: Global, levels: u8, bytes: &[u8]) -> Result<(Tree, &[u8]), DerFault>
    ensures read { Gives (λ found. (view found.0, found.1.now)) result (node_at levels bytes.now) }
    ensures shorter { IfOk result (λ found. length found.1.now < length bytes.now) }
{
    if levels == 0 {
        return Err(DerFault::TooDeep);
    }
    let Piece {
        tag,
        contents,
        rest,
    } = read_element(bytes)?;
    if tag.is_constructed() {
        let components = read_nodes(alloc, levels - 1, contents)?;
        return Ok((Tree::Constructed(tag, components), rest));
    }
    let mut copied = Vec::new(alloc);
    copied.extend_from_slice(contents)?;
    Ok((Tree::Primitive(tag, copied), rest))
}

/// Values one after the other, until the octets end.
#[cycle(node)]
fn read_nodes(alloc: Global, levels: u8, bytes: &[u8]) -> Result<Vec<Tree>, DerFault>
    ensures { Gives (λ trees. nodes (map view trees.items)) result
        (nodes_with (node_at levels) (length bytes.now) bytes.now) }
{
    let mut found = Vec::new(alloc);
    let mut rest = bytes;
    while !rest.is_empty() {
        let (tree, after) = read_node(alloc, levels, rest)?;
        found.push(tree)?;
        rest = after;
    }
    Ok(found)
}

/// Reads the value that octets are: a value of at most 32 levels, with nothing after it (X.690 8.1, 10.1).
///
/// Of two faults of one value the one in the earlier octet counts, and a value's own faults come before those of the
/// values inside it, which are looked at from the left. For one value the order is: `TooDeep` for a value on level 33;
/// `Truncated` where no identifier octet stands; `HighTag`; `LengthForm` for the length octet `80` or `FF`; `Truncated`
/// where length octets are missing; `LengthForm` for more than the fewest of them; `TooLong` for 2^24 contents octets
/// or more; `Truncated` where contents octets are missing. `Trailing` comes last. `Memory` comes where it is met.
pub fn read_tree(alloc: Global, bytes: &[u8]) -> Result<Tree, DerFault>
    ensures found { IfOk result (λ tree. IsLawful (view tree) × (bytes.now ≡ encoding (view tree))) }
    ensures only { (n : Node) → IsLawful n → bytes.now ≡ encoding n → IsRead result n }
    ensures refusals { IfErr result (λ fault. IsFaultOf fault (tree_of bytes.now)) }
{
    let (tree, rest) = read_node(alloc, MAX_LEVELS, bytes)?;
    if !rest.is_empty() {
        return Err(DerFault::Trailing);
    }
    Ok(tree)
}
