//! Whether a value where it lies is the tree that is read from the same octets.
use der::{Cursor, DataValue, DerFault, Tag, Tree};
use std::alloc::Global;

/// A tree with the value that is to be the same.
type Pairs<'a> = Vec<(Tree, DataValue<'a>)>;

/// Whether the cursor takes an element of that value's octets.
fn is_next(cursor: &mut Cursor<'_>, value: &DataValue<'_>) -> Result<bool, DerFault> {
    let element = cursor.next()?;
    Ok(value.octets() == element.whole)
}

/// Whether a value has as many components, each of them the element that a cursor takes. They are put to the pairs.
fn has_parts<'a>(
    pairs: &mut Pairs<'a>,
    tag: Tag,
    parts: Vec<Tree>,
    value: DataValue<'a>,
) -> Result<bool, DerFault> {
    let Some(mut values) = value.components_under(tag) else {
        return Ok(false);
    };
    let mut cursor = Cursor::new(value.element.content);
    for part in parts {
        let Some(inside) = values.next() else {
            return Ok(false);
        };
        if !is_next(&mut cursor, &inside)? {
            return Ok(false);
        }
        pairs.push((part, inside))?;
    }
    Ok(values.is_empty() && cursor.is_empty())
}

/// Whether the value is that tree but for its components, which are put to the pairs.
fn is_alike<'a>(pairs: &mut Pairs<'a>, tree: Tree, value: DataValue<'a>) -> Result<bool, DerFault> {
    match tree {
        Tree::Primitive(tag, octets) => Ok(value.contents_under(tag) == Some(octets.as_slice())),
        Tree::Constructed(tag, parts) => has_parts(pairs, tag, parts, value),
    }
}

/// Whether a value where it lies is that tree, and its components are the elements that a cursor takes.
pub fn is_tree(alloc: Global, tree: Tree, value: DataValue<'_>) -> Result<bool, DerFault> {
    let mut pairs = vec![in alloc; (tree, value)]?;
    for _ in 0..1_000_000 {
        let Some((tree, value)) = pairs.pop() else {
            return Ok(true);
        };
        if !is_alike(&mut pairs, tree, value)? {
            return Ok(false);
        }
    }
    Ok(false)
}
