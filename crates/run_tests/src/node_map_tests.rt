use flatten_out::flatten;
use ld_json::{Tree, Trees, read_tree, text_of};
use node_ops::node_map;
use std::alloc::{AllocError, Global};
use std::test::Fail;

// A value, a reference, a graph of its own with a list in it, a label used twice and a node without one. Its node map stands as a row in
// `part_cases`.
const DOCUMENT: &str =
    r#"[{"@id":"e:a","e:p":[{"@value":"x"},{"@id":"e:b"}]},{"@id":"_:x","@graph":[{"e:p":[{"@list":[{"@id":"_:x"}]}]}]}]"#;

const FLATTENED: &str =
    r#"[{"@graph":[{"@id":"_:b1","e:p":[{"@list":[{"@id":"_:b0"}]}]}],"@id":"_:b0"},{"@id":"e:a","e:p":[{"@value":"x"},{"@id":"e:b"}]}]"#;

fn items_of(alloc: Global, text: &str) -> Result<Trees, AllocError> {
    match read_tree(alloc, text.as_bytes()) {
        Ok(Tree::Items(items)) => Ok(items),
        _ => Err(AllocError),
    }
}

#[test]
fn a_node_map_that_is_lent_is_flattened(rt: HostRuntime) -> Result<(), Fail> {
    let items = items_of(rt.alloc(), DOCUMENT)?;
    let (map, _) = node_map(rt.alloc(), &items).map_err(|_| AllocError)?;
    let flattened = text_of(rt.alloc(), &flatten(rt.alloc(), &map)?)?;
    assert!(rt; flattened.as_slice() == FLATTENED.as_bytes());
    Ok(())
}
