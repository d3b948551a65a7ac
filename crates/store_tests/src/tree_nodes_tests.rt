//! Tests of `tree_nodes`: a node's bytes field by field, and what each call reads and changes.
ghost use Rattle.std.specs.Prelude.{◌≡◌, IfOk, length};
ghost use Rattle.tree_nodes.specs.Nodes.{node_size};

use std::alloc::Global;
use std::test::Fail;
use tree_nodes::{
    NO_PLACE, add, add_child, child, count, cut, cut_child, find, key, level, next_leaf, number,
    parent, set_child, set_next_leaf, set_number, set_parent, start,
};

/// The bytes of a new node's content.
fn zeros(alloc: Global) -> Result<Vec<u8>, Fail>
    ensures { IfOk result (λ bytes. length bytes.items ≡ node_size) }
{
    Ok(vec![in alloc; 0; 4384]?)
}

#[test]
fn a_node_is_laid_out_field_by_field(rt: HostRuntime) -> Result<(), Fail> {
    let mut bytes = zeros(rt.alloc())?;
    let node = bytes.as_mut_slice();
    start(node, 1);
    set_parent(node, 0x0000_0002_0000_0030);
    add(node, 0, b"b", 7);
    set_child(node, 16, 5);
    let header = [
        0x30, 0, 0, 0, 2, 0, 0, 0, 1, 0, 1, 0, 0, 0, 0, 0, 0xff, 0xff, 0xff, 0xff, 0xff, 0xff,
        0xff, 0xff, 1, 0, 0, 0, 7, 0, 0, 0, 0x62, 0,
    ];
    assert!(rt; node.starts_with(header.as_slice()));
    assert!(rt; node[34..4248].iter().all(|byte| *byte == 0));
    assert!(rt; node[4248..4376].iter().all(|byte| *byte == 0xff));
    assert!(rt; node[4376..] == [5, 0, 0, 0, 0, 0, 0, 0]);
    Ok(())
}

#[test]
fn entries_are_added_found_and_cut(rt: HostRuntime) -> Result<(), Fail> {
    let mut bytes = zeros(rt.alloc())?;
    let node = bytes.as_mut_slice();
    start(node, 0);
    assert!(rt; level(node) == 0 && count(node) == 0);
    add(node, 0, b"b", 1);
    add(node, 0, b"a", 2);
    assert!(rt; count(node) == 2);
    assert!(rt; key(node, 0) == b"a".as_slice() && number(node, 0) == 2);
    assert!(rt; key(node, 1) == b"b".as_slice() && number(node, 1) == 1);
    set_number(node, 1, 3);
    assert!(rt; key(node, 0) == b"a".as_slice() && number(node, 1) == 3);
    cut(node, 0);
    assert!(rt; count(node) == 1 && key(node, 0) == b"b".as_slice() && number(node, 0) == 3);
    assert!(rt; find(node, b"a") == 0 && find(node, b"b") == 0 && find(node, b"ba") == 1);
    assert!(rt; node[288..4248].iter().all(|byte| *byte == 0));
    Ok(())
}

#[test]
fn children_move_up_and_down(rt: HostRuntime) -> Result<(), Fail> {
    let mut bytes = zeros(rt.alloc())?;
    let node = bytes.as_mut_slice();
    start(node, 1);
    add_child(node, 0, 10);
    add_child(node, 0, 20);
    add_child(node, 1, 30);
    assert!(rt; child(node, 0) == 20 && child(node, 1) == 30 && child(node, 2) == 10);
    set_child(node, 16, 40);
    add_child(node, 3, 50);
    assert!(rt; child(node, 3) == 50 && child(node, 16) == NO_PLACE);
    cut_child(node, 1);
    assert!(rt; child(node, 0) == 20 && child(node, 1) == 10 && child(node, 2) == 50);
    assert!(rt; parent(node) == NO_PLACE);
    set_next_leaf(node, 60);
    assert!(rt; next_leaf(node) == 60 && parent(node) == NO_PLACE && child(node, 0) == 20);
    Ok(())
}
