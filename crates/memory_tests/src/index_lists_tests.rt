//! Two lists of four indices, front and back and neighbours; and a table of entries that are alike at first, beside what was set.
use index_lists::{IndexLists, LazyTable};
use std::test::Fail;

#[test]
fn lists_give_front_and_back_and_neighbours(rt: HostRuntime) -> Result<(), Fail> {
    let mut lists = IndexLists::new(rt.alloc(), 4, 2)?;
    assert_eq!(rt; (lists.front(0), lists.back(0)), (None, None));
    lists.push_front(0, 2);
    lists.push_front(0, 3);
    lists.push_front(1, 0);
    lists.push_front(0, 1);
    assert_eq!(rt; (lists.front(0), lists.back(0)), (Some(1), Some(2)));
    assert_eq!(rt; (lists.next(0, 1), lists.next(0, 2)), (Some(3), None));
    assert_eq!(rt; (lists.prev(0, 2), lists.prev(0, 1)), (Some(3), None));
    lists.remove(0, 3);
    lists.remove(0, 1);
    assert_eq!(rt; (lists.front(0), lists.back(0)), (Some(2), Some(2)));
    assert_eq!(rt;
        (lists.front(1), lists.len(0), lists.len(1)),
        (Some(0), 1, 1)
    );
    Ok(())
}

#[test]
fn entries_that_were_not_set_are_as_at_first(rt: HostRuntime) -> Result<(), Fail> {
    let mut table = LazyTable::new(rt.alloc(), 6, 9u32)?;
    assert_eq!(rt; (table.len(), table.get(0), table.get(5)), (6, 9, 9));
    table.set(3, 1);
    assert_eq!(rt; (table.get(0), table.get(2), table.get(3)), (9, 9, 1));
    assert_eq!(rt; (table.get(4), table.get(5)), (9, 9));
    table.set(1, 2);
    assert_eq!(rt; (table.get(0), table.get(1), table.get(3)), (9, 2, 1));
    table.set(5, 3);
    assert_eq!(rt; (table.get(3), table.get(4), table.get(5)), (1, 9, 3));
    Ok(())
}

#[test]
fn entries_that_are_reached_can_be_read_and_set_as_written(rt: HostRuntime) -> Result<(), Fail> {
    let mut table = LazyTable::new(rt.alloc(), 4, 7u32)?;
    table.reach(3);
    assert_eq!(rt; (table.get_written(0), table.get_written(2)), (7, 7));
    table.set_written(2, 5);
    table.reach(2);
    assert_eq!(rt; (table.get(1), table.get(2), table.get(3)), (7, 5, 7));
    assert_eq!(rt; table.len(), 4);
    Ok(())
}

#[test]
fn a_table_of_no_entries_has_none(rt: HostRuntime) -> Result<(), Fail> {
    let table = LazyTable::new(rt.alloc(), 0, 7u32)?;
    assert_eq!(rt; table.len(), 0);
    Ok(())
}
