//! Tests of `key_index`: kinds of keys in one table and in eight, and orders of insertion, against a sorted vector.
ghost use Rattle.std.specs.List.{flat_map};
ghost use Rattle.std.specs.Prelude.{◌≡◌, ℕ, ◌<◌, ◌≤◌, ◌%◌, if◌then◌else◌, length, take, drop, IfOk};
ghost use Rattle.layout.specs.Sizes.{tables};
ghost use Rattle.key_index.specs.Index.{IsIndexOf};

use key_index::{KeyIndex, Keys};
use rows::Key;
use std::alloc::{AllocError, Global};
use std::test::Fail;

/// Keys by row.
#[derive(Drop)]
struct Shelf {
    keys: Vec<Vec<u8>>,
    // whether the rows are of eight tables in turn, and not of the first alone
    mixed: bool,
}

impl Shelf {
    /// The bytes of the key of a row.
    fn bytes(&self, row: u32) -> &[u8]
        requires { row < length self.now.keys.items }
        ensures { result.now ≡ flat_map (λ key. key.items) (take 1 (drop row self.now.keys.items)) }
    {
        self.keys[row as usize].as_slice()
    }
}

/// The table of a row.
fn table_of(mixed: bool, row: u32) -> u8
    ensures is { result ≡ (if mixed then row % 8 else 0) }
    ensures below { result < tables }
{
    if mixed { (row % 8) as u8 } else { 0 }
}

impl Keys for Shelf {
    ghost use Rattle.std.specs.List.{flat_map};
    ghost use Rattle.std.specs.Prelude.{ℕ, ◌<◌, ◌%◌, if◌then◌else◌, length, take, drop};
    ghost use Rattle.rows.specs.Key.{in_table};

    ghost has_row = { λ shelf row. row < length shelf.keys.items };

    ghost key_of = { λ shelf row. in_table (if shelf.mixed then row % 8 else 0)
        (flat_map (λ key. key.items) (take 1 (drop row shelf.keys.items))) };

    fn key(&self, row: u32) -> Key<'_> {
        Key {
            table: table_of(self.mixed, row),
            bytes: self.bytes(row),
        }
    }
}

/// Puts a row in, if its key is not there and there is room.
fn insert_row<K: Keys>(index: &mut KeyIndex, keys: &K, row: u32)
    requires index { IsIndexOf (K.has_row keys.now) (K.key_of keys.now) index.old }
    requires readable { K.has_row keys.now row }
    ensures { IsIndexOf (K.has_row keys.now) (K.key_of keys.now) index.new }
{
    if index.len() >= index.room() {
        return;
    }
    let key = keys.key(row);
    let Err(place) = index.search(keys, &key) else {
        return;
    };
    index.insert_at(keys, place, row);
}

/// Puts rows in.
fn fill<K: Keys>(index: &mut KeyIndex, keys: &K, rows: u32)
    requires index { IsIndexOf (K.has_row keys.now) (K.key_of keys.now) index.old }
    requires readable { (row : ℕ) → row < rows → K.has_row keys.now row }
    ensures { IsIndexOf (K.has_row keys.now) (K.key_of keys.now) index.new }
{
    for row in 0..rows {
        insert_row(index, keys, row);
    }
}

/// Takes a row out, but each third.
fn remove_row<K: Keys>(index: &mut KeyIndex, keys: &K, row: u32)
    requires index { IsIndexOf (K.has_row keys.now) (K.key_of keys.now) index.old }
    requires readable { K.has_row keys.now row }
    ensures { IsIndexOf (K.has_row keys.now) (K.key_of keys.now) index.new }
{
    if row % 3 == 0 {
        return;
    }
    let key = keys.key(row);
    index.remove(keys, &key);
}

/// Takes two of three rows out.
fn thin<K: Keys>(index: &mut KeyIndex, keys: &K, rows: u32)
    requires index { IsIndexOf (K.has_row keys.now) (K.key_of keys.now) index.old }
    requires readable { (row : ℕ) → row < rows → K.has_row keys.now row }
    ensures { IsIndexOf (K.has_row keys.now) (K.key_of keys.now) index.new }
{
    for row in 0..rows {
        remove_row(index, keys, row);
    }
}

/// A key, by its table and its bytes, and its row.
type Listed = ((u8, Vec<u8>), u32);

fn shown(key: &(u8, Vec<u8>)) -> Key<'_> {
    Key {
        table: key.0,
        bytes: key.1.as_slice(),
    }
}

/// Whether the rows from a key on are those of a list from its first such key on.
fn lists<K: Keys>(index: &KeyIndex, keys: &K, wanted: &[Listed], from: &Key<'_>) -> bool
    requires index { IsIndexOf (K.has_row keys.now) (K.key_of keys.now) index.now }
    requires table { from.now.table < tables }
{
    let mut rows = index.rows_from(keys, from);
    for (key, row) in wanted {
        if !shown(key).cmp_with(from).is_lt() && rows.next() != Some(*row) {
            return false;
        }
    }
    rows.next().is_none()
}

/// Whether each row of a list is found, and there are no more.
fn finds<K: Keys>(index: &KeyIndex, keys: &K, wanted: &[Listed]) -> bool
    requires { IsIndexOf (K.has_row keys.now) (K.key_of keys.now) index.now }
{
    for (key, row) in wanted {
        let key = shown(key);
        if key.table >= 8 || index.find(keys, &key) != Some(*row) {
            return false;
        }
    }
    index.len() as usize == wanted.len()
}

/// A key that ends with a number.
fn numbered(alloc: Global, byte: u8, count: usize, number: u32) -> Result<Vec<u8>, AllocError> {
    let mut key = Vec::new(alloc);
    for _ in 0..count {
        key.push(byte)?;
    }
    let high = (number / 100 % 100) as u8;
    let low = (number % 100) as u8;
    key.extend_from_slice([
        b'0' + high / 10,
        b'0' + high % 10,
        b'0' + low / 10,
        b'0' + low % 10,
    ]
    .as_slice())?;
    Ok(key)
}

/// A key that repeats a byte.
fn repeated(alloc: Global, first: u8, byte: u8, count: u32) -> Result<Vec<u8>, AllocError> {
    let mut key = Vec::new(alloc);
    key.push(first)?;
    for _ in 0..count {
        key.push(byte)?;
    }
    Ok(key)
}

/// The key of a kind with a number below 401.
fn key_of(alloc: Global, kind: u32, number: u32) -> Result<Vec<u8>, AllocError> {
    match kind {
        // short, with 12 and with 200 bytes in common, of 256 bytes
        0 => numbered(alloc, b'k', 1, number),
        1 => numbered(alloc, b'k', 12, number),
        2 => numbered(alloc, b'k', 200, number),
        3 => numbered(alloc, 255, 252, number),
        // with one of two prefixes
        4 => numbered(alloc, if number % 2 == 0 { b'a' } else { b'b' }, 13, number),
        // one the beginning of another, with bytes that stand for those that are lacking
        5 => repeated(alloc, b'a', b'a', number),
        6 => repeated(alloc, b'a', 0, number),
        // bytes above 127
        _ => {
            let mut key = repeated(alloc, 200, 255, number % 3)?;
            key.push((number % 256) as u8)?;
            Ok(key)
        }
    }
}

const ROWS: u32 = 401;

/// The number in the key of a row below 401, in an order.
fn number_of(row: u32, order: u32) -> u32
    requires { row < 401 }
{
    match order {
        0 => row,
        1 => ROWS - 1 - row,
        _ => row * 97 % ROWS,
    }
}

/// Keys of a kind, in an order.
fn shelf_of(alloc: Global, kind: u32, order: u32, mixed: bool) -> Result<Shelf, AllocError>
    ensures { IfOk result (λ shelf. length shelf.keys.items ≡ 401) }
{
    let mut keys = Vec::new(alloc);
    for row in 0..ROWS {
        keys.push(key_of(alloc, kind, number_of(row, order))?)?;
    }
    Ok(Shelf { keys, mixed })
}

/// The keys and rows of the first rows of a shelf, or each third of them, in order.
fn sorted(alloc: Global, shelf: &Shelf, rows: u32, step: u32) -> Result<Vec<Listed>, AllocError> {
    let mut sorted = Vec::new(alloc);
    let mut number: u32 = 0;
    for key in &shelf.keys {
        if number < rows && number % step.max(1) == 0 {
            let table = table_of(shelf.mixed, number);
            sorted.push(((table, key.clone()?), number))?;
        }
        number = number.wrapping_add(1);
    }
    sorted.sort()?;
    Ok(sorted)
}

const STARTS: [&[u8]; 7] = [
    b"",
    b"aaa",
    b"a\0\0\0",
    b"b",
    b"kkkkkkkkkkkk03",
    b"z",
    b"\xc8\xff",
];

/// Whether the rows from some bytes on in each of three tables are those of a list.
fn lists_from<K: Keys>(index: &KeyIndex, keys: &K, wanted: &[Listed], start: &[u8]) -> bool
    requires { IsIndexOf (K.has_row keys.now) (K.key_of keys.now) index.now }
{
    let first = Key {
        table: 0,
        bytes: start,
    };
    let later = Key {
        table: 3,
        bytes: start,
    };
    let last = Key {
        table: 7,
        bytes: start,
    };
    lists(index, keys, wanted, &first)
        && lists(index, keys, wanted, &later)
        && lists(index, keys, wanted, &last)
}

/// Whether the rows from each of some keys on are those of a list.
fn agrees<K: Keys>(index: &KeyIndex, keys: &K, wanted: &[Listed]) -> bool
    requires { IsIndexOf (K.has_row keys.now) (K.key_of keys.now) index.now }
{
    for start in STARTS {
        if !lists_from(index, keys, wanted, start) {
            return false;
        }
    }
    finds(index, keys, wanted)
}

/// Whether an index of keys of a kind agrees with a sorted vector: filled in an order, thinned and filled again.
fn is_right(alloc: Global, kind: u32, order: u32, mixed: bool) -> Result<bool, AllocError> {
    let shelf = shelf_of(alloc, kind, order, mixed)?;
    let all = sorted(alloc, &shelf, ROWS, 1)?;
    let thirds = sorted(alloc, &shelf, ROWS, 3)?;
    let mut index = KeyIndex::new(alloc, ROWS)?;
    Ok(agree(&mut index, &shelf, &all, &thirds) == [true; 3])
}

/// Whether an index agrees with a list once it is filled, with another one once it is thinned, and with the first again.
fn agree<K: Keys>(index: &mut KeyIndex, keys: &K, all: &[Listed], thirds: &[Listed]) -> [bool; 3]
    requires index { IsIndexOf (K.has_row keys.now) (K.key_of keys.now) index.old }
    requires readable { (row : ℕ) → row < 401 → K.has_row keys.now row }
{
    fill(index, keys, ROWS);
    let filled = agrees(index, keys, all);
    thin(index, keys, ROWS);
    let thinned = agrees(index, keys, thirds);
    fill(index, keys, ROWS);
    [filled, thinned, agrees(index, keys, all)]
}

#[test]
fn rows_are_in_the_order_of_a_sorted_vector(rt: HostRuntime) -> Result<(), Fail> {
    for kind in 0..8 {
        for order in 0..3 {
            assert!(rt;
                is_right(rt.alloc(), kind, order, false)?
                    && is_right(rt.alloc(), kind, order, true)?,
                "kind {kind} order {order}"
            );
        }
    }
    Ok(())
}

/// Whether an index takes as many rows as it has room for, and no more.
fn is_filled(alloc: Global, room: u32, order: u32) -> Result<bool, AllocError> {
    let shelf = shelf_of(alloc, 1, order, false)?;
    let wanted = sorted(alloc, &shelf, room, 1)?;
    let mut index = KeyIndex::new(alloc, room)?;
    fill(&mut index, &shelf, ROWS);
    let found = (index.len(), index.room(), agrees(&index, &shelf, &wanted));
    Ok(found == (room, room, true))
}

#[test]
fn as_many_rows_as_there_is_room_for(rt: HostRuntime) -> Result<(), Fail> {
    for room in [1, 2, 128, 129, 256, 257, 258, 400] {
        for order in 0..3 {
            assert!(rt;
                is_filled(rt.alloc(), room, order)?,
                "room {room} order {order}"
            );
        }
    }
    Ok(())
}

#[test]
fn an_index_with_room_for_no_row(rt: HostRuntime) -> Result<(), Fail> {
    let shelf = shelf_of(rt.alloc(), 0, 0, false)?;
    let mut index = KeyIndex::new(rt.alloc(), 0)?;
    assert_eq!(rt; (index.room(), index.len()), (0, 0));
    let key = Key {
        table: 0,
        bytes: b"k0000",
    };
    let least = Key {
        table: 0,
        bytes: b"",
    };
    let found = index.find(&shelf, &key);
    let removed = index.remove(&shelf, &key);
    let next = index.rows_from(&shelf, &least).next();
    assert_eq!(rt; [found, removed, next], [None; 3]);
    Ok(())
}
