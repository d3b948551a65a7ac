//! The traces and the script of the folder examples, and their reports. A test reads no files: so the same bytes stand here.
use super::says;
use shardcache::Status;
use std::test::Fail;

const REPLACED: &[u8] = b"# Three rows are put; one is replaced, one is erased.\n\
put user:1 Ada\n\
put user:2 Grace\n\
put user:3 Edsger\n\
put user:1 Ada Lovelace\n\
get user:1\n\
erase user:2\n\
get user:2\n\
erase user:2\n\
scan user: 9\n";

const REPLACED_REPORT: &[u8] = b"1 stored\n\
2 stored\n\
3 stored\n\
4 replaced\n\
5 value Ada Lovelace\n\
6 erased\n\
7 missing\n\
8 missing\n\
9 keys user:1 user:3\n\
journal 0 1 2 3 4 5 6 7 8 9\n\
shard 0 rows 2 live 120 lent 0 back 0\n";

const SCAN: &[u8] =
    b"# Fruits on three shards. A scan asks all three, and its line joins what they found.\n\
put apple red\n\
put banana yellow\n\
put blueberry blue\n\
put grape green\n\
put peach orange\n\
put quince yellow\n\
scan a 32\n\
scan b 2\n\
scan x 5\n";

// Worked by hand: the words of number 7 modulo 3, which say whose turn it is, begin 2 1 1 0 0 0 0 0 1 2 1 2 0 0 1 1 2, and a turn
// does what others asked of the shard, and then its own next part. `bench/check.py` replays the rest.
const SCAN_REPORT: &[u8] = b"1 stored\n\
2 stored\n\
3 stored\n\
4 stored\n\
5 stored\n\
6 stored\n\
7 keys apple blueberry grape peach\n\
8 keys banana blueberry\n\
9 keys\n\
journal 0 1 4 7 8 6 9\n\
journal 1 3 5 7 8 9\n\
journal 2 7 2 8 9\n\
shard 0 rows 3 live 160 lent 5 back 5\n\
shard 1 rows 2 live 112 lent 6 back 6\n\
shard 2 rows 1 live 56 lent 7 back 7\n";

const TWO_ORIGINS: &[u8] =
    b"# Commands 1, 3 and 5 are issued at shard 0, which owns the key, and 2, 4 and 6 at shard 1.\n\
put a first\n\
put a second\n\
get a\n\
get a\n\
erase a\n\
get a\n";

// Worked by hand: modulo 2 the words begin 0 0 0 1 1 1, so shard 0 does its three commands before shard 1 asks for its first.
const TWO_ORIGINS_REPORT: &[u8] = b"1 stored\n\
2 stored\n\
3 value first\n\
4 value second\n\
5 erased\n\
6 value second\n\
journal 0 1 3 5 2 4 6\n\
journal 1\n\
shard 0 rows 1 live 48 lent 3 back 3\n\
shard 1 rows 0 live 0 lent 3 back 3\n";

const TABLES: &[u8] = b"version 2\n\
# Table 1 has names, table 2 what is known of their sessions. A key is one of its table.\n\
put 1 ada Ada Lovelace\n\
put 1 grace Grace Hopper\n\
put 2 ada since noon\n\
get 1 ada\n\
get 2 ada\n\
get 2 grace\n\
scan 1 a 9\n\
scan 2 a 9\n\
erase 2 ada\n\
get 1 ada\n\
scan 2 a 9\n";

const TABLES_REPORT: &[u8] = b"1 stored\n\
2 stored\n\
3 stored\n\
4 value Ada Lovelace\n\
5 value since noon\n\
6 missing\n\
7 keys ada grace\n\
8 keys ada\n\
9 erased\n\
10 value Ada Lovelace\n\
11 keys\n\
journal 0 1 2 3 4 5 6 7 8 9 10 11\n\
shard 0 rows 2 live 120 lent 0 back 0\n";

const DIRTY: &[u8] = b"# A basket is put twice, and is read from memory until its lines are out.\n\
put basket:7 apples\n\
get basket:7\n\
put basket:7 apples pears\n\
get basket:7\n\
get basket:8\n\
erase basket:7\n\
get basket:7\n\
put basket:8 plums\n";

const DIRTY_REPORT: &[u8] = b"2 dirty apples\n\
4 dirty apples pears\n\
5 clean\n\
6 passed\n\
7 dirty apples pears\n\
put basket:7 apples\n\
put basket:7 apples pears\n\
put basket:8 plums\n\
dirty 3\n";

const INDEX: &[u8] = b"# Fruits are numbered by their puts. One is put again, one is erased.\n\
put banana yellow\n\
put apple red\n\
put cherry dark\n\
get banana\n\
scan a 10\n\
put apple green\n\
get apple\n\
erase banana\n\
erase banana\n\
scan b 2\n\
get banana\n";

const INDEX_REPORT: &[u8] = b"1 stored\n\
2 stored\n\
3 stored\n\
4 at 1\n\
5 keys apple banana cherry\n\
6 replaced\n\
7 at 6\n\
8 erased\n\
9 missing\n\
10 keys cherry\n\
11 missing\n\
index 2\n";

const VALUES: &[u8] =
    b"# A name is set, read in parts, set anew and dropped. What is read from its end on has no bytes.\n\
set 7 The quick brown fox\n\
read 7 0 9\n\
read 7 10 64\n\
read 7 19 1\n\
set 7 jumps\n\
set 8 over the lazy dog\n\
read 7 0 64\n\
drop 7\n\
read 7 0 64\n\
drop 7\n\
read 8 9 4\n";

const VALUES_REPORT: &[u8] = b"1 set\n\
2 value 19 The quick\n\
3 value 19 brown fox\n\
4 value 19 \n\
5 set\n\
6 set\n\
7 value 5 jumps\n\
8 dropped\n\
9 missing\n\
10 missing\n\
11 value 17 lazy\n\
values 1 live 56\n";

#[test]
fn the_examples_have_their_reports(rt: HostRuntime) -> Result<(), Fail> {
    let rows: [(&[&str], &[u8], &[u8]); 7] = [
        (&["dirty"], DIRTY, DIRTY_REPORT),
        (&["index"], INDEX, INDEX_REPORT),
        (&["values"], VALUES, VALUES_REPORT),
        (&["run"], REPLACED, REPLACED_REPORT),
        (&["run"], TABLES, TABLES_REPORT),
        (
            &["sim", "--shards", "3", "--number", "7"],
            SCAN,
            SCAN_REPORT,
        ),
        (
            &["sim", "--shards", "2", "--number", "7"],
            TWO_ORIGINS,
            TWO_ORIGINS_REPORT,
        ),
    ];
    for (words, trace, report) in rows {
        assert!(rt;
            says(&rt, rt.alloc(), words, trace, Status::Done, report)?,
            "{words:?}"
        );
    }
    Ok(())
}
