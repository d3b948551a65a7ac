//! The definitions compute on examples: journals, reports and summaries of two shards, evictions, and tables.
ghost use Rattle.cache_model.specs.Examples.{EvictionsAreRight, ReportsAreRight, SummariesAreRight, TablesAreRight, TwoShardsAreRight};

/// Two shards: their journals are legal and complete, in each order that keeps an origin's own, and a scan joins
/// the keys of both.
fn two_shards()
    ensures { TwoShardsAreRight }
{}

#[test]
fn the_journals_of_two_shards_are_complete() {
    two_shards()
}

/// The reports of one put at home, of one put for another shard, and of a scan that both shards answer.
fn reports()
    ensures { ReportsAreRight }
{}

#[test]
fn reports_are_byte_for_byte() {
    reports()
}

/// The summaries of one command of each answer, of two shards, and of a journal with an eviction.
fn summaries()
    ensures { SummariesAreRight }
{}

#[test]
fn summaries_are_byte_for_byte() {
    summaries()
}

/// The oldest row may go, and another may not; at the floor none may.
fn evictions()
    ensures { EvictionsAreRight }
{}

#[test]
fn the_oldest_row_goes_above_the_floor() {
    evictions()
}

/// A row is found, looked up and taken away in its table alone; each table's region has an active segment; and the row
/// used longest ago goes, whatever its table.
fn tables()
    ensures { TablesAreRight }
{}

#[test]
fn each_table_has_its_own_rows() {
    tables()
}
