//! The definitions on worked runs.
ghost use Rattle.foreign_list.specs.Blocks.{Block};
ghost use Rattle.shard_store.specs.Stores.{StoreState};
ghost use Rattle.shard_node_tests.specs.Examples.{PacketsAreRight, StandingIsRight, StrayIsRight};
ghost use Rattle.shard_node_tests.specs.TogetherExamples.{TogetherIsRight};

/// Which packets a shard takes that was asked one put, and which it sets aside.
fn packets()
    ensures { (block : Block) → PacketsAreRight block }
{}

#[test]
fn packets_are_taken_in_order() {
    packets()
}

/// The shard is in standing and done where the put was done once.
fn standing()
    ensures { (block : Block) (store : StoreState) → StandingIsRight block store }
{}

#[test]
fn a_put_is_done_once_for_another_shard() {
    standing()
}

/// A request of another number is answered by its number and the one that was expected.
fn stray()
    ensures { (block : Block) (store : StoreState) → StrayIsRight block store }
{}

#[test]
fn a_request_out_of_order_is_stray() {
    stray()
}

/// Two shards are together where the one put was done, and where nothing came that was not sent.
fn together()
    ensures { (block : Block) (store : StoreState) → TogetherIsRight block store }
{}

#[test]
fn two_shards_are_together_once_both_are_done() {
    together()
}
