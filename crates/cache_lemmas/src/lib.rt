//! Laws of journals, of the answers that are read off them, and of reports, for proofs to cite. There is nothing to call here.
//!
//! # Promises
//!
//! Laws of the definitions, which no call's clause says. Each is a lemma of `proofs/Laws.antt` under its name; one of several
//! parts has a lemma for each.
//!
//! - No two rows of the cache to which a journal leads have one key (`keys_are_distinct`).
//! - What holds of the keys and values of a trace's puts holds of every row, every reply and every answer
//!   (`replies_hold_what_was_put`).
//! - A reply's body is at most the longest value, or 258 bytes for each key asked (`bodies_have_room`).
//! - Printed lines spell one list of journals, where commands are numbered in 32 bits (`lines_print_one_list`). The lines of
//!   a report whose replies have no LF are the texts that it is made of (`a_report_has_its_lines`).
//! - With one shard the answer is the reply in its journal (`one_shard_answers_alone`).
//! - A shard's own parts are counted, and those of one peer are the parts listed for it (`issued_parts_are_counted`).
//! - What a part replies fits its command, on a cache and in every legal journal (`replies_fit_their_commands`).
//! - Logs that hold the replies to their parts hold the answers, for any number of shards (`logs_hold_the_answers`). Each
//!   command has one answer, and it is read from the log of its origin, behind the parts that were issued before
//!   (`answers_are_read_by_command`, `parts_go_up_by_command`).
//! - A legal journal replies to each command that is done in it (`a_legal_journal_replies`). It goes on from the cache to
//!   which it leads: what was replied in it stays, and a command done at its end has the reply that it has on that cache
//!   (`a_journal_goes_on`).
//! - Evictions in turn above a bound that is at least the floor are legal and stand above the bound in their journal
//!   (`evictions_in_turn_are_legal`).
#![tactic(auto)]
