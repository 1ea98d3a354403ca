//! The examples: how a command over each ends, and whether it writes what stands in the file beside it.

use crate::rows::Row;
use std::alloc::Global;
use std::fs;
use std::rt::Files;

/// A command with its files, and the file with what it writes, in a line each.
const EXAMPLES: &str = "\
    check a_race_is_no_order.trace a_race_is_no_order.out\n\
    check acquired_again.trace acquired_again.out\n\
    check another_lock.trace another_lock.out\n\
    check check_then_act.trace check_then_act.out\n\
    check comments.trace comments.out\n\
    check counter_without_a_lock.trace counter_without_a_lock.out\n\
    check cut_off.trace cut_off.out\n\
    check dictionary_keys.trace dictionary_keys.out\n\
    check dictionary_update.trace dictionary_update.out\n\
    check forgotten_joins.trace forgotten_joins.out\n\
    check fork_too_late.trace fork_too_late.out\n\
    check four_writes.trace four_writes.out\n\
    check guarded.trace guarded.out\n\
    check guarded_counter.trace guarded_counter.out\n\
    check high_water.trace high_water.out\n\
    check job_queue.trace job_queue.out\n\
    check joins_itself.trace joins_itself.out\n\
    check lost_update.trace lost_update.out\n\
    check message.trace message.out\n\
    check message_by_a_lock.trace message_by_a_lock.out\n\
    check name_twice.trace name_twice.out\n\
    check page.trace page.out\n\
    check page_behind_one_lock.trace page_behind_one_lock.out\n\
    check parts_bag.trace parts_bag.out\n\
    check put_under_a_share.trace put_under_a_share.out\n\
    check read_after_join.trace read_after_join.out\n\
    check readers_and_a_writer.trace readers_and_a_writer.out\n\
    check recorded_cpp.trace recorded_cpp.out\n\
    check recorded_go.trace recorded_go.out\n\
    check recorded_java.trace recorded_java.out\n\
    check recorded_python.trace recorded_python.out\n\
    check refused_bad_line.trace refused_bad_line.out\n\
    check refused_header_first.trace refused_header_first.out\n\
    check refused_late_root.trace refused_late_root.out\n\
    check refused_lock_held.trace refused_lock_held.out\n\
    check refused_not_held.trace refused_not_held.out\n\
    check refused_thread_ended.trace refused_thread_ended.out\n\
    check refused_unknown_kind.trace refused_unknown_kind.out\n\
    check refused_unknown_method.trace refused_unknown_method.out\n\
    check refused_unknown_object.trace refused_unknown_object.out\n\
    check refused_wrong_count.trace refused_wrong_count.out\n\
    check replay_differs.trace replay_differs.out\n\
    check swaps.trace swaps.out\n\
    check tasks.trace tasks.out\n\
    check texts.trace texts.out\n\
    check two_puts.trace two_puts.out\n\
    check unwritten_lock.trace unwritten_lock.out\n\
    check updates_in_turn.trace updates_in_turn.out\n\
    check word_count.trace word_count.out\n\
    check-json dictionary_update.trace dictionary_update.json.out\n\
    epochs forgotten_reader.trace forgotten_reader.out\n\
    epochs lazy_value.trace lazy_value.out\n\
    epochs lazy_value_under_its_lock.trace lazy_value_under_its_lock.out\n\
    epochs recorded_accesses.trace recorded_accesses.out\n\
    epochs two_puts_as_writes.trace two_puts_as_writes.out\n\
    replay check_then_act.trace check_then_act.replay.out\n\
    replay dictionary_update.trace dictionary_update.replay.out\n\
    replay guarded_counter.trace guarded_counter.replay.out\n\
    replay parts_bag.trace parts_bag.replay.out\n\
    replay refused_bad_line.trace refused_bad_line.replay.out\n\
    replay replay_differs.trace replay_differs.replay.out\n\
    replay updates_in_turn.trace updates_in_turn.replay.out\n\
    points account.spec account.points.out\n\
    points sessions.spec sessions.points.out\n\
    spec account.spec account.spec.out\n\
    spec bounded_queue.spec bounded_queue.spec.out\n\
    spec concurrent_map.spec concurrent_map.spec.out\n\
    spec concurrent_map.spec.out concurrent_map.spec.out\n\
    spec refused_arguments.spec refused_arguments.spec.out\n\
    spec refused_cross_relation.spec refused_cross_relation.spec.out\n\
    spec refused_duplicate.spec refused_duplicate.spec.out\n\
    spec refused_header.spec refused_header.spec.out\n\
    spec refused_kind_taken.spec refused_kind_taken.spec.out\n\
    spec refused_missing_pair.spec refused_missing_pair.spec.out\n\
    spec refused_no_variable.spec refused_no_variable.spec.out\n\
    spec refused_not_over_cross.spec refused_not_over_cross.spec.out\n\
    spec refused_or_of_cross.spec refused_or_of_cross.spec.out\n\
    spec refused_syntax.spec refused_syntax.spec.out\n\
    spec refused_unknown_method_in_pair.spec refused_unknown_method_in_pair.spec.out\n\
    spec refused_unknown_variable.spec refused_unknown_variable.spec.out\n\
    spec refused_wrong_order.spec refused_wrong_order.spec.out\n\
    spec sessions.spec sessions.spec.out\n\
    check account_in_turn.trace account.spec account_in_turn.out\n\
    check account_race.trace account.spec account_race.out\n\
    check account_race.trace refused_header.spec refused_header.spec.out\n\
    check four_writes.trace account.spec four_writes.out\n\
    check kinds/configuration.trace kinds/configuration.spec kinds/configuration.out\n\
    check kinds/configuration_race.trace kinds/configuration.spec kinds/configuration_race.out\n\
    check kinds/connections.trace kinds/connections.spec kinds/connections.out\n\
    check kinds/connections_race.trace kinds/connections.spec kinds/connections_race.out\n\
    check kinds/ids.trace kinds/ids.spec kinds/ids.out\n\
    check kinds/ids_race.trace kinds/ids.spec kinds/ids_race.out\n\
    check kinds/journal.trace kinds/journal.spec kinds/journal.out\n\
    check kinds/journal_race.trace kinds/journal.spec kinds/journal_race.out\n\
    check kinds/lru.trace kinds/lru.spec kinds/lru.out\n\
    check kinds/lru_race.trace kinds/lru.spec kinds/lru_race.out\n\
    check kinds/memo.trace kinds/memo.spec kinds/memo.out\n\
    check kinds/memo_race.trace kinds/memo.spec kinds/memo_race.out\n\
    check queue_race.trace bounded_queue.spec queue_race.out\n\
    weave hits.main.log hits.worker.log hits.out\n\
    weave page.main.log page.worker.log page.trace\n";

/// Reads a file of the examples. None where it can't be read or memory runs out.
fn read_into<R: Files + Alloc<A = Global>>(rt: &R, name: &str, bytes: &mut Vec<u8>) -> Option<()> {
    let mut path = String::new(rt.alloc());
    path.push_str("examples/").ok()?;
    path.push_str(name).ok()?;
    *bytes = fs::read(rt, path.as_str()).ok()?;
    Some(())
}

/// Runs the row, and says how it ended and whether it wrote what it should. None where memory runs out or writing fails.
fn tell<R: Print>(rt: &R, row: &Row, command: &str) -> Option<()> {
    let (status, writes_so) = row.end(4096, &[], &row.writes)?;
    let verdict = if writes_so { "as wanted" } else { "otherwise" };
    rt.println(format_args!("{command}: status {status}, {verdict}"))
        .ok()
}

/// Makes an example a row, and runs it. None where a file can't be read, memory runs out or writing fails.
fn example<R: Files + Alloc<A = Global> + Print>(rt: &R, row: &mut Row, line: &str) -> Option<()> {
    let (command, wanted) = line.rsplit_once(' ')?;
    let (verb, files) = command.split_once(' ')?;
    row.begin();
    row.push_word(verb.as_bytes())?;
    row.push_word(b"t.trace")?;
    let first = match files.split_once(' ') {
        Some((first, second)) => {
            row.push_word(b"s")?;
            read_into(rt, second, &mut row.specification)?;
            first
        }
        None => files,
    };
    read_into(rt, first, &mut row.trace)?;
    read_into(rt, wanted, &mut row.writes)?;
    tell(rt, row, command)
}

/// Runs each example. None where a file can't be read, memory runs out or writing fails.
pub fn run_examples<R: Files + Alloc<A = Global> + Print>(rt: &R) -> Option<()> {
    let mut row = Row::new(rt.alloc());
    for line in EXAMPLES.lines() {
        example(rt, &mut row, line)?;
    }
    Some(())
}
