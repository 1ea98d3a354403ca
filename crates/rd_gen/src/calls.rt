//! The parts of a generated trace.
ghost use Rattle.std.specs.Prelude.{◌≡◌, ◌+◌, ◌<◌, [], ◌∷◌, ◌++◌, drop, OnOk, codes};
ghost use Rattle.rd_event.specs.Items.{IsSpellable};
ghost use Rattle.rd_object.specs.Machines.{IsTaken};
ghost use Rattle.rd_kinds.specs.Machines.{dictionary_machine, dictionary_row};
ghost use Rattle.rd_gen.specs.Generated.{acquire_of, arguments_for, arguments_chosen, call_line, call_of, closing_lines, entries_after, entries_behind, fork_of, join_of, dictionary_method, method_chosen, next_number, nil_or_number, opening_lines, release_of, result_in, worker_name, worker_of};

use rd_base::{Name, NoMemory, Slots, SpareList, Value, ValueList};
use rd_event::{Line, LineEvent};
use rd_kinds::Dictionary;
use rd_object::{ApplyRefused, RefObject};
use std::alloc::Global;
use std::rc::Rc;

// The number behind a number.
pub(crate) fn next_number(number: u32) -> u32
    requires { number < 65536 }
    ensures value { result ≡ next_number number }
    ensures bound { result < 65536 }
{
    (number * 25173 + 13849) % 65536
}

// The name of a worker.
fn worker_name(worker: u32) -> Name
    ensures { result ≡ worker_name worker }
{
    let bytes = match worker {
        0 => b"w0",
        1 => b"w1",
        2 => b"w2",
        _ => b"w3",
    };
    Name::from_name_bytes(bytes).unwrap()
}

// The worker that a number says.
fn worker_of(choice: u32) -> Name
    ensures { result ≡ worker_of choice }
{
    worker_name(choice % 4)
}

// The method that a number says, from 0.
fn method_of(choice: u32) -> u8
    ensures value { result ≡ method_chosen choice }
    ensures bound { result < 3 }
{
    (choice / 4 % 4).saturating_sub(1) as u8
}

// The name of a method of a dictionary.
fn method_name(method: u8) -> Name
    ensures { result ≡ dictionary_method method }
{
    match method {
        0 => Name::from_name_bytes(b"put").unwrap(),
        1 => Name::from_name_bytes(b"get").unwrap(),
        _ => Name::from_name_bytes(b"size").unwrap(),
    }
}

// A number as a value, where 0 is no value.
fn nil_or_number(number: u32) -> Value
    ensures { result ≡ nil_or_number number }
{
    if number == 0 {
        Value::Nil
    } else {
        Value::Int(i64::from(number))
    }
}

// Puts the arguments of a call of this method into an empty list.
fn push_arguments(
    alloc: Global,
    values: &mut ValueList,
    method: u8,
    key: u32,
    value: u32,
) -> Result<(), NoMemory>
    requires { values.old ≡ [] }
    ensures { OnOk result (values.new ≡ arguments_for method key value) }
{
    match method {
        0 => {
            values.push(alloc, Value::Int(i64::from(key)))?;
            values.push(alloc, nil_or_number(value))
        }
        1 => values.push(alloc, Value::Int(i64::from(key))),
        _ => Ok(()),
    }
}

// Puts the arguments that a number says into an empty list.
fn push_choice(alloc: Global, values: &mut ValueList, choice: u32) -> Result<(), NoMemory>
    requires { values.old ≡ [] }
    ensures { OnOk result (values.new ≡ arguments_chosen choice) }
{
    push_arguments(
        alloc,
        values,
        method_of(choice),
        choice / 16 % 32,
        choice / 512,
    )
}

// Runs a call with these arguments on the dictionary, and puts what it gives behind them.
#[tactic(auto, unfolding(crate::specs::Generated::entries_behind))]
fn run(
    alloc: Global,
    dictionary: &mut Dictionary,
    method: u8,
    values: &mut ValueList,
) -> Result<(), NoMemory>
    requires { IsTaken dictionary_machine method values.old }
    ensures values { OnOk result (values.new
        ≡ values.old ++ result_in (dictionary_row method values.old dictionary.old) ∷ []) }
    ensures entries { OnOk result
        (dictionary.new ≡ entries_behind method values.old dictionary.old) }
{
    let given = match dictionary.apply(method, values.items()) {
        Ok(given) => given,
        Err(ApplyRefused::BadArgument(_)) => unreachable!(),
        Err(ApplyRefused::NoMemory) => return Err(NoMemory),
    };
    values.push(alloc, given)
}

// Makes the line the call of a thread with these values. It is built where the caller has it.
#[inline(always)]
fn put_values(alloc: Global, thread: Name, method: u8, values: Rc<ValueList>, line: &mut Line)
    ensures { line.new ≡ Line.Event (LineEvent.Call thread (codes "d") (dictionary_method method) values.value) }
{
    *line = Line::Event(LineEvent::Call {
        thread,
        object: Name::from_name_bytes(b"d").unwrap(),
        method: method_name(method),
        slots: Slots::from_shared(alloc, values),
    });
}

// The thread that begins the workers.
fn main_thread() -> Name
    ensures { result ≡ codes "main" }
{
    Name::from_name_bytes(b"main").unwrap()
}

// Makes the line the begin of a worker.
fn put_fork(worker: u32, line: &mut Line)
    ensures { line.new ≡ fork_of worker }
{
    *line = Line::Event(LineEvent::Fork {
        thread: main_thread(),
        child: worker_name(worker),
    });
}

// Makes the line the wait for a worker. As each of the rare ones it stands apart, since its room on the stack is cleared first.
#[inline(never)]
pub(crate) fn put_join(worker: u32, line: &mut Line)
    ensures { line.new ≡ join_of worker }
{
    *line = Line::Event(LineEvent::Join {
        thread: main_thread(),
        child: worker_name(worker),
    });
}

// The one lock.
fn lock() -> Name
    ensures { result ≡ codes "l" }
{
    Name::from_name_bytes(b"l").unwrap()
}

// Makes the line the one that takes the lock before the call that a number says.
pub(crate) fn put_acquire(choice: u32, line: &mut Line)
    ensures { line.new ≡ acquire_of choice }
{
    *line = Line::Event(LineEvent::Acquire {
        thread: worker_of(choice),
        lock: lock(),
    });
}

// Makes the line the one that gives it back.
pub(crate) fn put_release(choice: u32, line: &mut Line)
    ensures { line.new ≡ release_of choice }
{
    *line = Line::Event(LineEvent::Release {
        thread: worker_of(choice),
        lock: lock(),
    });
}

// Makes the line the one behind so many of the first ones.
#[inline(never)]
pub(crate) fn put_opening(given: u8, line: &mut Line)
    requires { given < 7 }
    ensures line { drop given opening_lines ≡ line.new ∷ drop (given + 1) opening_lines }
    ensures spellable { IsSpellable line.new }
{
    match given {
        0 => *line = Line::Header { version: 1 },
        1 => *line = Line::Thread(main_thread()),
        2 => {
            *line = Line::Object {
                name: Name::from_name_bytes(b"d").unwrap(),
                kind: Name::from_bytes(b"dictionary").unwrap(),
            };
        }
        3 => put_fork(0, line),
        4 => put_fork(1, line),
        5 => put_fork(2, line),
        6 => put_fork(3, line),
        _ => unreachable!(),
    }
}

// Lets the values of the line before go, so that those of a call may lie in their memory.
fn clear_values(alloc: Global, line: &mut Line) {
    if let Line::Event(LineEvent::Call { slots, .. }) = line {
        *slots = Slots::new(alloc);
    }
}

// Makes the line the call that a number says, run on the dictionary. Its values lie in the memory of the last call's, where nothing else has that.
#[tactic(auto, using(crate::proofs::CallLemmas::choice_taken), unfolding(crate::specs::Generated::call_line))]
pub(crate) fn put_call(
    alloc: Global,
    dictionary: &mut Dictionary,
    spare: &mut SpareList,
    choice: u32,
    line: &mut Line,
) -> Result<(), NoMemory>
    ensures line { OnOk result (line.new ≡ call_of choice dictionary.old) }
    ensures entries { OnOk result (dictionary.new ≡ entries_after choice dictionary.old) }
    ensures spellable { OnOk result (IsSpellable line.new) }
{
    clear_values(alloc, line);
    let mut list = spare.take(alloc)?;
    let values = Rc::get_mut(&mut list).ok_or(NoMemory)?;
    push_choice(alloc, values, choice)?;
    run(alloc, dictionary, method_of(choice), values)?;
    spare.keep(&list);
    put_values(alloc, worker_of(choice), method_of(choice), list, line);
    Ok(())
}

// Makes the line the last call, which asks for the size.
#[tactic(auto, using(crate::proofs::CallLemmas::size_taken), unfolding(crate::specs::Generated::call_line))]
fn put_last_call(
    alloc: Global,
    dictionary: &mut Dictionary,
    line: &mut Line,
) -> Result<(), NoMemory>
    ensures line { OnOk result (line.new ≡ call_line (codes "main") 2 [] dictionary.old) }
    ensures spellable { OnOk result (IsSpellable line.new) }
{
    let mut values = ValueList::new(alloc);
    run(alloc, dictionary, 2, &mut values)?;
    let list = Rc::new(alloc, values)?;
    put_values(alloc, main_thread(), 2, list, line);
    Ok(())
}

// Makes the line the one behind so many of the last ones.
#[inline(never)]
pub(crate) fn put_closing(
    alloc: Global,
    dictionary: &mut Dictionary,
    given: u8,
    line: &mut Line,
) -> Result<(), NoMemory>
    requires { given < 5 }
    ensures line { OnOk result (drop given (closing_lines dictionary.old)
        ≡ line.new ∷ drop (given + 1) (closing_lines dictionary.new)) }
    ensures spellable { OnOk result (IsSpellable line.new) }
{
    if given == 4 {
        return put_last_call(alloc, dictionary, line);
    }
    put_join(u32::from(given), line);
    Ok(())
}
