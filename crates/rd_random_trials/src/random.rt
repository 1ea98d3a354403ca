//! Random traces of two objects, by their definition: what `check` writes for each is compared with what a program writes that
//! tries all pairs of calls and all paths of edges between them, counts the events that come before a call one by one, and runs the
//! calls by objects that are lists. The objects are of the kinds that are built in or of one that a specification adds, and their
//! formulas are written here anew. The traces have two roots, up to five threads, two locks and up to 39 events: forks, joins, acquires,
//! releases, in half of the traces also shares and unshares, and calls with the values 0, 1, nil, true and false, and 9223372036854775807 to
//! be added. In about half of them the results are those that the objects give, in the others they are random. A lock may be acquired and
//! shared again by a thread that has it, either way. Traces that are refused, other values and longer traces are not covered here.
ghost use Rattle.std.specs.Prelude.{◌<◌};

use crate::checked::checked;
use crate::random_calls::{Call, GATE, Kind, Method, Value, append_call, append_value, pair};
use crate::random_objects::Objects;
use rd_io::MemorySink;
use rd_run::Status;
use std::alloc::Global;
use std::process::Abort;

/// How many threads no other begins.
const ROOTS: u32 = 2;

/// How many threads there may be.
const THREADS: u32 = 5;

/// The line of the first event: before it stand the header, the roots and the two objects.
const FIRST_LINE: usize = 6;

/// An event by numbers.
#[derive(Clone, Copy)]
enum Step {
    Fork {
        thread: u32,
        child: u32,
    },
    Join {
        thread: u32,
        child: u32,
    },
    Acquire {
        thread: u32,
        lock: u32,
    },
    Release {
        thread: u32,
        lock: u32,
    },
    Share {
        thread: u32,
        lock: u32,
    },
    Unshare {
        thread: u32,
        lock: u32,
    },
    Call {
        thread: u32,
        object: u32,
        call: Call,
    },
}

impl Step {
    fn actor(&self) -> u32 {
        match self {
            Step::Fork { thread, .. }
            | Step::Join { thread, .. }
            | Step::Acquire { thread, .. }
            | Step::Release { thread, .. }
            | Step::Share { thread, .. }
            | Step::Unshare { thread, .. }
            | Step::Call { thread, .. } => *thread,
        }
    }

    fn begins(&self, thread: u32) -> bool {
        matches!(self, Step::Fork { child, .. } if *child == thread)
    }

    fn awaits(&self, thread: u32) -> bool {
        matches!(self, Step::Join { child, .. } if *child == thread)
    }

    fn takes(&self, wanted: u32) -> bool {
        matches!(self, Step::Acquire { lock, .. } if *lock == wanted)
    }

    fn shares(&self, wanted: u32) -> bool {
        matches!(self, Step::Share { lock, .. } if *lock == wanted)
    }
}

/// An event comes before a later one by the rules alone.
fn is_edge(first: &Step, second: &Step) -> bool {
    if first.actor() == second.actor()
        || first.begins(second.actor())
        || second.awaits(first.actor())
    {
        return true;
    }
    match first {
        Step::Fork { child, .. } => second.awaits(*child),
        Step::Release { lock, .. } => second.takes(*lock) || second.shares(*lock),
        Step::Unshare { lock, .. } => second.takes(*lock),
        _ => false,
    }
}

/// The formula that two calls on one object fail, the first of which comes before the second in the trace. It is asked for both orders
/// where they have the same method, and else for the order in which their methods were declared.
fn failed(first: &Step, second: &Step) -> Option<&'static str> {
    let (
        Step::Call {
            object: x,
            call: first,
            ..
        },
        Step::Call {
            object: y,
            call: second,
            ..
        },
    ) = (first, second)
    else {
        return None;
    };
    if x != y {
        return None;
    }
    match (pair(first, second), pair(second, first)) {
        (Some((formula, false)), _) | (_, Some((formula, false))) => Some(formula),
        _ => None,
    }
}

/// Does the event at a place come before a later one: by an edge, or by an edge from an event between them that it reaches? The rows say
/// which places reach each place before the later one.
fn reaches(steps: &[Step], rows: &[Vec<bool>], place: usize, first: &Step, second: &Step) -> bool {
    if is_edge(first, second) {
        return true;
    }
    for (row, middle) in rows.iter().zip(steps.iter()) {
        if matches!(row.get(place), Some(true)) && is_edge(middle, second) {
            return true;
        }
    }
    false
}

/// Which of the places before this event, each of which has a row, reach it.
fn row_of(
    rt: &impl Abort,
    alloc: Global,
    steps: &[Step],
    rows: &[Vec<bool>],
    second: &Step,
) -> Vec<bool> {
    let mut row: Vec<bool> = Vec::new(alloc);
    for first in steps {
        if row.len() == rows.len() {
            break;
        }
        row.push(reaches(steps, rows, row.len(), first, second))
            .expect(rt, "memory");
    }
    row
}

/// For each place, which of the places before it reach it.
fn reaching(rt: &impl Abort, alloc: Global, steps: &[Step]) -> Vec<Vec<bool>> {
    let mut rows: Vec<Vec<bool>> = Vec::new(alloc);
    for second in steps {
        let row = row_of(rt, alloc, steps, rows.as_slice(), second);
        rows.push(row).expect(rt, "memory");
    }
    rows
}

/// How many events of the thread are this one or come before it. The row says which of the events before it come before it.
fn count(steps: &[Step], own: &Step, row: &[bool], thread: u32) -> u32 {
    let mut count = 0u32;
    for (step, reached) in steps.iter().zip(row.iter()) {
        if *reached && step.actor() == thread {
            count = count.saturating_add(1);
        }
    }
    if own.actor() == thread {
        count = count.saturating_add(1);
    }
    count
}

/// `T:N` for each thread that has events which are this one or come before it, and how many.
fn append_clock(rt: &impl Abort, text: &mut String, steps: &[Step], own: &Step, row: &[bool]) {
    let mut separator = "";
    for thread in 0..THREADS {
        let count = count(steps, own, row, thread);
        if count > 0 {
            write!(text, "{separator}t{thread}:{count}").expect(rt, "memory");
            separator = ",";
        }
    }
}

/// The event at a place, its line and its clock.
fn append_event(
    rt: &impl Abort,
    text: &mut String,
    steps: &[Step],
    place: usize,
    own: &Step,
    row: &[bool],
) {
    let line = place.saturating_add(FIRST_LINE);
    write!(text, "line {line} ").expect(rt, "memory");
    append_step(rt, text, own);
    text.push_str(" clock ").expect(rt, "memory");
    append_clock(rt, text, steps, own, row);
    text.push_str("\n").expect(rt, "memory");
}

/// The line of the replay at a call, where the object gives another result than this or doesn't take it. True where there is one.
fn append_difference(
    rt: &impl Abort,
    text: &mut String,
    objects: &mut Objects,
    place: usize,
    step: &Step,
) -> bool {
    let Step::Call { object, call, .. } = step else {
        return false;
    };
    let given = objects.run(rt, *object, call);
    if given == Some(call.result) {
        return false;
    }
    let line = place.saturating_add(FIRST_LINE);
    write!(text, "replay differs line {line} ").expect(rt, "memory");
    match given {
        None => text.push_str("argument 1").expect(rt, "memory"),
        Some(value) => {
            text.push_str("expected ").expect(rt, "memory");
            append_value(rt, text, value);
        }
    }
    text.push_str("\n").expect(rt, "memory");
    true
}

/// How a replay ends.
#[derive(Clone, Copy, PartialEq, Eq)]
enum Replay {
    /// each call has the result that its object gives
    Exact,
    /// some call has another result than its object gives
    Differs,
    /// an object is of no built-in kind
    NotShipped,
}

/// The line of the replay.
fn append_replay(
    rt: &impl Abort,
    text: &mut String,
    kinds: (Kind, Kind),
    objects: &mut Objects,
    steps: &[Step],
) -> Replay {
    if kinds.0 == Kind::Gate || kinds.1 == Kind::Gate {
        text.push_str("replay not shipped\n").expect(rt, "memory");
        return Replay::NotShipped;
    }
    for (place, step) in steps.iter().enumerate() {
        if append_difference(rt, text, objects, place, step) {
            return Replay::Differs;
        }
    }
    text.push_str("replay exact\n").expect(rt, "memory");
    Replay::Exact
}

/// The line of the verdict.
fn append_verdict(rt: &impl Abort, text: &mut String, races: u32, replay: Replay) {
    let verdict = if races == 0 && replay == Replay::Exact {
        "verdict deterministic\n"
    } else {
        "verdict not shown\n"
    };
    text.push_str(verdict).expect(rt, "memory");
}

/// The latest of the events before this one that does not come before it and that it does not commute with: the place, and the formula.
/// The row says which come before it.
fn latest(steps: &[Step], row: &[bool], second: &Step) -> Option<(usize, &'static str)> {
    let mut latest = None;
    for ((place, first), reached) in steps.iter().enumerate().zip(row.iter()) {
        if *reached {
            continue;
        }
        if let Some(formula) = failed(first, second) {
            latest = Some((place, formula));
        }
    }
    latest
}

/// The race that the event at a place ends, if it ends one.
fn append_race(
    rt: &impl Abort,
    text: &mut String,
    steps: &[Step],
    rows: &[Vec<bool>],
    place: usize,
    second: &Step,
) -> bool {
    let row = rows.get(place).expect(rt, "a row").as_slice();
    let Some((earlier, formula)) = latest(steps, row, second) else {
        return false;
    };
    text.push_str("race ").expect(rt, "memory");
    append_event(rt, text, steps, place, second, row);
    text.push_str("with ").expect(rt, "memory");
    let first = steps.get(earlier).expect(rt, "an event");
    let before = rows.get(earlier).expect(rt, "a row").as_slice();
    append_event(rt, text, steps, earlier, first, before);
    write!(text, "formula {formula}\n").expect(rt, "memory");
    true
}

/// The races, and how many they are.
fn append_races(rt: &impl Abort, text: &mut String, steps: &[Step], rows: &[Vec<bool>]) -> u32 {
    let mut races = 0u32;
    for (place, second) in steps.iter().enumerate() {
        if append_race(rt, text, steps, rows, place, second) {
            races = races.saturating_add(1);
        }
    }
    write!(text, "races {races}\n").expect(rt, "memory");
    races
}

/// The report of a trace of these events.
fn append_report(
    rt: &impl Abort,
    alloc: Global,
    text: &mut String,
    kinds: (Kind, Kind),
    steps: &[Step],
    tally: &mut Tally,
) -> Status {
    let rows = reaching(rt, alloc, steps);
    let races = append_races(rt, text, steps, rows.as_slice());
    let mut objects = Objects::new(alloc);
    let replay = append_replay(rt, text, kinds, &mut objects, steps);
    append_verdict(rt, text, races, replay);
    tally.add(races, replay);
    if races > 0 {
        Status::Raced
    } else if replay == Replay::Differs {
        Status::ReplayDiffers
    } else {
        Status::Clean
    }
}

/// What may be done with a lock: who has it, and how often it was acquired and not released, and how often each thread shared it and
/// didn't unshare it.
#[derive(Clone, Copy)]
struct Held {
    holder: u32,
    depth: u32,
    shares: [u32; 5],
}

/// What is done with a lock.
#[derive(Clone, Copy)]
enum Use {
    Acquire,
    Release,
    Share,
    Unshare,
}

impl Held {
    /// Another thread has a share of it.
    fn is_shared_by_other(&self, thread: u32) -> bool {
        let mut other = 0u32;
        for depth in self.shares {
            if depth > 0 && other != thread {
                return true;
            }
            other = other.saturating_add(1);
        }
        false
    }

    /// Another thread has it for itself.
    fn is_held_by_other(&self, thread: u32) -> bool {
        self.depth > 0 && self.holder != thread
    }

    fn acquired(&mut self, thread: u32, lock: u32) -> Option<Step> {
        if self.is_held_by_other(thread) || self.is_shared_by_other(thread) || self.depth >= 3 {
            return None;
        }
        self.holder = thread;
        self.depth = self.depth.saturating_add(1);
        Some(Step::Acquire { thread, lock })
    }

    fn released(&mut self, thread: u32, lock: u32) -> Option<Step> {
        if self.depth == 0 || self.holder != thread {
            return None;
        }
        self.depth = self.depth.saturating_sub(1);
        Some(Step::Release { thread, lock })
    }

    fn shared(&mut self, thread: u32, lock: u32) -> Option<Step> {
        if self.is_held_by_other(thread) {
            return None;
        }
        let depth = self.shares.get_mut(thread as usize)?;
        *depth = depth.saturating_add(1);
        Some(Step::Share { thread, lock })
    }

    fn unshared(&mut self, thread: u32, lock: u32) -> Option<Step> {
        let depth = self.shares.get_mut(thread as usize)?;
        if *depth == 0 {
            return None;
        }
        *depth = depth.saturating_sub(1);
        Some(Step::Unshare { thread, lock })
    }

    /// Uses the lock for the thread so, where that may be done.
    fn used(&mut self, thread: u32, lock: u32, way: Use) -> Option<Step> {
        match way {
            Use::Acquire => self.acquired(thread, lock),
            Use::Release => self.released(thread, lock),
            Use::Share => self.shared(thread, lock),
            Use::Unshare => self.unshared(thread, lock),
        }
    }
}

/// What the events so far left.
#[derive(Drop)]
struct Course {
    kinds: (Kind, Kind),
    has_shares: bool,
    objects: Objects,
    threads: u32,
    ended: Vec<u32>,
    first: Held,
    second: Held,
}

impl Course {
    fn new(alloc: Global, kinds: (Kind, Kind), has_shares: bool) -> Course {
        let free = Held {
            holder: 0,
            depth: 0,
            shares: [0; 5],
        };
        Course {
            kinds,
            has_shares,
            objects: Objects::new(alloc),
            threads: ROOTS,
            ended: Vec::new(alloc),
            first: free,
            second: free,
        }
    }

    fn forked(&mut self, thread: u32) -> Step {
        let child = self.threads;
        self.threads = child.saturating_add(1);
        Step::Fork { thread, child }
    }

    fn joined(&mut self, rt: &impl Abort, thread: u32, child: u32) -> Step {
        self.ended.push(child).expect(rt, "memory");
        Step::Join { thread, child }
    }

    fn used(&mut self, thread: u32, way: Use, lock: u32) -> Option<Step> {
        if lock == 0 {
            self.first.used(thread, lock, way)
        } else {
            self.second.used(thread, lock, way)
        }
    }

    /// The call, which the object runs. Its result is the one that the object gives, where it gives one and that is asked for.
    fn called(
        &mut self,
        rt: &impl Abort,
        thread: u32,
        object: u32,
        call: Call,
        is_given: bool,
    ) -> Step {
        let mut call = call;
        let given = self.objects.run(rt, object, &call);
        if let Some(value) = given
            && is_given
        {
            call.result = value;
        }
        Step::Call {
            thread,
            object,
            call,
        }
    }
}

/// Numbers that look random, the same in each run.
#[derive(Drop)]
struct Random {
    state: u32,
}

impl Random {
    fn below(&mut self, end: u32) -> u32
        requires { 0 < end }
    {
        self.state = self.state.wrapping_mul(1_103_515_245).wrapping_add(12_345);
        (self.state / 65_536) % end
    }

    fn kind(&mut self) -> Kind {
        match self.below(9) {
            0 => Kind::Register,
            1 => Kind::Counter,
            2 => Kind::Set,
            3 => Kind::Dictionary,
            4 => Kind::Bag,
            5 => Kind::Peak,
            6 => Kind::Queue,
            7 => Kind::Tally,
            _ => Kind::Gate,
        }
    }

    fn number(&mut self) -> Value {
        if self.below(2) == 0 {
            Value::Int(0)
        } else {
            Value::Int(1)
        }
    }

    fn truth(&mut self) -> Value {
        Value::Bool(self.below(2) == 0)
    }

    fn amount(&mut self) -> Value {
        match self.below(8) {
            0 => Value::Nil,
            1 => Value::Int(i64::MAX),
            _ => self.number(),
        }
    }

    fn content(&mut self) -> Value {
        match self.below(3) {
            0 => Value::Nil,
            1 => Value::Int(0),
            _ => Value::Int(1),
        }
    }

    fn method(&mut self, kind: Kind) -> Method {
        match (kind, self.below(4)) {
            (Kind::Register, 0) => Method::RegisterRead,
            (Kind::Register, 1) => Method::RegisterWrite,
            (Kind::Register, _) => Method::RegisterSwap,
            (Kind::Counter, 0 | 1) => Method::CounterAdd,
            (Kind::Counter, _) => Method::CounterGet,
            (Kind::Set, 0) => Method::SetAdd,
            (Kind::Set, 1) => Method::SetRemove,
            (Kind::Set, 2) => Method::SetContains,
            (Kind::Set, _) => Method::SetSize,
            (Kind::Dictionary, 0 | 1) => Method::DictionaryPut,
            (Kind::Dictionary, 2) => Method::DictionaryGet,
            (Kind::Dictionary, _) => Method::DictionarySize,
            (Kind::Bag, 0 | 1) => Method::BagAdd,
            (Kind::Bag, 2) => Method::BagRemove,
            (Kind::Bag, _) => Method::BagCount,
            (Kind::Peak, 0 | 1 | 2) => Method::PeakRaise,
            (Kind::Peak, _) => Method::PeakGet,
            (Kind::Queue, 0 | 1) => Method::QueueEnqueue,
            (Kind::Queue, 2) => Method::QueueDequeue,
            (Kind::Queue, _) => Method::QueueSize,
            (Kind::Tally, 0 | 1) => Method::TallyHit,
            (Kind::Tally, 2) => Method::TallyCount,
            (Kind::Tally, _) => Method::TallyTotal,
            (Kind::Gate, 0 | 1) => Method::GatePass,
            (Kind::Gate, _) => Method::GateLook,
        }
    }

    /// An item, what is put under a key, and a result, each where the method has it.
    fn values(&mut self, method: Method) -> (Value, Value, Value) {
        match method {
            Method::RegisterRead
            | Method::CounterGet
            | Method::SetSize
            | Method::DictionarySize
            | Method::QueueSize
            | Method::TallyTotal => (Value::Nil, Value::Nil, self.number()),
            Method::BagAdd | Method::TallyHit => (self.number(), Value::Nil, Value::Nil),
            Method::BagCount | Method::TallyCount => (self.number(), Value::Nil, self.number()),
            Method::PeakRaise => (self.amount(), Value::Nil, self.content()),
            Method::PeakGet | Method::QueueDequeue => (Value::Nil, Value::Nil, self.content()),
            Method::QueueEnqueue => (self.content(), Value::Nil, Value::Nil),
            Method::RegisterWrite => (self.number(), Value::Nil, Value::Nil),
            Method::RegisterSwap => (self.number(), Value::Nil, self.number()),
            Method::CounterAdd => (self.amount(), Value::Nil, Value::Nil),
            Method::SetAdd
            | Method::SetRemove
            | Method::SetContains
            | Method::BagRemove
            | Method::GatePass => { (self.number(), Value::Nil, self.truth()) }
            Method::DictionaryPut => (self.number(), self.content(), self.content()),
            Method::DictionaryGet => (self.number(), Value::Nil, self.content()),
            Method::GateLook => (Value::Nil, Value::Nil, self.truth()),
        }
    }

    fn call(&mut self, kind: Kind) -> Call {
        let method = self.method(kind);
        let (item, put, result) = self.values(method);
        Call {
            method,
            item,
            put,
            result,
        }
    }

    /// A call of one of the objects.
    fn called(
        &mut self,
        rt: &impl Abort,
        course: &mut Course,
        thread: u32,
        is_given: bool,
    ) -> Step {
        let object = self.below(2);
        let kind = if object == 0 {
            course.kinds.0
        } else {
            course.kinds.1
        };
        let call = self.call(kind);
        course.called(rt, thread, object, call, is_given)
    }

    /// What is done with a lock.
    fn way(&mut self, has_shares: bool) -> Use {
        match (has_shares, self.below(4)) {
            (true, 0) => Use::Share,
            (true, 1) => Use::Unshare,
            (_, 0 | 2) => Use::Acquire,
            _ => Use::Release,
        }
    }

    /// An event that may follow, or none where what is drawn may not. Its result is the one that the object gives, or random.
    fn step(&mut self, rt: &impl Abort, course: &mut Course, is_given: bool) -> Option<Step> {
        let thread = self.below(THREADS);
        if thread >= course.threads || course.ended.contains(&thread) {
            return None;
        }
        let child = self.below(THREADS);
        let choice = self.below(8);
        if choice == 0 && course.threads < THREADS {
            Some(course.forked(thread))
        } else if choice == 1 && child < course.threads && child != thread {
            Some(course.joined(rt, thread, child))
        } else if choice <= 3 {
            let way = self.way(course.has_shares);
            course.used(thread, way, self.below(2))
        } else {
            Some(self.called(rt, course, thread, is_given))
        }
    }

    /// Puts events behind one another that may follow so. The results are those that the objects give, or random.
    fn steps(
        &mut self,
        rt: &impl Abort,
        course: &mut Course,
        are_given: bool,
        steps: &mut Vec<Step>,
    ) {
        for _ in 0..self.below(40) {
            if let Some(step) = self.step(rt, course, are_given) {
                steps.push(step).expect(rt, "memory");
            }
        }
    }
}

/// An event with a thread, and the number of a thread or lock behind this letter.
fn append_pair(rt: &impl Abort, text: &mut String, word: &str, thread: u32, other: (&str, u32)) {
    let (letter, number) = other;
    write!(text, "{word} t{thread} {letter}{number}").expect(rt, "memory");
}

/// A call of an object, without the word `call`.
fn append_called(rt: &impl Abort, text: &mut String, thread: u32, object: u32, call: &Call) {
    write!(text, "t{thread} x{object} ").expect(rt, "memory");
    append_call(rt, text, call);
}

/// An event as in its line, a call without the word `call`.
fn append_step(rt: &impl Abort, text: &mut String, step: &Step) {
    match step {
        Step::Fork { thread, child } => append_pair(rt, text, "fork", *thread, ("t", *child)),
        Step::Join { thread, child } => append_pair(rt, text, "join", *thread, ("t", *child)),
        Step::Acquire { thread, lock } => append_pair(rt, text, "acquire", *thread, ("l", *lock)),
        Step::Release { thread, lock } => append_pair(rt, text, "release", *thread, ("l", *lock)),
        Step::Share { thread, lock } => append_pair(rt, text, "share", *thread, ("l", *lock)),
        Step::Unshare { thread, lock } => append_pair(rt, text, "unshare", *thread, ("l", *lock)),
        Step::Call {
            thread,
            object,
            call,
        } => append_called(rt, text, *thread, *object, call),
    }
}

fn append_trace(
    rt: &impl Abort,
    text: &mut String,
    version: u32,
    kinds: (Kind, Kind),
    steps: &[Step],
) {
    let (first, second) = (kinds.0.name(), kinds.1.name());
    write!(
        text,
        "rdtrace {version}\nthread t0\nthread t1\nobject x0 {first}\nobject x1 {second}\n"
    )
    .expect(rt, "memory");
    for step in steps {
        if let Step::Call { .. } = step {
            text.push_str("call ").expect(rt, "memory");
        }
        append_step(rt, text, step);
        text.push_str("\n").expect(rt, "memory");
    }
}

/// How many traces ended in each way.
#[derive(Clone, Copy)]
struct Tally {
    shown: u32,
    raced: u32,
    exact: u32,
    differing: u32,
}

impl Tally {
    fn add(&mut self, races: u32, replay: Replay) {
        match (races, replay) {
            (0, Replay::Exact) => self.shown = self.shown.saturating_add(1),
            (0, _) => {}
            (_, _) => self.raced = self.raced.saturating_add(1),
        }
        match replay {
            Replay::Exact => self.exact = self.exact.saturating_add(1),
            Replay::Differs => self.differing = self.differing.saturating_add(1),
            Replay::NotShipped => {}
        }
    }
}

/// `check` answers and writes this for the trace.
fn is_answered(rt: &impl Abort, alloc: Global, trace: &str, status: Status, text: &str) {
    let mut out = MemorySink::new(alloc, 16_384, &[]).expect(rt, "memory");
    let answer = checked(rt, alloc, trace.as_bytes(), GATE, &mut out);
    let is_written = out.written() == text.as_bytes();
    assert!(rt; is_written && answer == status, "{trace}\n{text}");
}

/// A trace of these events.
fn is_checked(
    rt: &impl Abort,
    alloc: Global,
    version: u32,
    kinds: (Kind, Kind),
    steps: &[Step],
    tally: &mut Tally,
) {
    let mut text = String::new(alloc);
    let status = append_report(rt, alloc, &mut text, kinds, steps, tally);
    let mut trace = String::new(alloc);
    append_trace(rt, &mut trace, version, kinds, steps);
    is_answered(rt, alloc, trace.as_str(), status, text.as_str());
}

/// The next random trace.
fn tries(rt: &impl Abort, alloc: Global, random: &mut Random, tally: &mut Tally) {
    let kinds = (random.kind(), random.kind());
    let are_given = random.below(2) == 0;
    let has_shares = random.below(2) == 0;
    let mut course = Course::new(alloc, kinds, has_shares);
    let mut steps = Vec::new(alloc);
    random.steps(rt, &mut course, are_given, &mut steps);
    let version = if has_shares { 2 } else { 1 };
    is_checked(rt, alloc, version, kinds, steps.as_slice(), tally);
}

#[test]
fn random_traces(rt: HostRuntime) {
    let mut random = Random { state: 1 };
    let mut tally = Tally {
        shown: 0,
        raced: 0,
        exact: 0,
        differing: 0,
    };
    for _ in 0..1_200u32 {
        tries(&rt, rt.alloc(), &mut random, &mut tally);
    }
    // Each comes often.
    assert!(rt; tally.shown >= 150 && tally.raced >= 150);
    assert!(rt; tally.exact >= 150 && tally.differing >= 150);
}
