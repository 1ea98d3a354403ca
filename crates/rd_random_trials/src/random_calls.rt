//! Calls of each kind, and when two of them commute, in words of this crate alone.

use std::process::Abort;

/// The kind of an object.
#[derive(Clone, Copy, PartialEq, Eq)]
pub enum Kind {
    Register,
    Counter,
    Set,
    Dictionary,
    Bag,
    Peak,
    Queue,
    Tally,
    Gate,
}

impl Kind {
    pub fn name(&self) -> &'static str {
        match self {
            Kind::Register => "register",
            Kind::Counter => "counter",
            Kind::Set => "set",
            Kind::Dictionary => "dictionary",
            Kind::Bag => "bag",
            Kind::Peak => "peak",
            Kind::Queue => "queue",
            Kind::Tally => "tally",
            Kind::Gate => "gate",
        }
    }
}

/// A kind that isn't built in. Two passes may commute in one order and not in the other.
pub const GATE: &[u8] =
    b"rdspec 1\nkind gate\nmethod pass by -> done\nmethod look -> seen\ncommute pass pass when by@1 != by@2 and done@1 = true or done@2 = false\ncommute pass look when done@1 = false\ncommute look look when true\n";

/// An argument or a result.
#[derive(Clone, Copy, PartialEq, Eq)]
pub enum Value {
    Nil,
    Bool(bool),
    Int(i64),
}

pub fn append_value(rt: &impl Abort, text: &mut String, value: Value) {
    match value {
        Value::Nil => text.push_str("nil").expect(rt, "memory"),
        Value::Bool(truth) => write!(text, "{truth}").expect(rt, "memory"),
        Value::Int(number) => write!(text, "{number}").expect(rt, "memory"),
    }
}

/// The methods of all kinds.
#[derive(Clone, Copy)]
pub enum Method {
    RegisterRead,
    RegisterWrite,
    RegisterSwap,
    CounterAdd,
    CounterGet,
    SetAdd,
    SetRemove,
    SetContains,
    SetSize,
    DictionaryPut,
    DictionaryGet,
    DictionarySize,
    BagAdd,
    BagRemove,
    BagCount,
    PeakRaise,
    PeakGet,
    QueueEnqueue,
    QueueDequeue,
    QueueSize,
    TallyHit,
    TallyCount,
    TallyTotal,
    GatePass,
    GateLook,
}

impl Method {
    /// The name, and how many arguments there are.
    fn shape(self) -> (&'static str, u32) {
        match self {
            Method::RegisterRead => ("read", 0),
            Method::RegisterWrite => ("write", 1),
            Method::RegisterSwap => ("swap", 1),
            Method::CounterAdd | Method::SetAdd | Method::BagAdd => ("add", 1),
            Method::CounterGet | Method::PeakGet => ("get", 0),
            Method::SetRemove | Method::BagRemove => ("remove", 1),
            Method::SetContains => ("contains", 1),
            Method::SetSize | Method::DictionarySize | Method::QueueSize => ("size", 0),
            Method::DictionaryPut => ("put", 2),
            Method::DictionaryGet => ("get", 1),
            Method::BagCount | Method::TallyCount => ("count", 1),
            Method::PeakRaise => ("raise", 1),
            Method::QueueEnqueue => ("enqueue", 1),
            Method::QueueDequeue => ("dequeue", 0),
            Method::TallyHit => ("hit", 1),
            Method::TallyTotal => ("total", 0),
            Method::GatePass => ("pass", 1),
            Method::GateLook => ("look", 0),
        }
    }
}

/// A call with its values: an item, a key, or what is written, added or passed by; what is put under a key; and the result. A value that
/// the method doesn't have is nil. A write, an addition, an enqueue and a hit have the result nil.
#[derive(Clone, Copy)]
pub struct Call {
    pub method: Method,
    pub item: Value,
    pub put: Value,
    pub result: Value,
}

/// The method, the arguments and the result, as in a line.
pub fn append_call(rt: &impl Abort, text: &mut String, call: &Call) {
    let (name, arguments) = call.method.shape();
    text.push_str(name).expect(rt, "memory");
    if arguments >= 1 {
        text.push_str(" ").expect(rt, "memory");
        append_value(rt, text, call.item);
    }
    if arguments == 2 {
        text.push_str(" ").expect(rt, "memory");
        append_value(rt, text, call.put);
    }
    text.push_str(" -> ").expect(rt, "memory");
    append_value(rt, text, call.result);
}

/// The formula of two calls of one object, whose methods were declared in this order, and whether it holds for them.
pub fn pair(first: &Call, second: &Call) -> Option<(&'static str, bool)> {
    match first.method {
        Method::RegisterRead | Method::RegisterWrite | Method::RegisterSwap => {
            register(first, second)
        }
        Method::CounterAdd | Method::CounterGet => counter(first, second),
        Method::SetAdd | Method::SetRemove => changed_set(first, second),
        Method::SetContains | Method::SetSize => unchanged_set(first, second),
        Method::DictionaryPut | Method::DictionaryGet | Method::DictionarySize => {
            dictionary(first, second)
        }
        Method::BagAdd | Method::BagRemove | Method::BagCount => bag(first, second),
        Method::PeakRaise | Method::PeakGet => peak(first, second),
        Method::QueueEnqueue | Method::QueueDequeue | Method::QueueSize => queue(first, second),
        Method::TallyHit | Method::TallyCount | Method::TallyTotal => tally(first, second),
        Method::GatePass | Method::GateLook => gate(first, second),
    }
}

/// A swap for the value that was there is a read. Nothing else commutes with a write.
fn register(first: &Call, second: &Call) -> Option<(&'static str, bool)> {
    let first_keeps = first.item == first.result;
    let second_keeps = second.item == second.result;
    Some(match (first.method, second.method) {
        (Method::RegisterRead, Method::RegisterRead) => ("register read read when true", true),
        (Method::RegisterRead, Method::RegisterWrite) => {
            ("register read write when false", false)
        }
        (Method::RegisterRead, Method::RegisterSwap) => {
            ("register read swap when value@2 = prev@2", second_keeps)
        }
        (Method::RegisterWrite, Method::RegisterWrite) => {
            ("register write write when false", false)
        }
        (Method::RegisterWrite, Method::RegisterSwap) => {
            ("register write swap when false", false)
        }
        (Method::RegisterSwap, Method::RegisterSwap) => {
            (
                "register swap swap when value@1 = prev@1 and value@2 = prev@2",
                first_keeps && second_keeps,
            )
        }
        _ => return None,
    })
}

/// Sums have no order, and nothing may be added before a total is asked for.
fn counter(first: &Call, second: &Call) -> Option<(&'static str, bool)> {
    let adds_nothing = first.item == Value::Int(0);
    Some(match (first.method, second.method) {
        (Method::CounterAdd, Method::CounterAdd) => ("counter add add when true", true),
        (Method::CounterAdd, Method::CounterGet) => {
            ("counter add get when amount@1 = 0", adds_nothing)
        }
        (Method::CounterGet, Method::CounterGet) => ("counter get get when true", true),
        _ => return None,
    })
}

/// Calls with different items commute, and so do calls that change nothing. A size commutes with what changes nothing.
fn changed_set(first: &Call, second: &Call) -> Option<(&'static str, bool)> {
    let others = first.item != second.item;
    let is_idle = first.result == Value::Bool(false);
    let are_idle = is_idle && second.result == Value::Bool(false);
    Some(match (first.method, second.method) {
        (Method::SetAdd, Method::SetAdd) => (
            "set add add when item@1 != item@2 or done@1 = false and done@2 = false",
            others || are_idle,
        ),
        (Method::SetAdd, Method::SetRemove) => (
            "set add remove when item@1 != item@2 or done@1 = false and done@2 = false",
            others || are_idle,
        ),
        (Method::SetRemove, Method::SetRemove) => (
            "set remove remove when item@1 != item@2 or done@1 = false and done@2 = false",
            others || are_idle,
        ),
        (Method::SetAdd, Method::SetContains) => (
            "set add contains when item@1 != item@2 or done@1 = false",
            others || is_idle,
        ),
        (Method::SetRemove, Method::SetContains) => (
            "set remove contains when item@1 != item@2 or done@1 = false",
            others || is_idle,
        ),
        (Method::SetAdd, Method::SetSize) => ("set add size when done@1 = false", is_idle),
        (Method::SetRemove, Method::SetSize) => ("set remove size when done@1 = false", is_idle),
        _ => return None,
    })
}

fn unchanged_set(first: &Call, second: &Call) -> Option<(&'static str, bool)> {
    Some(match (first.method, second.method) {
        (Method::SetContains, Method::SetContains) => ("set contains contains when true", true),
        (Method::SetContains, Method::SetSize) => ("set contains size when true", true),
        (Method::SetSize, Method::SetSize) => ("set size size when true", true),
        _ => return None,
    })
}

/// Calls with different keys commute, and a put of the value that was there is a get. A size commutes with a put that neither makes nor
/// ends an entry: nil stands for none.
fn dictionary(first: &Call, second: &Call) -> Option<(&'static str, bool)> {
    let others = first.item != second.item;
    let first_keeps = first.put == first.result;
    let second_keeps = second.put == second.result;
    let keeps_size = (first.put == Value::Nil) == (first.result == Value::Nil);
    Some(match (first.method, second.method) {
        (Method::DictionaryPut, Method::DictionaryPut) => (
            "dictionary put put when key@1 != key@2 or value@1 = prev@1 and value@2 = prev@2",
            others || (first_keeps && second_keeps),
        ),
        (Method::DictionaryPut, Method::DictionaryGet) => (
            "dictionary put get when key@1 != key@2 or value@1 = prev@1",
            others || first_keeps,
        ),
        (Method::DictionaryPut, Method::DictionarySize) => (
            "dictionary put size when value@1 = nil and prev@1 = nil or value@1 != nil and prev@1 != nil",
            keeps_size,
        ),
        (Method::DictionaryGet, Method::DictionaryGet) => ("dictionary get get when true", true),
        (Method::DictionaryGet, Method::DictionarySize) => {
            ("dictionary get size when true", true)
        }
        (Method::DictionarySize, Method::DictionarySize) => {
            ("dictionary size size when true", true)
        }
        _ => return None,
    })
}

/// Calls with different items commute, and so do additions, and removals that both found their item or both missed it. A count commutes
/// with a removal that missed.
fn bag(first: &Call, second: &Call) -> Option<(&'static str, bool)> {
    let others = first.item != second.item;
    let is_found = first.result == Value::Bool(true);
    let is_missed = first.result == Value::Bool(false);
    let are_found = is_found && second.result == Value::Bool(true);
    let are_missed = is_missed && second.result == Value::Bool(false);
    Some(match (first.method, second.method) {
        (Method::BagAdd, Method::BagAdd) => ("bag add add when true", true),
        (Method::BagAdd, Method::BagRemove) => ("bag add remove when item@1 != item@2", others),
        (Method::BagAdd, Method::BagCount) => ("bag add count when item@1 != item@2", others),
        (Method::BagRemove, Method::BagRemove) => (
            "bag remove remove when item@1 != item@2 or done@1 = true and done@2 = true or done@1 = false and done@2 = false",
            others || are_found || are_missed,
        ),
        (Method::BagRemove, Method::BagCount) => (
            "bag remove count when item@1 != item@2 or done@1 = false",
            others || is_missed,
        ),
        (Method::BagCount, Method::BagCount) => ("bag count count when true", true),
        _ => return None,
    })
}

/// Is the number that was raised at or below the one that was there?
fn is_below(call: &Call) -> bool {
    match (call.item, call.result) {
        (Value::Int(amount), Value::Int(before)) => amount <= before,
        _ => false,
    }
}

/// A raise that changes nothing is a get.
fn peak(first: &Call, second: &Call) -> Option<(&'static str, bool)> {
    Some(match (first.method, second.method) {
        (Method::PeakRaise, Method::PeakRaise) => (
            "peak raise raise when amount@1 <= prev@1 and amount@2 <= prev@2",
            is_below(first) && is_below(second),
        ),
        (Method::PeakRaise, Method::PeakGet) => {
            ("peak raise get when amount@1 <= prev@1", is_below(first))
        }
        (Method::PeakGet, Method::PeakGet) => ("peak get get when true", true),
        _ => return None,
    })
}

/// What finds nothing changes nothing. An item that is put commutes with one that is taken, if it is another one.
fn queue(first: &Call, second: &Call) -> Option<(&'static str, bool)> {
    let first_empty = first.result == Value::Nil;
    let second_empty = second.result == Value::Nil;
    Some(match (first.method, second.method) {
        (Method::QueueEnqueue, Method::QueueEnqueue) => {
            ("queue enqueue enqueue when false", false)
        }
        (Method::QueueEnqueue, Method::QueueDequeue) => (
            "queue enqueue dequeue when got@2 != nil and item@1 != got@2",
            !second_empty && first.item != second.result,
        ),
        (Method::QueueEnqueue, Method::QueueSize) => ("queue enqueue size when false", false),
        (Method::QueueDequeue, Method::QueueDequeue) => (
            "queue dequeue dequeue when got@1 = nil and got@2 = nil",
            first_empty && second_empty,
        ),
        (Method::QueueDequeue, Method::QueueSize) => {
            ("queue dequeue size when got@1 = nil", first_empty)
        }
        (Method::QueueSize, Method::QueueSize) => ("queue size size when true", true),
        _ => return None,
    })
}

/// Hits have no order, and a count commutes with the hit of another item.
fn tally(first: &Call, second: &Call) -> Option<(&'static str, bool)> {
    let others = first.item != second.item;
    Some(match (first.method, second.method) {
        (Method::TallyHit, Method::TallyHit) => ("tally hit hit when true", true),
        (Method::TallyHit, Method::TallyCount) => ("tally hit count when item@1 != item@2", others),
        (Method::TallyHit, Method::TallyTotal) => ("tally hit total when false", false),
        (Method::TallyCount, Method::TallyCount) => ("tally count count when true", true),
        (Method::TallyCount, Method::TallyTotal) => ("tally count total when true", true),
        (Method::TallyTotal, Method::TallyTotal) => ("tally total total when true", true),
        _ => return None,
    })
}

fn gate(first: &Call, second: &Call) -> Option<(&'static str, bool)> {
    let passes_another = first.item != second.item && first.result == Value::Bool(true);
    let first_fails = first.result == Value::Bool(false);
    let second_fails = second.result == Value::Bool(false);
    Some(match (first.method, second.method) {
        (Method::GatePass, Method::GatePass) => (
            "gate pass pass when by@1 != by@2 and done@1 = true or done@2 = false",
            passes_another || second_fails,
        ),
        (Method::GatePass, Method::GateLook) => {
            ("gate pass look when done@1 = false", first_fails)
        }
        (Method::GateLook, Method::GateLook) => ("gate look look when true", true),
        _ => return None,
    })
}
