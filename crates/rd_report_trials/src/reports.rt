//! Texts of reports, written by hand.
ghost use Rattle.std.specs.Prelude.{◌≡◌, ◌<◌, IfOk, length};
ghost use Rattle.rd_report.specs.Races.{IsKnownRace, IsNamed};
ghost use Rattle.rd_report.specs.Texts.{naming_in};

use crate::samples::{built_in, is_so, is_text, name, opens, roster_over, slots, spec_of, value};
use rd_base::{Bytes, LimitName, Limits, Slots, Steps, Value};
use rd_clock::{Clock, Stamp};
use rd_ecl::Spec;
use rd_event::Call;
use rd_json::{append_race_json, ending_json, race_json};
use rd_object::{Expected, ReplayEnd, Shape, ValueCounts, ValuePairs};
use rd_print::{formula_text, print};
use rd_report::{
    Ending, TraceCause, append_race, append_state, ending_text, formula_line, race_text,
    refused_text, replay_text,
};
use rd_store::{Race, Witness};
use rd_wf::{Roster, WfCause};
use std::alloc::Global;
use std::marker::Brand;
use std::process::Abort;
use std::rc::Rc;
use std::sync::ledger::{Blank, Ledger};

// Flags: two calls of `set` commute where both are done, and one of `set` with one of `see` where the one of `set` is not.
const FLAGS: &str =
    "rdspec 1\nkind flag\nmethod set -> done\nmethod see -> done\ncommute set set when done@1 = true\ncommute set see when done@1 = false\ncommute see see when true\n";

// The roster of these lines, with a semicolon between two.
fn roster_of(rt: &impl Abort, alloc: Global, lines: &str) -> Box<Roster> {
    let mut roster = roster_over(rt, alloc, FLAGS);
    opens(rt, alloc, &mut roster, lines, &Limits::standard());
    roster
}

// The clock that counts so many events of the first three threads.
fn clock_of<L: Ledger>(
    rt: &impl Abort,
    alloc: Global,
    counts: (u32, u32, u32),
    steps: &mut Steps<L>,
) -> Clock {
    let mut clock = Clock::new(alloc);
    clock.reserve(3).expect(rt, "memory");
    clock.raise(0, counts.0, steps);
    clock.raise(1, counts.1, steps);
    clock.raise(2, counts.2, steps);
    clock
}

// What is told of a call of the first flag: the number of its line, its thread, its result, and how many events of three threads its
// clock counts.
type Told<'a> = (u64, u32, &'a str, (u32, u32, u32));

// A call of the first flag.
fn call_of<L: Ledger>(
    rt: &impl Abort,
    alloc: Global,
    told: Told<'_>,
    steps: &mut Steps<L>,
) -> Rc<Witness> {
    let (line, thread, done, counts) = told;
    let call = Call {
        thread,
        object: 0,
        kind: 0,
        method: 0,
        slots: slots(rt, alloc, done),
    };
    let stamp = Stamp {
        thread,
        number: 1,
        clock: clock_of(rt, alloc, counts, steps),
    };
    let witness = Witness {
        line,
        place: 0,
        call,
        stamp,
    };
    Rc::new(alloc, witness).expect(rt, "memory")
}

// The numbers in a call have names.
fn is_named(rt: &impl Abort, spec: &Spec, names: &Roster, call: &Call)
    ensures { IsNamed spec.now (naming_in names.now) call.now }
{
    assert!(rt; call.thread < names.threads());
    assert!(rt; call.object < names.objects());
    let kind = call.kind as usize;
    assert!(rt; kind < spec.kinds().len());
    assert!(rt; usize::from(call.method) < spec.kinds()[kind].methods().len());
}

// The numbers in a race are known.
fn is_known(rt: &impl Abort, spec: &Spec, names: &Roster, race: &Race)
    ensures { IsKnownRace spec.now (naming_in names.now) race.now }
{
    is_named(rt, spec, names, &race.later.call);
    is_named(rt, spec, names, &race.earlier.call);
    let kind = race.kind as usize;
    assert!(rt; kind < spec.kinds().len());
    assert!(rt; race.first <= race.second);
    assert!(rt; usize::from(race.second) < spec.kinds()[kind].methods().len());
}

// A text, and the same as JSON.
type Wanted<'a> = (&'a str, &'a str);

// This stands behind the text before.
fn is_behind(rt: &impl Abort, text: &Bytes, wanted: &str) {
    let told = text
        .items()
        .strip_prefix(b"before\n")
        .expect(rt, "the text before");
    is_text(rt, told, wanted);
}

// The same is put behind another text.
fn is_appended(
    rt: &impl Abort,
    alloc: Global,
    spec: &Spec,
    names: &Roster,
    race: &Race,
    wanted: Wanted<'_>,
)
    requires { IsKnownRace spec.now (naming_in names.now) race.now }
{
    let kind = &spec.kinds()[race.kind as usize];
    let formula = formula_line(alloc, kind, race.first, race.second).expect(rt, "memory");
    let mut text = Bytes::new(alloc);
    text.append(b"before\n").expect(rt, "memory");
    append_race(&mut text, race, formula.items(), spec, names).expect(rt, "memory");
    is_behind(rt, &text, wanted.0);
    let mut text = Bytes::new(alloc);
    text.append(b"before\n").expect(rt, "memory");
    append_race_json(&mut text, alloc, race, formula.items(), spec, names).expect(rt, "memory");
    is_behind(rt, &text, wanted.1);
}

// The text of the race is this, and so it is written as JSON.
fn is_written(
    rt: &impl Abort,
    alloc: Global,
    spec: &Spec,
    names: &Roster,
    race: &Race,
    wanted: Wanted<'_>,
)
    requires { IsKnownRace spec.now (naming_in names.now) race.now }
{
    let text = race_text(alloc, race, spec, names).expect(rt, "memory");
    is_text(rt, text.items(), wanted.0);
    let text = race_json(alloc, race, spec, names).expect(rt, "memory");
    is_text(rt, text.items(), wanted.1);
}

// Two calls of the first flag, with one counter for their clocks.
fn both_calls<L: Ledger>(
    rt: &impl Abort,
    alloc: Global,
    blank: Blank,
    first: Told<'_>,
    second: Told<'_>,
) -> (Rc<Witness>, Rc<Witness>)
    requires name { blank.name ≡ L.name }
    requires parts { blank.parts ≡ L.parts }
    requires some { 0 < blank.parts }
{
    let mut steps = Steps::<L>::new(blank);
    let first = call_of(rt, alloc, first, &mut steps);
    (first, call_of(rt, alloc, second, &mut steps))
}

// The lines of a trace, the later and the earlier of two calls, the numbers of two methods, and how the race is told.
type RaceRow<'a> = (&'a str, (Told<'a>, Told<'a>), (u8, u8), Wanted<'a>);

// Two threads set a flag, on these lines of a trace. The race with these methods is told so.
fn is_race(rt: &impl Abort, alloc: Global, row: &RaceRow<'_>) {
    let (lines, (later, earlier), (first, second), wanted) = row;
    let (later, earlier) = both_calls::<Brand>(rt, alloc, Blank::new(1), *later, *earlier);
    let spec = spec_of(rt, alloc, FLAGS);
    let names = roster_of(rt, alloc, lines);
    let race = Race {
        later,
        earlier,
        kind: 0,
        first: *first,
        second: *second,
    };
    is_known(rt, &spec, &names, &race);
    is_written(rt, alloc, &spec, &names, &race, *wanted);
    is_appended(rt, alloc, &spec, &names, &race, *wanted);
}

fn are_races(rt: &impl Abort, alloc: Global, rows: &[RaceRow<'_>]) {
    for row in rows {
        is_race(rt, alloc, row);
    }
}

const RACES: [RaceRow<'static>; 4] = [
    (
        "rdtrace 1;thread p;thread q;object f flag",
        ((6, 1, "false", (0, 1, 0)), (5, 0, "true", (1, 0, 0))),
        (0, 0),
        (
            "race line 6 q f set -> false clock q:1\nwith line 5 p f set -> true clock p:1\nformula flag set set when done@1 = true\n",
            "{\"earlier\":{\"call\":\"p f set -> true\",\"clock\":\"p:1\",\"line\":5},\"formula\":\"flag set set when done@1 = true\",\"later\":{\"call\":\"q f set -> false\",\"clock\":\"q:1\",\"line\":6}}\n",
        ),
    ),
    // the first and the last of three threads
    (
        "rdtrace 1;thread main;thread a;thread b;object g.1 flag",
        (
            (4294967296, 2, "true", (2, 0, 1)),
            (40, 0, "true", (12, 7, 0)),
        ),
        (0, 0),
        (
            "race line 4294967296 b g.1 set -> true clock main:2,b:1\nwith line 40 main g.1 set -> true clock main:12,a:7\nformula flag set set when done@1 = true\n",
            "{\"earlier\":{\"call\":\"main g.1 set -> true\",\"clock\":\"main:12,a:7\",\"line\":40},\"formula\":\"flag set set when done@1 = true\",\"later\":{\"call\":\"b g.1 set -> true\",\"clock\":\"main:2,b:1\",\"line\":4294967296}}\n",
        ),
    ),
    // quotes and backslashes
    (
        "rdtrace 1;thread p;thread q;object f flag",
        (
            (6, 1, "\"\\\"\"", (0, 1, 0)),
            (5, 0, "\"a\\\\b\\xff\"", (1, 0, 0)),
        ),
        (0, 0),
        (
            "race line 6 q f set -> \"\\\"\" clock q:1\nwith line 5 p f set -> \"a\\\\b\\xff\" clock p:1\nformula flag set set when done@1 = true\n",
            "{\"earlier\":{\"call\":\"p f set -> \\\"a\\\\\\\\b\\\\xff\\\"\",\"clock\":\"p:1\",\"line\":5},\"formula\":\"flag set set when done@1 = true\",\"later\":{\"call\":\"q f set -> \\\"\\\\\\\"\\\"\",\"clock\":\"q:1\",\"line\":6}}\n",
        ),
    ),
    // the formula of other methods than the calls have
    (
        "rdtrace 1;thread p;thread q;object f flag",
        ((6, 1, "false", (0, 1, 0)), (5, 0, "true", (1, 0, 0))),
        (0, 1),
        (
            "race line 6 q f set -> false clock q:1\nwith line 5 p f set -> true clock p:1\nformula flag set see when done@1 = false\n",
            "{\"earlier\":{\"call\":\"p f set -> true\",\"clock\":\"p:1\",\"line\":5},\"formula\":\"flag set see when done@1 = false\",\"later\":{\"call\":\"q f set -> false\",\"clock\":\"q:1\",\"line\":6}}\n",
        ),
    ),
];

#[test]
fn a_race_of_two_calls(rt: HostRuntime) {
    are_races(&rt, rt.alloc(), &RACES);
}

// How the lines of a trace end, where each call gave what was recorded.
#[derive(Clone, Copy)]
enum Closing {
    Exact { shown: bool },
    Refused(u64, TraceCause),
    Fault,
}

fn ending(closing: Closing) -> Ending {
    match closing {
        Closing::Exact { shown } => Ending::End {
            replay: ReplayEnd::Exact,
            shown,
        },
        Closing::Refused(line, cause) => Ending::Refused { line, cause },
        Closing::Fault => Ending::Fault,
    }
}

// How many races there are, how the lines end, and how it is told.
type EndingRow<'a> = (u64, Closing, Wanted<'a>);

const ENDINGS: [EndingRow<'static>; 7] = [
    (
        0,
        Closing::Exact { shown: true },
        (
            "races 0\nreplay exact\nverdict deterministic\n",
            "{\"ending\":\"end\",\"races\":0,\"replay\":\"exact\",\"verdict\":\"deterministic\"}\n",
        ),
    ),
    (
        2,
        Closing::Exact { shown: false },
        (
            "races 2\nreplay exact\nverdict not shown\n",
            "{\"ending\":\"end\",\"races\":2,\"replay\":\"exact\",\"verdict\":\"not shown\"}\n",
        ),
    ),
    (
        1,
        Closing::Refused(10, TraceCause::Wf(WfCause::LockHeld(0))),
        (
            "races 1\nrefused line 10 lock-held p\n",
            "{\"ending\":\"refused line 10 lock-held p\",\"races\":1}\n",
        ),
    ),
    (
        0,
        Closing::Refused(2, TraceCause::BadLine),
        (
            "races 0\nrefused line 2 bad-line\n",
            "{\"ending\":\"refused line 2 bad-line\",\"races\":0}\n",
        ),
    ),
    (
        3,
        Closing::Refused(7, TraceCause::NoFinalNewline),
        (
            "races 3\nrefused line 7 no-final-newline\n",
            "{\"ending\":\"refused line 7 no-final-newline\",\"races\":3}\n",
        ),
    ),
    (
        0,
        Closing::Refused(2, TraceCause::Limit(LimitName::Line, 8192)),
        (
            "races 0\nrefused line 2 limit line 8192\n",
            "{\"ending\":\"refused line 2 limit line 8192\",\"races\":0}\n",
        ),
    ),
    (
        0,
        Closing::Fault,
        (
            "races 0\nfault input\n",
            "{\"ending\":\"fault input\",\"races\":0}\n",
        ),
    ),
];

fn ends_so(rt: &impl Abort, alloc: Global, names: &Roster, row: &EndingRow<'_>) {
    let (races, closing, wanted) = row;
    let ending = ending(*closing);
    let text = ending_text(alloc, *races, &ending, names).expect(rt, "memory");
    is_text(rt, text.items(), wanted.0);
    let object = ending_json(alloc, *races, &ending, names).expect(rt, "memory");
    is_text(rt, object.items(), wanted.1);
}

fn end_so(rt: &impl Abort, alloc: Global, rows: &[EndingRow<'_>]) {
    let names = roster_of(rt, alloc, "rdtrace 1;thread p;thread q");
    for row in rows {
        ends_so(rt, alloc, &names, row);
    }
}

#[test]
fn endings(rt: HostRuntime) {
    end_so(&rt, rt.alloc(), &ENDINGS);
}

#[test]
fn a_refusal(rt: HostRuntime) {
    let names = roster_of(&rt, rt.alloc(), "rdtrace 1;thread p;thread q");
    let cause = TraceCause::Wf(WfCause::LockHeld(1));
    let text = refused_text(rt.alloc(), 4, cause, &names).expect(&rt, "memory");
    is_text(&rt, text.items(), "refused line 4 lock-held q\n");
}

fn is_replay(rt: &impl Abort, alloc: Global, end: &ReplayEnd, wanted: &str) {
    let text = replay_text(alloc, end).expect(rt, "memory");
    is_text(rt, text.items(), wanted);
}

// It gives this in place of what was recorded.
fn differs(rt: &impl Abort, alloc: Global, line: u64, expected: Expected, wanted: &str) {
    is_replay(rt, alloc, &ReplayEnd::Differs { line, expected }, wanted);
}

#[test]
fn replays(rt: HostRuntime) {
    let alloc = rt.alloc();
    is_replay(&rt, alloc, &ReplayEnd::Exact, "replay exact\n");
    is_replay(&rt, alloc, &ReplayEnd::NotShipped, "replay not shipped\n");
    let nil = "replay differs line 12 expected nil\n";
    differs(&rt, alloc, 12, Expected::Value(Value::Nil), nil);
    let argument = "replay differs line 7 argument 1\n";
    differs(&rt, alloc, 7, Expected::BadArgument(0), argument);
}

// What an object holds, without values.
#[derive(Clone, Copy)]
enum Held {
    One,
    Number(i64),
    Items,
    Map,
    Counts(u64, u64),
    Row,
}

// The values of the keys.
fn pairs(rt: &impl Abort, alloc: Global, keys: &str, values: &str) -> ValuePairs {
    let mut pairs = ValuePairs::new(alloc);
    for (key, held) in keys.split(' ').zip(values.split(' ')) {
        pairs
            .push(value(rt, alloc, key), value(rt, alloc, held))
            .expect(rt, "memory");
    }
    pairs
}

// How often each of two values is there.
fn counts(rt: &impl Abort, alloc: Global, first: (&str, u64), second: (&str, u64)) -> ValueCounts {
    let mut counts = ValueCounts::new(alloc);
    counts
        .push(value(rt, alloc, first.0), first.1)
        .expect(rt, "memory");
    counts
        .push(value(rt, alloc, second.0), second.1)
        .expect(rt, "memory");
    counts
}

// What an object holds: its values, with a blank between two, or keys; the values of keys, or a second value; and its line.
type State<'a> = (Held, &'a str, &'a str, &'a str);

fn shape(rt: &impl Abort, alloc: Global, row: State<'_>) -> Shape {
    let (held, values, others, _) = row;
    match held {
        Held::One => Shape::One(value(rt, alloc, values)),
        Held::Number(number) => Shape::Number(number),
        Held::Items => Shape::Items(slots(rt, alloc, values)),
        Held::Map => Shape::Map(pairs(rt, alloc, values, others)),
        Held::Counts(first, second) => Shape::Counts(counts(
            rt,
            alloc,
            (values, first),
            (others, second),
        )),
        Held::Row => Shape::Row(slots(rt, alloc, values)),
    }
}

const STATES: [State<'static>; 7] = [
    (Held::One, "nil", "", "state o one nil\n"),
    (Held::Number(-5), "", "", "state o number -5\n"),
    (Held::Items, "-1 10", "", "state o items -1 10\n"),
    (
        Held::Map,
        "\"a\" \"b\"",
        "1 true",
        "state o map \"a\" 1 \"b\" true\n",
    ),
    (
        Held::Counts(3, 1),
        "nil",
        "\"\\\"\"",
        "state o counts nil 3 \"\\\"\" 1\n",
    ),
    (Held::Row, "-3 -4", "", "state o row -3 -4\n"),
    (Held::Items, "", "", "state o items\n"),
];

// What is put behind the text is this.
fn appends_state(rt: &impl Abort, text: &mut Bytes, shape: &Shape, wanted: &str) {
    let length = text.items().len();
    append_state(text, &name(rt, "o"), shape).expect(rt, "memory");
    let told = text.items().get(length..).expect(rt, "the text before");
    is_text(rt, told, wanted);
}

// Each is put behind those before.
fn append_states(rt: &impl Abort, alloc: Global, rows: &[State<'_>]) {
    let mut text = Bytes::new(alloc);
    for row in rows {
        let shape = shape(rt, alloc, *row);
        appends_state(rt, &mut text, &shape, row.3);
    }
}

#[test]
fn states(rt: HostRuntime) {
    append_states(&rt, rt.alloc(), &STATES);
}

// The text of the kinds that are built in.
const BUILT_IN: &str = "\
    rdspec 1\n\
    kind register\n\
    method read -> value\n\
    method write value -> done\n\
    method swap value -> prev\n\
    commute read read when true\n\
    commute read write when false\n\
    commute read swap when value@2 = prev@2\n\
    commute write write when false\n\
    commute write swap when false\n\
    commute swap swap when value@1 = prev@1 and value@2 = prev@2\n\
    kind counter\n\
    method add amount -> done\n\
    method get -> total\n\
    commute add add when true\n\
    commute add get when amount@1 = 0\n\
    commute get get when true\n\
    kind set\n\
    method add item -> done\n\
    method remove item -> done\n\
    method contains item -> found\n\
    method size -> n\n\
    commute add add when item@1 != item@2 or done@1 = false and done@2 = false\n\
    commute add remove when item@1 != item@2 or done@1 = false and done@2 = false\n\
    commute add contains when item@1 != item@2 or done@1 = false\n\
    commute add size when done@1 = false\n\
    commute remove remove when item@1 != item@2 or done@1 = false and done@2 = false\n\
    commute remove contains when item@1 != item@2 or done@1 = false\n\
    commute remove size when done@1 = false\n\
    commute contains contains when true\n\
    commute contains size when true\n\
    commute size size when true\n\
    kind dictionary\n\
    method put key value -> prev\n\
    method get key -> value\n\
    method size -> n\n\
    commute put put when key@1 != key@2 or value@1 = prev@1 and value@2 = prev@2\n\
    commute put get when key@1 != key@2 or value@1 = prev@1\n\
    commute put size when value@1 = nil and prev@1 = nil or value@1 != nil and prev@1 != nil\n\
    commute get get when true\n\
    commute get size when true\n\
    commute size size when true\n\
    kind bag\n\
    method add item -> done\n\
    method remove item -> done\n\
    method count item -> n\n\
    commute add add when true\n\
    commute add remove when item@1 != item@2\n\
    commute add count when item@1 != item@2\n\
    commute remove remove when item@1 != item@2 or done@1 = true and done@2 = true or done@1 = false and done@2 = false\n\
    commute remove count when item@1 != item@2 or done@1 = false\n\
    commute count count when true\n\
    kind peak\n\
    method raise amount -> prev\n\
    method get -> peak\n\
    commute raise raise when amount@1 <= prev@1 and amount@2 <= prev@2\n\
    commute raise get when amount@1 <= prev@1\n\
    commute get get when true\n\
    kind queue\n\
    method enqueue item -> done\n\
    method dequeue -> got\n\
    method size -> n\n\
    commute enqueue enqueue when false\n\
    commute enqueue dequeue when got@2 != nil and item@1 != got@2\n\
    commute enqueue size when false\n\
    commute dequeue dequeue when got@1 = nil and got@2 = nil\n\
    commute dequeue size when got@1 = nil\n\
    commute size size when true\n\
    kind tally\n\
    method hit item -> done\n\
    method count item -> n\n\
    method total -> n\n\
    commute hit hit when true\n\
    commute hit count when item@1 != item@2\n\
    commute hit total when false\n\
    commute count count when true\n\
    commute count total when true\n\
    commute total total when true\n";

fn is_printed(rt: &impl Abort, alloc: Global, kinds: &Spec, wanted: &str) {
    let text = print(alloc, kinds).expect(rt, "memory");
    is_text(rt, text.items(), wanted);
}

#[test]
fn the_text_of_all(rt: HostRuntime) {
    is_printed(&rt, rt.alloc(), &built_in(&rt, rt.alloc()), BUILT_IN);
}

#[test]
fn the_printed_text_is_read_again(rt: HostRuntime) {
    let again = spec_of(&rt, rt.alloc(), BUILT_IN);
    is_so(&rt, again.kinds().len() == 8, "eight kinds");
    is_printed(&rt, rt.alloc(), &again, BUILT_IN);
}

#[test]
fn a_formula_of_counters(rt: HostRuntime) {
    let spec = built_in(&rt, rt.alloc());
    let counter = spec.kinds().get(1).expect(&rt, "a kind");
    assert!(rt; counter.methods().len() == 2);
    let text = formula_text(rt.alloc(), counter, 0, 1).expect(&rt, "memory");
    is_text(&rt, text.items(), "add get when amount@1 = 0");
}
