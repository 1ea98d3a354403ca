//! Rosters: how accepted lines are numbered, and the first rule that a line breaks.
ghost use Rattle.rd_base.specs.Limits.{AreUsable};

use crate::samples::{accepts, built_in, is_so, is_text, line, opens, roster_over, slots};
use rd_base::{LimitName, Limits};
use rd_event::{Call, Event};
use rd_wf::{Accepted, Roster, WfCause, WfRefused};
use std::alloc::Global;
use std::process::Abort;

// Which calls commute is no matter here: each pair has a formula.
const REGISTER_AND_FLAG: &str =
    "rdspec 1\nkind register\nmethod read -> value\nmethod write value -> done\nmethod swap value -> prev\ncommute read read when true\ncommute read write when true\ncommute read swap when true\ncommute write write when true\ncommute write swap when true\ncommute swap swap when true\nkind flag\nmethod set -> done\ncommute set set when true\n";

// The roster accepts the lines before and answers this to the last one.
fn answers(
    rt: &impl Abort,
    alloc: Global,
    roster: &mut Roster,
    before: &str,
    last: &str,
    limits: &Limits,
    wanted: &Result<Accepted, WfRefused>,
)
    requires { AreUsable limits.now }
{
    opens(rt, alloc, roster, before, limits);
    let answer = roster.accept(&line(rt, alloc, last), limits);
    is_so(rt, answer == *wanted, last);
}

// What is answered to a line, without values.
#[derive(Clone, Copy)]
enum Answer {
    Nothing,
    Root(u32),
    Object(u32, u32),
    Fork(u32, u32),
    Join(u32, u32),
    Acquire(u32, u32),
    Release(u32, u32),
    Share(u32, u32),
    Unshare(u32, u32),
    Refused(WfCause),
}

fn answer_of(answer: Answer) -> Result<Accepted, WfRefused> {
    let event = match answer {
        Answer::Nothing => return Ok(Accepted::Nothing),
        Answer::Root(thread) => return Ok(Accepted::Root(thread)),
        Answer::Object(object, kind) => return Ok(Accepted::Object { object, kind }),
        Answer::Refused(cause) => return Err(WfRefused::Cause(cause)),
        Answer::Fork(thread, child) => Event::Fork { thread, child },
        Answer::Join(thread, child) => Event::Join { thread, child },
        Answer::Acquire(thread, lock) => Event::Acquire { thread, lock },
        Answer::Release(thread, lock) => Event::Release { thread, lock },
        Answer::Share(thread, lock) => Event::Share { thread, lock },
        Answer::Unshare(thread, lock) => Event::Unshare { thread, lock },
    };
    Ok(Accepted::Event(event))
}

// What is answered to the last line of each row, behind the others, which are accepted. A row stands on a line of its own, with a
// semicolon between two lines of a trace.
type Group<'a> = (Answer, &'a str);

// The roster answers this to the last line of the row.
fn answers_row(
    rt: &impl Abort,
    alloc: Global,
    roster: &mut Roster,
    row: &str,
    answer: Answer,
    limits: &Limits,
)
    requires { AreUsable limits.now }
{
    let (before, last) = row.rsplit_once(';').unwrap_or(("", row));
    let wanted = answer_of(answer);
    answers(rt, alloc, roster, before, last, limits, &wanted);
}

// A new roster, over registers and flags, does so.
fn is_answered(rt: &impl Abort, alloc: Global, row: &str, answer: Answer, limits: &Limits)
    requires { AreUsable limits.now }
{
    let mut roster = roster_over(rt, alloc, REGISTER_AND_FLAG);
    answers_row(rt, alloc, &mut roster, row, answer, limits);
}

fn are_answered(rt: &impl Abort, alloc: Global, group: Group<'_>, limits: &Limits)
    requires { AreUsable limits.now }
{
    let (answer, rows) = group;
    for row in rows.lines() {
        is_answered(rt, alloc, row, answer, limits);
    }
}

fn all_are_answered(rt: &impl Abort, alloc: Global, groups: &[Group<'_>], limits: &Limits)
    requires { AreUsable limits.now }
{
    for group in groups {
        are_answered(rt, alloc, *group, limits);
    }
}

// A lock may be acquired again by its holder, and by another once it was given back as often. It may be shared by several, and taken both
// ways by one.
const ACCEPTED: [Group<'static>; 16] = [
    (
        Answer::Nothing,
        "# skipped\n\
        # skipped;rdtrace 1",
    ),
    (Answer::Root(0), "rdtrace 1;thread a"),
    (Answer::Root(1), "rdtrace 1;thread a;# skipped;thread b"),
    (
        Answer::Object(1, 0),
        "rdtrace 1;thread a;object a register;object b register",
    ),
    (Answer::Fork(1, 2), "rdtrace 1;thread a;thread b;fork b c"),
    (
        Answer::Join(1, 2),
        "rdtrace 1;thread a;fork a b;fork b c;join a c;join b c",
    ),
    (Answer::Join(0, 1), "rdtrace 1;thread a;thread b;join a b"),
    (Answer::Object(0, 1), "rdtrace 1;thread a;object f flag"),
    (
        Answer::Acquire(0, 0),
        "rdtrace 1;thread a;acquire a l\n\
        rdtrace 1;thread a;thread b;acquire a l;release a l;acquire b l;release b l;acquire a l\n\
        rdtrace 2;thread a;thread b;share b l;share a l;unshare b l;acquire a l",
    ),
    (
        Answer::Acquire(1, 1),
        "rdtrace 1;thread a;thread b;acquire a l;release a l;acquire b m",
    ),
    (
        Answer::Release(0, 1),
        "rdtrace 1;thread a;acquire a l;acquire a m;release a l;release a m",
    ),
    (
        Answer::Release(0, 0),
        "rdtrace 1;thread a;acquire a l;acquire a l;release a l",
    ),
    (
        Answer::Acquire(1, 0),
        "rdtrace 1;thread a;thread b;acquire a l;acquire a l;release a l;release a l;acquire b l\n\
        rdtrace 2;thread a;thread b;share a l;share a l;unshare a l;unshare a l;acquire b l",
    ),
    (
        Answer::Share(0, 0),
        "rdtrace 2;thread a;share a l\n\
        rdtrace 2;thread a;acquire a l;share a l",
    ),
    (
        Answer::Share(1, 0),
        "rdtrace 2;thread a;thread b;share a l;share a l;share b l",
    ),
    (
        Answer::Unshare(0, 1),
        "rdtrace 2;thread a;share a l;acquire a m;share a m;unshare a m",
    ),
];

#[test]
fn accepted_lines_are_numbered(rt: HostRuntime) {
    all_are_answered(&rt, rt.alloc(), &ACCEPTED, &Limits::standard());
}

// A call, the numbers of its thread, object and method, and its values.
type CallRow<'a> = (&'a str, u32, u32, u8, &'a str);

const CALLS: [CallRow<'static>; 3] = [
    ("call b y read -> 7", 1, 1, 0, "7"),
    ("call a x write 7 -> nil", 0, 0, 1, "7 nil"),
    ("call a y swap true -> false", 0, 1, 2, "true false"),
];

// Behind a fork and the declarations of two registers the call is accepted so.
fn is_call(rt: &impl Abort, alloc: Global, row: CallRow<'_>) {
    let (text, thread, object, method, values) = row;
    let call = Call {
        thread,
        object,
        kind: 0,
        method,
        slots: slots(rt, alloc, values),
    };
    let wanted = Ok(Accepted::Event(Event::Call(call)));
    let before = "rdtrace 1;thread a;fork a b;object x register;object y register";
    let mut roster = roster_over(rt, alloc, REGISTER_AND_FLAG);
    let limits = Limits::standard();
    answers(rt, alloc, &mut roster, before, text, &limits, &wanted);
    is_so(rt, roster.events() == 2, text);
}

/// A call has the numbers of its thread, of its object, of that object's kind and of the method, and its values.
#[test]
fn accepted_calls_are_numbered(rt: HostRuntime) {
    for row in &CALLS {
        is_call(&rt, rt.alloc(), *row);
    }
}

// The last line breaks this part of the rules first.
const REFUSED: [Group<'static>; 11] = [
    (
        Answer::Refused(WfCause::HeaderFirst),
        "thread a\n\
        fork a a\n\
        rdtrace 1;thread a;rdtrace 1\n\
        call a x add -> 1\n\
        acquire a l\n\
        rdtrace 1;thread p;object x register;rdtrace 1",
    ),
    (
        Answer::Refused(WfCause::LateRoot),
        "rdtrace 1;thread a;fork a b;thread a",
    ),
    (
        Answer::Refused(WfCause::NameTaken),
        "rdtrace 1;thread a;thread a\n\
        rdtrace 1;thread a;fork a b;fork a b\n\
        rdtrace 1;thread a;fork x a\n\
        rdtrace 1;object a register;object a queue\n\
        rdtrace 1;thread p;object x register;object x counter",
    ),
    (
        Answer::Refused(WfCause::UnknownThread),
        "rdtrace 1;thread a;fork x b\n\
        rdtrace 1;thread a;fork a b;join b a;join a x\n\
        rdtrace 1;thread a;join x x\n\
        rdtrace 1;call a x add -> 1\n\
        rdtrace 1;thread a;acquire x l\n\
        rdtrace 1;thread a;release x l\n\
        rdtrace 1;thread p;object x register;fork q u",
    ),
    (
        Answer::Refused(WfCause::ThreadEnded),
        "rdtrace 1;thread a;fork a p;join a p;join p p\n\
        rdtrace 1;thread a;fork a p;join a p;fork p q\n\
        rdtrace 1;thread a;thread b;join a b;call b x add -> 1\n\
        rdtrace 1;thread a;fork a b;acquire b l;join a b;acquire b l\n\
        rdtrace 1;thread a;fork a b;acquire b l;join a b;release b l",
    ),
    (
        Answer::Refused(WfCause::OwnThread),
        "rdtrace 1;thread p;join p p\n\
        rdtrace 1;thread p;object x register;join p p",
    ),
    (
        Answer::Refused(WfCause::UnknownKind),
        "rdtrace 1;object a queue\n\
        rdtrace 1;thread p;object x register;object y queue",
    ),
    (
        Answer::Refused(WfCause::UnknownObject),
        "rdtrace 1;thread a;call a x add -> 1\n\
        rdtrace 1;thread a;object x register;call a y read -> 1\n\
        rdtrace 1;thread p;object x register;call p y read -> nil",
    ),
    (
        Answer::Refused(WfCause::UnknownMethod),
        "rdtrace 1;thread a;object x register;call a x add 1 -> nil\n\
        rdtrace 1;thread a;object f flag;call a f read -> 1\n\
        rdtrace 1;thread p;object x register;call p x add 1 -> nil",
    ),
    (
        Answer::Refused(WfCause::WrongCount),
        "rdtrace 1;thread a;object x register;call a x write -> nil\n\
        rdtrace 1;thread a;object x register;call a x read 1 -> 1\n\
        rdtrace 1;thread a;object x register;call a x swap 1 2 -> 1\n\
        rdtrace 1;thread p;object x register;call p x write -> nil",
    ),
    (
        Answer::Refused(WfCause::NotHeld),
        "rdtrace 1;thread p;object x register;release p l",
    ),
];

// The same of locks, which one thread holds, or several share: of several the least is told. A thread that has ended keeps what it has, and
// one that took a lock both ways and gave back one of them has it still.
const HELD: [Group<'static>; 4] = [
    (
        Answer::Refused(WfCause::LockHeld(0)),
        "rdtrace 1;thread a;thread b;acquire a l;acquire b l\n\
        rdtrace 1;thread a;thread b;acquire a l;acquire a l;release a l;acquire b l\n\
        rdtrace 1;thread a;thread b;acquire a l;acquire a m;release a m;acquire b m;acquire b l\n\
        rdtrace 2;thread a;thread b;share a l;acquire b l",
    ),
    (
        Answer::Refused(WfCause::LockHeld(1)),
        "rdtrace 1;thread a;thread b;acquire b l;acquire a l\n\
        rdtrace 1;thread a;thread b;acquire b l;join a b;acquire a l\n\
        rdtrace 2;thread a;thread b;acquire b l;share a l\n\
        rdtrace 2;thread a;thread b;thread c;thread d;share d l;share b l;share c l;acquire a l\n\
        rdtrace 2;thread a;thread b;share b l;acquire b l;unshare b l;share a l\n\
        rdtrace 2;thread a;thread b;share b l;acquire b l;release b l;acquire a l",
    ),
    (
        Answer::Refused(WfCause::NotHeld),
        "rdtrace 1;thread a;thread b;release a l\n\
        rdtrace 1;thread a;thread b;acquire a l;release b l\n\
        rdtrace 1;thread a;thread b;acquire a l;release a m\n\
        rdtrace 1;thread a;thread b;acquire a l;release a l;release a l\n\
        rdtrace 1;thread a;thread b;acquire a l;release a l;acquire b l;release a l\n\
        rdtrace 2;thread a;unshare a l\n\
        rdtrace 2;thread a;acquire a l;unshare a l\n\
        rdtrace 2;thread a;share a l;release a l\n\
        rdtrace 2;thread a;thread b;share a l;share b l;unshare a l;unshare a l",
    ),
    (
        Answer::Refused(WfCause::LockHeld(2)),
        "rdtrace 2;thread a;thread b;thread c;share a l;share c l;acquire a l",
    ),
];

#[test]
fn the_first_broken_part_is_the_cause(rt: HostRuntime) {
    all_are_answered(&rt, rt.alloc(), &REFUSED, &Limits::standard());
    all_are_answered(&rt, rt.alloc(), &HELD, &Limits::standard());
}

// The limits on events, threads, objects, locks and depth.
type Bounds = (u32, u32, u32, u32, u32);

fn limits_of(rt: &impl Abort, bounds: Bounds) -> Limits
    ensures { AreUsable result }
{
    let (events, threads, objects, locks, depth) = bounds;
    assert!(rt; events <= 4_294_967_294);
    Limits {
        events,
        threads,
        objects,
        locks,
        depth,
        ..Limits::standard()
    }
}

// Where a line passes several limits, the first is told, and a broken rule of locks comes before. A lock is counted where it is first
// acquired or shared, and its depth by each acquire, and apart by each share.
const PASSED: [(Bounds, &[Group<'static>]); 9] = [
    (
        (9, 4096, 65536, 1, 1),
        &[(
            Answer::Refused(WfCause::Limit(LimitName::Depth, 1)),
            "rdtrace 2;thread a;share a l;acquire a l;share a l\n\
                rdtrace 2;thread a;share a l;acquire a l;acquire a l",
        )],
    ),
    (
        (9, 4096, 65536, 1, 9),
        &[(
            Answer::Refused(WfCause::Limit(LimitName::Locks, 1)),
            "rdtrace 2;thread a;share a l;share a m",
        )],
    ),
    (
        (1, 4096, 65536, 0, 0),
        &[(
            Answer::Refused(WfCause::Limit(LimitName::Events, 1)),
            "rdtrace 1;thread a;fork a b;acquire a l",
        )],
    ),
    (
        (2, 4096, 65536, 0, 0),
        &[(
            Answer::Refused(WfCause::Limit(LimitName::Locks, 0)),
            "rdtrace 1;thread a;fork a b;acquire a l",
        )],
    ),
    (
        (2, 4096, 65536, 1, 0),
        &[(
            Answer::Refused(WfCause::Limit(LimitName::Depth, 0)),
            "rdtrace 1;thread a;fork a b;acquire a l",
        )],
    ),
    (
        (0, 1, 65536, 65536, 65535),
        &[
            (
                Answer::Refused(WfCause::Limit(LimitName::Events, 0)),
                "rdtrace 1;thread a;fork a b",
            ),
            (
                Answer::Refused(WfCause::UnknownThread),
                "rdtrace 1;thread a;acquire b l",
            ),
            (
                Answer::Refused(WfCause::NotHeld),
                "rdtrace 1;thread a;release a l",
            ),
        ],
    ),
    (
        (1, 1, 65536, 65536, 65535),
        &[(
            Answer::Refused(WfCause::Limit(LimitName::Threads, 1)),
            "rdtrace 1;thread a;fork a b",
        )],
    ),
    (
        (4_294_967_294, 4096, 65536, 1, 1),
        &[
            (
                Answer::Refused(WfCause::Limit(LimitName::Depth, 1)),
                "rdtrace 1;thread a;thread b;acquire a l;acquire a l",
            ),
            (
                Answer::Refused(WfCause::Limit(LimitName::Locks, 1)),
                "rdtrace 1;thread a;thread b;acquire a l;acquire a m\n\
                rdtrace 1;thread a;thread b;acquire a l;release a l;acquire b m",
            ),
        ],
    ),
    (
        (2, 3, 1, 65536, 65535),
        &[
            (
                Answer::Refused(WfCause::Limit(LimitName::Threads, 3)),
                "rdtrace 1;thread a;thread b;thread c;thread d\n\
                rdtrace 1;thread a;thread b;thread c;fork a d",
            ),
            (
                Answer::Refused(WfCause::Limit(LimitName::Events, 2)),
                "rdtrace 1;thread a;fork a b;fork a c;fork a d\n\
                rdtrace 1;thread a;thread b;join a b;join a b;join a b\n\
                rdtrace 1;thread a;object x register;call a x read -> 1;call a x read -> 1;call a x read -> 1",
            ),
            (
                Answer::Refused(WfCause::Limit(LimitName::Objects, 1)),
                "rdtrace 1;object a register;object b register",
            ),
            (
                Answer::Refused(WfCause::UnknownKind),
                "rdtrace 1;object a register;object b queue",
            ),
        ],
    ),
];

// The last line is accepted under these limits, of which it meets one.
const MET: [(Bounds, &[Group<'static>]); 4] = [
    (
        (4_294_967_294, 4096, 65536, 1, 2),
        &[(
            Answer::Acquire(0, 0),
            "rdtrace 1;thread a;thread b;acquire a l;acquire a l",
        )],
    ),
    (
        (4_294_967_294, 4096, 65536, 1, 1),
        &[(
            Answer::Acquire(0, 0),
            "rdtrace 1;thread a;thread b;acquire a l;release a l;acquire a l",
        )],
    ),
    (
        (4_294_967_294, 4096, 65536, 2, 1),
        &[(
            Answer::Acquire(0, 1),
            "rdtrace 1;thread a;thread b;acquire a l;acquire a m",
        )],
    ),
    (
        (2, 3, 1, 65536, 65535),
        &[
            (Answer::Root(2), "rdtrace 1;thread a;thread b;thread c"),
            (Answer::Fork(0, 2), "rdtrace 1;thread a;fork a b;fork a c"),
            (Answer::Object(0, 0), "rdtrace 1;object a register"),
        ],
    ),
];

fn are_within(rt: &impl Abort, alloc: Global, rows: &[(Bounds, &[Group<'_>])]) {
    for (bounds, groups) in rows {
        all_are_answered(rt, alloc, groups, &limits_of(rt, *bounds));
    }
}

#[test]
fn limits_are_not_passed(rt: HostRuntime) {
    are_within(&rt, rt.alloc(), &PASSED);
}

#[test]
fn limits_are_met(rt: HostRuntime) {
    are_within(&rt, rt.alloc(), &MET);
}

// The roster of no lines, over the kinds that are built in.
fn start(rt: &impl Abort, alloc: Global) -> Box<Roster> {
    let kinds = built_in(rt, alloc);
    let roster = Roster::new(alloc, &kinds).expect(rt, "memory");
    Box::new(alloc, roster).expect(rt, "memory")
}

/// A thread that has a lock acquires it once more. One release leaves the lock with it, so another thread can't acquire it.
#[test]
fn a_reentrant_lock_line_by_line(rt: HostRuntime) {
    let mut roster = start(&rt, rt.alloc());
    let row =
        "rdtrace 1;thread p;thread q;object x register;acquire p l;acquire p l;call p x write 1 -> nil;call q x read -> 1;release p l;acquire q l";
    let answer = Answer::Refused(WfCause::LockHeld(0));
    let limits = Limits::standard();
    answers_row(&rt, rt.alloc(), &mut roster, row, answer, &limits);
}

// Lines, and which of them are accepted.
const SOME: [(&str, bool); 30] = [
    ("thread a", false),
    ("rdtrace 1", true),
    ("rdtrace 1", false),
    ("thread a", true),
    ("fork x b", false),
    ("object r queue", false),
    ("fork a b", true),
    ("join b b", false),
    ("thread c", false),
    ("object r register", true),
    ("call b s read -> 1", false),
    ("call b r add -> 1", false),
    ("call b r read 1 -> 1", false),
    ("call b r read -> 1", true),
    ("release b l", false),
    ("acquire b l", true),
    ("acquire a l", false),
    ("release a l", false),
    ("acquire b l", true),
    ("release b l", true),
    ("acquire a l", false),
    ("acquire x m", false),
    ("release b l", true),
    ("release b l", false),
    ("acquire a l", true),
    ("acquire a m", true),
    ("join a b", true),
    ("fork b c", false),
    ("call b r read -> 1", false),
    ("acquire b k", false),
];

fn accepts_some(rt: &impl Abort, alloc: Global, roster: &mut Roster, rows: &[(&str, bool)]) {
    for (text, accepted) in rows {
        let found = accepts(rt, alloc, roster, text, &Limits::standard());
        is_so(rt, found == *accepted, text);
    }
}

fn holds_some(rt: &impl Abort, roster: &Roster) {
    assert!(rt; roster.threads() == 2 && roster.locks() == 2);
    assert!(rt; roster.objects() == 1 && roster.events() == 9);
    is_text(rt, roster.thread_name(1).items(), "b");
    is_text(rt, roster.lock_name(0).items(), "l");
    is_text(rt, roster.lock_name(1).items(), "m");
    is_text(rt, roster.object_name(0).items(), "r");
}

fn finishes(rt: &impl Abort, roster: &Roster, wanted: Result<(), WfCause>, when: &str) {
    is_so(rt, roster.finish() == wanted, when);
}

#[test]
fn a_refused_line_changes_nothing(rt: HostRuntime) {
    let mut roster = roster_over(&rt, rt.alloc(), REGISTER_AND_FLAG);
    let missing = Err(WfCause::HeaderFirst);
    finishes(&rt, &roster, missing, "before the header");
    accepts_some(&rt, rt.alloc(), &mut roster, &SOME);
    finishes(&rt, &roster, Ok(()), "behind the header");
    holds_some(&rt, &roster);
}
