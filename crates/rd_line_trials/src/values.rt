//! Names, words, limits, the counter of steps, and values with their spellings.
ghost use Rattle.std.specs.Prelude.{◌≡◌, ◌<◌};

use crate::rows::Wanted;
use rd_base::{
    BadName, Bytes, Limits, Name, NoMemory, Steps, ValueRefused, Word, is_value, name_length,
    read_value, spell_value,
};
use std::alloc::Global;
use std::marker::Brand;
use std::mem::size_of;
use std::process::Abort;
use std::sync::ledger::{Blank, Ledger};

/// Texts that are a name, and others. The long ones have 64 and 65 bytes.
const NAMES: [(&str, bool); 7] = [
    ("", false),
    ("a", true),
    ("a b", false),
    ("Az09_.:$#@-", true),
    ("a/b", false),
    (
        "xxxxxxxxxxxxxxxxxxxxxxxxxxxxxxxxxxxxxxxxxxxxxxxxxxxxxxxxxxxxxxxx",
        true,
    ),
    (
        "xxxxxxxxxxxxxxxxxxxxxxxxxxxxxxxxxxxxxxxxxxxxxxxxxxxxxxxxxxxxxxxxx",
        false,
    ),
];

// Is the text kept as a name, and copied, where it is one, and refused elsewhere?
fn is_kept(text: &str, is_name: bool) -> bool {
    match Name::from_bytes(text.as_bytes()) {
        Ok(name) => is_name && name.items() == text.as_bytes() && name.copy() == name,
        Err(BadName) => !is_name,
    }
}

#[test]
fn names(rt: HostRuntime) {
    for (text, is_name) in &NAMES {
        assert!(rt; is_kept(text, *is_name), "at {text}");
    }
}

/// Texts with how many bytes at their front are of a name.
const ENDS: [(&str, usize); 8] = [
    ("", 0),
    ("a-b c", 3),
    (" a", 0),
    ("a/b", 1),
    ("ab", 2),
    ("abc d", 3),
    ("main x", 4),
    ("java.util.HashMap@1f2 put", 21),
];

#[test]
fn ends_of_names(rt: HostRuntime) {
    for (text, length) in &ENDS {
        assert!(rt; name_length(text.as_bytes()) == *length, "at {text}");
    }
}

// `check`, of a word and a byte more.
fn check_word(alloc: Global) -> Result<Word, NoMemory> {
    let mut word = Word::from_bytes(alloc, b"chec")?;
    word.push(b'k')?;
    Ok(word)
}

// A line of an answer, of two texts with a byte between them, in a text that was used before.
fn races_line(alloc: Global) -> Result<Bytes, NoMemory> {
    let mut bytes = Bytes::new(alloc);
    for _ in 0..100 {
        bytes.append(b"calls 36000\n")?;
    }
    bytes.clear();
    bytes.append(b"races 1")?;
    bytes.push(b'0')?;
    bytes.append(b"\n")?;
    Ok(bytes)
}

#[test]
fn words_and_bytes(rt: HostRuntime) {
    let word = check_word(rt.alloc()).expect(&rt, "memory");
    let bytes = races_line(rt.alloc()).expect(&rt, "memory");
    assert!(rt; word.items() == b"check".as_slice());
    assert!(rt; Word::new(rt.alloc()).items().is_empty());
    assert!(rt; bytes.items() == b"races 10\n".as_slice());
}

#[test]
fn standard_limits(rt: HostRuntime) {
    let limits = Limits::standard();
    assert!(rt; limits.line == 8192 && limits.bytes == 1 << 40 && limits.events == u32::MAX - 1);
}

fn ticked<L: Ledger>(blank: Blank, times: u32) -> u32
    requires name { blank.name ≡ L.name }
    requires parts { blank.parts ≡ L.parts }
    requires some { 0 < blank.parts }
{
    let mut steps = Steps::<L>::new(blank);
    for _ in 0..times {
        steps.tick();
    }
    times
}

#[test]
fn steps_take_no_bytes(rt: HostRuntime) {
    assert!(rt; size_of::<Steps<Brand>>() == 0);
    assert!(rt; ticked::<Brand>(Blank::new(1), 3) == 3);
}

// Do the bytes spell the value, and are a copy and the value alike?
fn has_spelling(rt: &impl Abort, alloc: Global, bytes: &[u8], wanted: Wanted) -> bool {
    let value = wanted.value(rt, alloc);
    let read = read_value(alloc, bytes).expect(rt, "a value");
    let spelled = spell_value(alloc, &value).expect(rt, "memory");
    let copy = value.copy(alloc).expect(rt, "memory");
    is_value(bytes)
        && wanted.is(&read)
        && read == value
        && spelled.items() == bytes
        && copy == value
}

/// Texts with the values that they spell.
const VALUES: [(&str, Wanted<'static>); 17] = [
    ("nil", Wanted::Nil),
    ("true", Wanted::Bool(true)),
    ("false", Wanted::Bool(false)),
    ("0", Wanted::Int(0)),
    ("7", Wanted::Int(7)),
    ("-1", Wanted::Int(-1)),
    ("10", Wanted::Int(10)),
    ("999999999999999999", Wanted::Int(999_999_999_999_999_999)),
    (
        "1000000000000000000",
        Wanted::Int(1_000_000_000_000_000_000),
    ),
    ("9223372036854775807", Wanted::Int(i64::MAX)),
    ("-9223372036854775808", Wanted::Int(i64::MIN)),
    ("\"\"", Wanted::Text(b"")),
    ("\"a b\"", Wanted::Text(b"a b")),
    ("\"nil\"", Wanted::Text(b"nil")),
    ("\" ~\"", Wanted::Text(b" ~")),
    ("\"\\x0a\\x00\\x7f\\x80\"", Wanted::Text(b"\n\x00\x7f\x80")),
    ("\"\\\"\\\\\\xff\"", Wanted::Text(b"\x22\x5C\xFF")),
];

#[test]
fn reads_and_spells_each_value(rt: HostRuntime) {
    for (text, wanted) in &VALUES {
        assert!(rt;
            has_spelling(&rt, rt.alloc(), text.as_bytes(), *wanted),
            "at {text}"
        );
    }
}

// Do the bytes spell no value?
fn is_refused(alloc: Global, bytes: &[u8]) -> bool {
    !is_value(bytes) && matches!(read_value(alloc, bytes), Err(ValueRefused::NotAValue))
}

// Texts that spell no value, with `|` between them.
const NO_VALUES: &str = "\
    | |nill|ni|Nil|nil | nil|True|-|-0|00|007|-07|+7|--7|7 |0x7|7a|1e3|9223372036854775808|\
    -9223372036854775809|99999999999999999999999999999999999999999|\"|\"a|a\"|\"a\\\"|\
    \"\"\"|\"\\x41\"|\"\\x0A\"|\"\\x0\"|\"\\n\"|\"\n\"";

#[test]
fn refuses_what_spells_no_value(rt: HostRuntime) {
    for text in NO_VALUES.split('|') {
        assert!(rt; is_refused(rt.alloc(), text.as_bytes()), "at {text}");
    }
    assert!(rt; is_refused(rt.alloc(), b"\"\xff\""));
    assert!(rt; is_refused(rt.alloc(), b"\xff"));
}

// The spelling of a text of 255 bytes, of which each has this one, with what stands behind them.
fn long_spelling(rt: &impl Abort, alloc: Global, each: &[u8], last: &[u8]) -> Bytes {
    let mut bytes = Bytes::new(alloc);
    bytes.append(b"\"").expect(rt, "memory");
    for _ in 0..255 {
        bytes.append(each).expect(rt, "memory");
    }
    bytes.append(last).expect(rt, "memory");
    bytes
}

// Is a text of 255 such bytes read, and one of a byte more refused?
fn at_most_255(rt: &impl Abort, alloc: Global, each: &[u8], wanted: &[u8]) -> bool {
    let longest = long_spelling(rt, alloc, each, b"\"");
    let longer = long_spelling(rt, alloc, each, b"a\"");
    has_spelling(rt, alloc, longest.items(), Wanted::Text(wanted))
        && is_refused(alloc, longer.items())
}

#[test]
fn reads_texts_of_at_most_255_bytes(rt: HostRuntime) {
    assert!(rt; at_most_255(&rt, rt.alloc(), b"\\xff", &[255; 255]));
    assert!(rt; at_most_255(&rt, rt.alloc(), b"b", &[b'b'; 255]));
}

// Is the one value below the other?
fn is_below(rt: &impl Abort, alloc: Global, one: Wanted, other: Wanted) -> bool {
    one.value(rt, alloc) < other.value(rt, alloc)
}

/// Values, each below the next one.
const RISING: [Wanted<'static>; 25] = [
    Wanted::Nil,
    Wanted::Bool(false),
    Wanted::Bool(true),
    Wanted::Int(i64::MIN),
    Wanted::Int(-1),
    Wanted::Int(0),
    Wanted::Int(i64::MAX),
    Wanted::Text(b""),
    Wanted::Text(b"a"),
    Wanted::Text(b"aa"),
    Wanted::Text(b"b"),
    Wanted::Text(b"key"),
    Wanted::Text(b"key-"),
    Wanted::Text(b"key-123"),
    Wanted::Text(b"key-1234"),
    Wanted::Text(b"key-12345"),
    Wanted::Text(b"key-1234567890abcd"),
    Wanted::Text(b"key-1234567890abcde"),
    Wanted::Text(b"key-1234567890abcdef"),
    Wanted::Text(b"key-1234567890abcdf"),
    Wanted::Text(b"key-1235"),
    Wanted::Text(b"key-124"),
    Wanted::Text(b"key-\xff"),
    Wanted::Text(b"kez"),
    Wanted::Text(b"\xff"),
];

#[test]
fn orders_values(rt: HostRuntime) {
    for (one, other) in RISING.iter().zip(&RISING[1..]) {
        assert!(rt; is_below(&rt, rt.alloc(), *one, *other));
    }
}
