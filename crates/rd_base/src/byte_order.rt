//! The order of lists of bytes, by the numbers that four or eight of them make.
ghost use Rattle.std.specs.Prelude.{◌≡◌, ◌+◌, ◌<◌, ◌≤◌, min, length, take, drop};
ghost use Rattle.std.specs.Slice.Scan.{big_endian};
ghost use Rattle.rd_base.specs.Order.{bytes_cmp};

use std::cmp::Ordering;

// The number of the four bytes from the place on, the first of them the highest.
fn four_at(bytes: &[u8], place: usize) -> u32
    requires { place + 4 ≤ length bytes.now }
    ensures { result ≡ big_endian 0 (take 4 (drop place bytes.now)) }
{
    u32::from_be_bytes([
        bytes[place],
        bytes[place + 1],
        bytes[place + 2],
        bytes[place + 3],
    ])
}

// The number of the eight bytes from the place on, the first of them the highest.
fn eight_at(bytes: &[u8], place: usize) -> u64
    requires { place + 8 ≤ length bytes.now }
    ensures { result ≡ big_endian 0 (take 8 (drop place bytes.now)) }
{
    u64::from_be_bytes([
        bytes[place],
        bytes[place + 1],
        bytes[place + 2],
        bytes[place + 3],
        bytes[place + 4],
        bytes[place + 5],
        bytes[place + 6],
        bytes[place + 7],
    ])
}

// The order of two lists as std has it, which is slower for a few bytes.
fn slow_order<'a>(first: &'a [u8], second: &'a [u8]) -> Ordering
    ensures { result ≡ bytes_cmp first.now second.now }
{
    Ord::cmp(&first, &second)
}

// The order of two lists of which the shorter has four to eight bytes: its first four decide, or its last four, or the lengths.
fn short_order(first: &[u8], second: &[u8], both: usize) -> Ordering
    requires shorter { both ≡ min (length first.now) (length second.now) }
    requires some { 4 ≤ both }
    requires few { both ≤ 8 }
    ensures { result ≡ bytes_cmp first.now second.now }
{
    let (x, y) = (four_at(first, 0), four_at(second, 0));
    if x != y {
        return x.cmp(&y);
    }
    let (x, y) = (four_at(first, both - 4), four_at(second, both - 4));
    if x != y {
        return x.cmp(&y);
    }
    first.len().cmp(&second.len())
}

// The order of two lists of which the shorter has eight bytes or more: its first eight decide, or the next eight, which may
// begin among the first.
fn long_order(first: &[u8], second: &[u8], both: usize) -> Ordering
    requires shorter { both ≡ min (length first.now) (length second.now) }
    requires some { 8 ≤ both }
    ensures { result ≡ bytes_cmp first.now second.now }
{
    let (x, y) = (eight_at(first, 0), eight_at(second, 0));
    if x != y {
        return x.cmp(&y);
    }
    let next = (both - 8).min(8);
    let (x, y) = (eight_at(first, next), eight_at(second, next));
    if x != y {
        return x.cmp(&y);
    }
    if both <= 16 {
        return first.len().cmp(&second.len());
    }
    slow_order(&first[16..], &second[16..])
}

/// The order of two lists of bytes.
pub(crate) fn order(first: &[u8], second: &[u8]) -> Ordering
    ensures { result ≡ bytes_cmp first.now second.now }
{
    let both = first.len().min(second.len());
    if both >= 8 {
        return long_order(first, second, both);
    }
    if both >= 4 {
        return short_order(first, second, both);
    }
    slow_order(first, second)
}
