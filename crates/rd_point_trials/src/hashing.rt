//! Texts that end in the constant by which a hash of fixed seed multiplies: written whole, they would all have one hash.

use rd_base::{Text, Value};
use rd_points::hash_point;
use std::alloc::Global;
use std::hash::{FoldHasher, Hash, Hasher};
use std::process::Abort;

// The constant's bytes, the lowest first.
const CONSTANT: [u8; 8] = [0x15, 0x7C, 0x4A, 0x7F, 0xB9, 0x79, 0x37, 0x9E];

// A text of two parts: a number, and the constant.
fn chosen(alloc: Global, number: u8) -> Option<Text> {
    let mut bytes = [b'0'; 16];
    bytes[7] = number;
    bytes[8..].copy_from_slice(&CONSTANT);
    Text::from_bytes(alloc, &bytes).ok()
}

fn hash_of(text: &Text) -> u64 {
    let mut state = FoldHasher::default();
    text.hash(&mut state);
    state.finish()
}

fn hash_of_point(value: &Value) -> u64 {
    let mut state = FoldHasher::default();
    hash_point(0, 0, Some(value), &mut state);
    state.finish()
}

// The bytes of a text, written whole.
fn hash_of_whole(text: &Text) -> u64 {
    let mut state = FoldHasher::default();
    state.write(text.items());
    state.finish()
}

// How many of the numbers are equal to the first.
fn like_first(hashes: &[u64]) -> usize {
    hashes
        .iter()
        .filter(|hash| hashes.first() == Some(*hash))
        .count()
}

#[test]
fn an_end_decides_nothing(rt: HostRuntime) {
    let mut whole = Vec::new(rt.alloc());
    let mut texts = Vec::new(rt.alloc());
    let mut points = Vec::new(rt.alloc());
    for number in 0..16u8 {
        let Some(text) = chosen(rt.alloc(), number) else {
            panic!(rt; "there is memory");
        };
        let taken = whole.push(hash_of_whole(&text)).is_ok() && texts.push(hash_of(&text)).is_ok();
        assert!(rt; taken && points.push(hash_of_point(&Value::Text(text))).is_ok());
    }
    assert!(rt; like_first(&whole) == 16 && like_first(&texts) == 1 && like_first(&points) == 1);
}
