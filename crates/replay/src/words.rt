//! Stored words, read, compared and turned into coordinates.
ghost use Rattle.std.specs.Prelude.{◌≡◌, ◌≤◌, from_bits, length};
ghost use Rattle.std.specs.Float.{binary64};

use records::wire::{ID, read_ids};
use std::io::{Read, Stdin};

/// A stored list has at most so many words.
pub const LONGEST: usize = 4200;

/// The next words of the input; false where the input ends before.
pub fn read_words(stdin: Stdin, words: &mut [u64]) -> bool
    requires { length words.old ≤ 4200 }
{
    let mut bytes = [0u8; 33600];
    let bytes = &mut bytes[..ID * words.len()];
    let got = read_full(stdin, bytes);
    let outcome = read_ids(bytes, words);
    got == bytes.len() && outcome.is_ok()
}

/// Reads until the bytes are full, the input ends or a read fails, and answers how many came. The library's
/// `read_exact` doesn't say how many, and a head that is cut short is a call too.
pub fn read_full(mut stdin: Stdin, bytes: &mut [u8]) -> usize
    ensures { result ≤ length bytes.new }
{
    let mut done = 0;
    // Each read says how far it comes, so that nothing is counted here for a `for` to count.
    while done < bytes.len() {
        match stdin.read(&mut bytes[done..]) {
            Ok(0) | Err(_) => return done,
            Ok(got) => done += got,
        }
    }
    done
}

/// Whether the words that are stored next are these.
pub fn holds(stdin: Stdin, held: &[u64]) -> bool
    requires { length held.now ≤ 4200 }
{
    let mut stored = [0u64; LONGEST];
    let stored = &mut stored[..held.len()];
    read_words(stdin, stored) && *held == *stored
}

/// What entry i of a lent output holds before a call: this number and i.
const UNTOUCHED: u64 = 0x5a5a_0000_0000_0000;

pub fn fill(words: &mut [u64]) {
    for (i, word) in words.iter_mut().enumerate() {
        *word = UNTOUCHED | i as u64;
    }
}

pub fn of_patterns(patterns: &[u64], points: &mut [f64]) {
    for (point, pattern) in points.iter_mut().zip(patterns) {
        *point = of_pattern(*pattern);
    }
}

/// The float of a bit pattern; for every pattern of not-a-number the same one, since the operations
/// tell none of these apart.
fn of_pattern(pattern: u64) -> f64
    ensures { result ≡ from_bits binary64 pattern }
{
    if 0x7ff0_0000_0000_0000 < pattern % 0x8000_0000_0000_0000 {
        0.0 / 0.0
    } else {
        f64::from_bits(pattern)
    }
}
