//! Replays the stored calls on standard input: compares what each operation answers, and all that
//! its lent outputs then hold, with what is stored. The last line has the sums.
#![tactic(auto)]

ghost use Rattle.std.specs.Prelude.{◌<◌};

use std::io::{Stdin, Stdout};

mod call;
mod count;
mod head;
mod words;

use call::Operation;
use count::Count;
use head::Head;
use words::{LONGEST, fill, holds, of_patterns, read_full, read_words};

fn main(rt: HostRuntime) {
    let mut counts = [Count::default(); 8];
    replay(rt.stdin(), &mut counts);
    report(rt.stdout(), &counts);
}

/// Each stored call, counted at the number of its operation, or at 0 if it has none. A proved loop has to end,
/// and nothing says that the input does, so the calls are counted up to a number that no run reaches.
fn replay(stdin: Stdin, counts: &mut [Count; 8]) {
    for _ in 0..u64::MAX {
        let mut bytes = [0u8; 32];
        if read_full(stdin, &mut bytes) == 0 {
            return;
        }
        let head = Head::of(&bytes);
        counts[place(head.operation)].enter(repeats(stdin, head));
    }
}

/// The number of an operation, 0 for none.
fn place(operation: Option<Operation>) -> usize
    ensures { result < 8 }
{
    match operation {
        Some(operation) => operation as usize,
        None => 0,
    }
}

/// Whether the operation gives again what is stored. A call that is cut short is compared as far as it comes.
/// Fixed memory: each list has the room of the longest.
fn repeats(stdin: Stdin, head: Head) -> bool {
    let mut ids = [0u64; LONGEST];
    let mut patterns = [0u64; LONGEST];
    let mut points = [0.0; LONGEST];
    let mut out = [0u64; LONGEST];
    let mut ends = [0u64; LONGEST];
    let ids = &mut ids[..head.ids];
    let patterns = &mut patterns[..head.points];
    let points = &mut points[..head.points];
    let out = &mut out[..head.out];
    let ends = &mut ends[..head.ends];
    let ids_read = read_words(stdin, ids);
    let points_read = read_words(stdin, patterns);
    of_patterns(patterns, points);
    fill(out);
    fill(ends);
    let answer = head.call(ids, points, out, ends);
    let same_out = holds(stdin, out);
    let same_ends = holds(stdin, ends);
    ids_read && points_read && answer == Some(head.answer) && same_out && same_ends
}

/// The names stand in the order of the numbers that `place` gives. A line that the output does not take keeps no later
/// one from being tried.
fn report(stdout: Stdout, counts: &[Count; 8]) {
    let names = [
        "no operation",
        "subentities",
        "subentities_of",
        "to_poly",
        "from_poly",
        "to_simplexes",
        "reorient",
        "split_block",
    ];
    let mut all = Count::default();
    for (name, count) in names.iter().zip(counts) {
        let _ = println!(stdout; "{name:<14} {count}");
        all = all.and(*count);
    }
    let _ = println!(stdout; "{:<14} {all}", "replay");
}
