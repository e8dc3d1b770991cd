// Reads one case from standard input, and prints the answer and its rows.
#![tactic(auto)]

use cases::input::{read_case, read_full};

// A book and a message of 65,536 bytes, the six bytes between them, and one more, by which an input that is too long is known.
const LONGEST: usize = 131079;

// 1,638 rows.
const WORDS: usize = 8192;

fn say(rt: &impl Print, s: &[u8]) {
    let mut table = [0u64; WORDS];
    match read_case(s, &mut table) {
        Some(a) => {
            cases::lines::answer(rt, a, &table);
        }
        None => {
            let _ = rt.write_all(b"input\n");
        }
    }
}

fn main(rt: HostRuntime) {
    let mut input = [0u8; LONGEST];
    let n = read_full(&mut rt.stdin(), &mut input);
    if n == 0 {
        let _ = rt.stderr().write_all(
            b"rows: on standard input the book, root u16, message length u32, message\n",
        );
    }
    say(&rt, &input[..n]);
}
