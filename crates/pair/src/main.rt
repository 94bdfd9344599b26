// The pair program: compares two records of its standard input and prints the tiling. What is printed for an input is said
// by report's contract, which asks for the lengths of both buffers. That main hands the bytes on is not proved: no contract
// can say which bytes a read or a write moves. A read that fails ends the input, and a write that fails goes unreported: the
// program ends as it does otherwise.
#![tactic(auto)]

use report::{INPUT_BYTES, REPORT_BYTES};

// The descriptors of standard input and standard output.
const STDIN: i32 = 0;

const STDOUT: i32 = 1;

fn main() {
    let mut input = [0u8; INPUT_BYTES];
    let got = io::read_full(STDIN, &mut input);
    let mut output = [0u8; REPORT_BYTES];
    let count = report::report(&input, got, &mut output);
    io::write_all(STDOUT, &output[..count]);
}
