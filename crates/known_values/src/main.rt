// Values from outside, each with its verdict: parities that the standard prints, and every line of its printed
// generator tables against the tables that the product holds.

#![tactic(auto)]

mod printed;

use ar4ja::Code;
use element::{Bit, number_of};
use printed::{R_4, R_6, R_8};
use qc::{CheckCoder, Coder, QuasiCyclic, TableCoder};
use std::alloc::{AllocError, Global};
use std::fmt::Write;

// The parity of the message with only bit `set` set, as hex digits.
fn parity_of<K: Coder>(
    heap: Global,
    coder: &K,
    code: Code,
    set: usize,
) -> Result<String, AllocError> {
    let mut block = vec![in heap; Bit::Zero; code.whole_len()]?;
    if let Some(bit) = block.get_mut(set) {
        *bit = Bit::One;
    }
    let _ = coder.encode(code, &mut block);
    let mut text = String::new(heap);
    for bits in block
        .chunks_exact(32)
        .skip(1024 / 32)
        .take(2 * code.group_len() / 32)
    {
        write!(text, "{:08X}", number_of(bits))?;
    }
    Ok(text)
}

fn tell_parity(rt: &HostRuntime, code: Code, set: usize, begins: &str) -> anyhow::Result<()> {
    let by_table = parity_of(rt.alloc(), &TableCoder, code, set)?;
    let by_rows = parity_of(rt.alloc(), &CheckCoder, code, set)?;
    let holds = by_table.starts_with(begins) && by_rows.starts_with(begins);
    let verdict = if holds { "agrees" } else { "DIFFERS" };
    println!(rt;
        "Code {}, only message bit {set} set: the parity begins {begins}: {verdict}.",
        u32::from(code)
    )?;
    Ok(())
}

// First row `k` of the product's generator table, as hex digits.
fn first_row(heap: Global, code: Code, k: usize) -> Result<String, AllocError> {
    let width = code.segment() / 32;
    let mut text = String::new(heap);
    for word in code
        .generator()
        .iter()
        .skip(k.saturating_mul(width))
        .take(width)
    {
        write!(text, "{word:08X}")?;
    }
    Ok(text)
}

// Compares a printed table line by line, and names each line that is otherwise.
fn tell_table(rt: &HostRuntime, name: &str, code: Code, lines: &[&str]) -> anyhow::Result<()> {
    let m = code.segment();
    let mut agree: usize = 0;
    for (k, line) in lines.iter().enumerate() {
        let held = first_row(rt.alloc(), code, k)?;
        if held.as_str() == *line {
            agree = agree.saturating_add(1);
            continue;
        }
        let row = (k / 8).saturating_mul(m).saturating_add(1);
        let column = (k % 8).saturating_mul(m).saturating_add(1025);
        let last = column.saturating_add(m).saturating_sub(1);
        println!(rt;
            "Table {name}, row {row}, columns {column}-{last}: printed {line}, implied {held}."
        )?;
    }
    println!(rt; "Table {name}: {agree} of {} lines agree.", lines.len())?;
    Ok(())
}

fn run(rt: &HostRuntime) -> anyhow::Result<()> {
    tell_parity(rt, Code::Half1024, 0, "CFA794F49FA5A0D88BB31D8FCA7EA8BB")?;
    tell_parity(rt, Code::FourFifths1024, 992, "32FEFCAF")?;
    tell_table(rt, "R-4", Code::Half1024, &R_4)?;
    tell_table(rt, "R-6", Code::TwoThirds1024, &R_6)?;
    tell_table(rt, "R-8", Code::FourFifths1024, &R_8)
}

fn main(rt: HostRuntime) -> anyhow::Result<()> {
    run(&rt)
}
