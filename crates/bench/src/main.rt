// Times one check of a block and one coding of a message by each coder, for each code and element kind, and
// one fill of a block with 64 erased symbols for each code, and a line of a full job sheet. Beside the time of a call stand the blocks checked
// in a second, and the information bits coded. It times only when given a word, since a run without one is
// compared with a kept output.

#![tactic(auto)]

use ar4ja::Code;
use element::{Bit, Element, Form, Lanes};
use erasure::fill;
use qc::{CheckCoder, Coder, QuasiCyclic, TableCoder};
use std::alloc::AllocError;
use std::env;
use std::fmt::Write;
use std::time::Instant;

const CALLS: u64 = 200;

const CODINGS: u64 = 20;

const FILLS: u64 = 10;

// Many short rounds, so that some are not disturbed by what else the machine does.
const ROUNDS: u64 = 400;

const MESSAGE_BITS: u64 = 1024;

// The shortest time of a call, in nanoseconds, over some rounds of so many calls. A round in which a call says no
// does not count; want of memory ends it.
fn best<F: FnMut() -> Result<bool, AllocError> + Drop>(
    rt: &HostRuntime,
    calls: u64,
    mut call: F,
) -> anyhow::Result<u64>
    requires { F.IsAlwaysCallable call }
{
    let mut shortest = u64::MAX;
    for _ in 0..ROUNDS {
        let start = Instant::now(rt)?;
        let mut done: u64 = 0;
        for _ in 0..calls {
            if call()? {
                done = done.saturating_add(1);
            }
        }
        let spent = u64::try_from(start.elapsed(rt)?.as_nanos()).unwrap_or(u64::MAX);
        if done == calls {
            shortest = shortest.min(spent.checked_div(calls).unwrap_or(u64::MAX));
        }
    }
    Ok(shortest)
}

fn best_check<E: Element + Clone>(rt: &HostRuntime, code: Code) -> anyhow::Result<u64> {
    let mut block = vec![in rt.alloc(); E::zero(); code.whole_len()]?;
    best(
        rt,
        CALLS,
        || Ok(matches!(qc::check(code, &mut block), Ok(None))),
    )
}

fn best_coding<K: Coder, E: Element + Clone>(
    rt: &HostRuntime,
    coder: &K,
    code: Code,
) -> anyhow::Result<u64> {
    let mut block = vec![in rt.alloc(); E::zero(); code.whole_len()]?;
    best(rt, CODINGS, || Ok(coder.encode(code, &mut block).is_ok()))
}

fn best_fill(rt: &HostRuntime, code: Code) -> anyhow::Result<u64> {
    let mut marks = vec![in rt.alloc(); Some(Bit::Zero); code.block_len()]?;
    let mut forms = vec![in rt.alloc(); Form::zero(); code.whole_len()]?;
    let mut places = vec![in rt.alloc(); 0usize; 64]?;
    best(rt, FILLS, || {
        for mark in marks.iter_mut().take(64) {
            *mark = None;
        }
        Ok(fill(code, &mut marks, &mut forms, &mut places).is_ok())
    })
}

// Blocks in a second, where a call of so many nanoseconds works so many.
fn blocks_per_second(blocks: u64, ns: u64) -> u64 {
    blocks
        .saturating_mul(1_000_000_000)
        .checked_div(ns)
        .unwrap_or(0)
}

// Information bits in a microsecond, which is Mbit/s.
fn megabits(blocks: u64, ns: u64) -> u64 {
    blocks
        .saturating_mul(MESSAGE_BITS * 1000)
        .checked_div(ns)
        .unwrap_or(0)
}

// How many job lines a sheet of at most 65,536 bytes has room for.
const JOBS: u64 = 247;

// A full sheet of jobs at one code and by one coder.
fn full_sheet(rt: &HostRuntime, code: &str, coder: &str) -> anyhow::Result<String> {
    let mut text = String::new(rt.alloc());
    text.push_str("code,coder,message\n")?;
    for _ in 0..JOBS {
        write!(text, "{code},{coder},")?;
        for _ in 0..256 {
            text.push('5')?;
        }
        text.push('\n')?;
    }
    Ok(text)
}

// The shortest time of a line of a full sheet.
fn best_sheet(rt: &HostRuntime, code: &str, coder: &str) -> anyhow::Result<u64> {
    let text = full_sheet(rt, code, coder)?;
    let sheet = best(rt, 1, || {
        let mut printed = Vec::new(rt.alloc());
        jobsheet::work(text.as_bytes(), &mut printed)?;
        Ok(printed.len() as u64 > 64 * JOBS)
    })?;
    Ok(sheet / JOBS)
}

// Times a kind whose elements hold the same place of so many blocks.
fn time_kind<E: Element + Clone>(rt: &HostRuntime, kind: &str, blocks: u64) -> anyhow::Result<()> {
    for code in Code::ALL {
        let n = u32::from(code);
        let check = best_check::<E>(rt, code)?;
        let rate = blocks_per_second(blocks, check);
        println!(rt; "code {n}, {kind}: check {check} ns, {rate} blocks/s")?;
        let table = best_coding::<TableCoder, E>(rt, &TableCoder, code)?;
        let rate = megabits(blocks, table);
        println!(rt; "code {n}, {kind}: table coder {table} ns, {rate} Mbit/s")?;
        let rows = best_coding::<CheckCoder, E>(rt, &CheckCoder, code)?;
        let rate = megabits(blocks, rows);
        println!(rt; "code {n}, {kind}: check coder {rows} ns, {rate} Mbit/s")?;
    }
    Ok(())
}

fn main(rt: HostRuntime) -> anyhow::Result<()> {
    if env::args(&rt)?.count() < 2 {
        println!(rt; "Give a word to time the calls.")?;
        return Ok(());
    }
    time_kind::<Bit>(&rt, "bits", 1)?;
    time_kind::<Lanes>(&rt, "64 lanes", 64)?;
    time_kind::<Form>(&rt, "forms", 1)?;
    for code in Code::ALL {
        println!(rt;
            "code {}: fill of 64 erased {} ns",
            u32::from(code),
            best_fill(&rt, code)?
        )?;
    }
    for (code, coder) in [
        ("1", "table"),
        ("1", "check"),
        ("3", "table"),
        ("3", "check"),
    ] {
        let line = best_sheet(&rt, code, coder)?;
        let rate = 1_000_000_000 / line.max(1);
        println!(rt; "code {code}, sheet, {coder} coder: {line} ns a line, {rate} lines/s")?;
    }
    Ok(())
}
