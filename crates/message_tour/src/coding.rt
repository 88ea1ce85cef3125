// A codeblock checked, and a message coded both ways.
use crate::blocks::{coded_block, printed_codeblock, set_bit, word_at};
use ar4ja::Code;
use element::Bit;
use qc::{CheckCoder, QuasiCyclic, TableCoder};

fn tell(rt: &impl Print, code: Code, block: &mut [Bit]) -> anyhow::Result<()> {
    match qc::check(code, block) {
        Ok(None) => println!(rt;
            "  All rows of the parity-check matrix are zero: the block passes."
        )?,
        Ok(Some(row)) => println!(rt;
            "  The block fails: row {row} is the lowest that is not zero."
        )?,
        Err(_) => println!(rt; "  The buffer is shorter than a whole block.")?,
    }
    Ok(())
}

pub(crate) fn check_printed_codeblock(rt: &HostRuntime) -> anyhow::Result<()> {
    let code = Code::FourFifths1024;
    let mut block = printed_codeblock(rt.alloc())?;
    let sent = code.block_len();
    println!(rt;
        "The codeblock of rate 4/5 whose message has only bit 992 set, with the parity that the standard prints:"
    )?;
    println!(rt;
        "  {sent} bits are sent, and {} more are punctured and worked out again.",
        code.group_len()
    )?;
    tell(rt, code, &mut block)?;
    println!(rt; "The same block with its bit 1000 damaged:")?;
    set_bit(&mut block, 1000);
    tell(rt, code, &mut block)
}

// Codes message 0 both ways.
pub(crate) fn code_both_ways(rt: &HostRuntime) -> anyhow::Result<()> {
    let code = Code::TwoThirds1024;
    let by_table = coded_block(rt.alloc(), code, &TableCoder)?;
    let mut by_rows = coded_block(rt.alloc(), code, &CheckCoder)?;
    println!(rt;
        "The message of the bytes 0 to 127, coded at rate 2/3 by the generator table and by the rows:"
    )?;
    let begins = word_at(&by_table, 1024);
    let ends = word_at(&by_table, 1504);
    println!(rt; "  the parity begins {begins:08X} and ends {ends:08X};")?;
    let verdict = if by_table == by_rows {
        "the same"
    } else {
        "NOT the same"
    };
    println!(rt; "  the two coders made {verdict} block, punctured bits and all.")?;
    tell(rt, code, &mut by_rows)
}
