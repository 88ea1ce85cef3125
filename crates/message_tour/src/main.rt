// One real task from beginning to end, told in plain sentences. Some steps are told by the walkthrough too, in code of
// its own: shared steps would be public functions, and no contract can state what they print; the helpers that print
// nothing would be public for programs alone.

#![tactic(auto)]

mod blocks;
mod coding;
mod filling;
mod framing;
mod sending;
mod sheets;

fn run(rt: &HostRuntime) -> anyhow::Result<()> {
    coding::check_printed_codeblock(rt)?;
    framing::show_pile(rt)?;
    coding::code_both_ways(rt)?;
    sending::send_and_read_back(rt)?;
    filling::fill_erased(rt)?;
    sheets::work_sheet(rt)
}

fn main(rt: HostRuntime) -> anyhow::Result<()> {
    run(&rt)
}
