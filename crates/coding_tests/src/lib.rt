// Examples of naming codes, checking and coding, at the edges of what is refused.

#![tactic(auto)]

#[cfg(test)]
mod tests {
    use ar4ja::{Code, CodeFault};
    use element::Bit;
    use qc::{CheckCoder, Coder, QuasiCyclic, RunFault, TableCoder};
    use refusal::Refusal;
    use std::alloc::{AllocError, Global};
    use std::test::Fail;

    #[test]
    fn codes_are_one_to_three(rt: HostRuntime) {
        assert_eq!(rt; Code::try_from(0), Err(CodeFault::Unknown));
        assert_eq!(rt; Code::try_from(1), Ok(Code::Half1024));
        assert_eq!(rt; Code::try_from(3), Ok(Code::FourFifths1024));
        assert_eq!(rt; Code::try_from(4), Err(CodeFault::Unknown));
        assert_eq!(rt; Code::try_from(u32::MAX), Err(CodeFault::Unknown));
        assert_eq!(rt; CodeFault::Unknown.number(), 1);
        assert_eq!(rt; RunFault::TooShort.number(), 8);
    }

    // A run of ones.
    fn ones(heap: Global, n: usize) -> Result<Vec<Bit>, AllocError> {
        vec![in heap; Bit::One; n]
    }

    #[test]
    fn short_runs_are_refused_unchanged(rt: HostRuntime) -> Result<(), Fail> {
        for code in Code::ALL {
            for n in [0, code.whole_len().saturating_sub(1)] {
                let mut run = ones(rt.alloc(), n)?;
                assert_eq!(rt; qc::check(code, &mut run), Err(RunFault::TooShort));
                assert_eq!(rt; TableCoder.encode(code, &mut run), Err(RunFault::TooShort));
                assert_eq!(rt; CheckCoder.encode(code, &mut run), Err(RunFault::TooShort));
                assert!(rt; run == ones(rt.alloc(), n)?);
            }
        }
        Ok(())
    }

    #[test]
    fn nothing_past_a_whole_block_is_touched(rt: HostRuntime) -> Result<(), Fail> {
        for code in Code::ALL {
            for more in [0, 1] {
                let mut run = ones(rt.alloc(), code.whole_len().saturating_add(more))?;
                assert_eq!(rt; TableCoder.encode(code, &mut run), Ok(()));
                assert_eq!(rt; qc::check(code, &mut run), Ok(None));
                assert_eq!(rt; run.iter().skip(code.whole_len()).count(), more);
                for bit in run.iter().skip(code.whole_len()) {
                    assert_eq!(rt; *bit, Bit::One);
                }
            }
        }
        Ok(())
    }

    #[test]
    fn the_worked_values_are_counted(rt: HostRuntime) {
        assert_eq!(rt; ar4ja::worked_values(), 24);
    }
}
