// Examples of filling erased symbols, in codeblocks of the three codes.

#![tactic(auto)]

ghost use Rattle.std.specs.Prelude.{◌<◌};

#[cfg(test)]
mod tests {
    use ar4ja::Code;
    use element::{Bit, Form};
    use erasure::FillFault;
    use qc::{Coder, QuasiCyclic, TableCoder};
    use refusal::Refusal;
    use std::alloc::{AllocError, Global};
    use std::test::Fail;

    // The codeblock of a message with many ones.
    fn codeblock(heap: Global, code: Code) -> Result<Vec<Option<Bit>>, AllocError> {
        let mut run = vec![in heap; Bit::Zero; code.whole_len()]?;
        for (i, bit) in run.iter_mut().enumerate().take(1024) {
            let remainder = i % 7;
            *bit = Bit::from(remainder * remainder % 7 < 3);
        }
        let _ = TableCoder.encode(code, &mut run);
        run.iter()
            .take(code.block_len())
            .map(|bit| Some(*bit))
            .collect(heap)
    }

    // Erases so many symbols from a place on, each some places after the one before.
    fn erase(marks: &mut [Option<Bit>], from: usize, step: usize, count: usize)
        requires { 0 < step }
    {
        for mark in marks.iter_mut().skip(from).step_by(step).take(count) {
            *mark = None;
        }
    }

    // Fills with a work buffer as long as a whole block.
    fn fill(
        heap: Global,
        code: Code,
        marks: &mut [Option<Bit>],
        places: &mut [usize],
    ) -> Result<Result<(), FillFault>, AllocError> {
        let mut forms = vec![in heap; Form {
            bit: Bit::One,
            unknowns: 7
        }; code.whole_len()]?;
        Ok(erasure::fill(code, marks, &mut forms, places))
    }

    #[test]
    fn nothing_erased(rt: HostRuntime) -> Result<(), Fail> {
        let code = Code::TwoThirds1024;
        let mut places = [0; 64];
        let mut marks = codeblock(rt.alloc(), code)?;
        assert_eq!(rt; fill(rt.alloc(), code, &mut marks, &mut places)?, Ok(()));
        assert!(rt; marks == codeblock(rt.alloc(), code)?);
        assert!(rt; 100 < marks.len());
        marks[100] = if marks[100] == Some(Bit::One) {
            Some(Bit::Zero)
        } else {
            Some(Bit::One)
        };
        let damaged = marks.clone()?;
        assert_eq!(rt;
            fill(rt.alloc(), code, &mut marks, &mut places)?,
            Err(FillFault::NoneFits)
        );
        assert!(rt; marks == damaged);
        Ok(())
    }

    #[test]
    fn bursts_of_64(rt: HostRuntime) -> Result<(), Fail> {
        for code in Code::ALL {
            for from in [0, 990, code.block_len().saturating_sub(64)] {
                let mut places = [0; 64];
                let mut marks = codeblock(rt.alloc(), code)?;
                erase(&mut marks, from, 1, 64);
                assert_eq!(rt; fill(rt.alloc(), code, &mut marks, &mut places)?, Ok(()));
                assert!(rt; marks == codeblock(rt.alloc(), code)?);
            }
        }
        Ok(())
    }

    #[test]
    fn one_more_than_64(rt: HostRuntime) -> Result<(), Fail> {
        let code = Code::FourFifths1024;
        let mut places = [0; 64];
        let mut marks = codeblock(rt.alloc(), code)?;
        erase(&mut marks, 5, 19, 65);
        let before = marks.clone()?;
        assert_eq!(rt;
            fill(rt.alloc(), code, &mut marks, &mut places)?,
            Err(FillFault::TooManyErased)
        );
        assert!(rt; marks == before);
        Ok(())
    }

    // At rate 4/5 every other place of segments 10 and 18 is a codeword.
    #[test]
    fn a_whole_codeword(rt: HostRuntime) -> Result<(), Fail> {
        let code = Code::FourFifths1024;
        let mut places = [9999; 65];
        let mut marks = codeblock(rt.alloc(), code)?;
        erase(&mut marks, 320, 2, 16);
        erase(&mut marks, 576, 2, 16);
        erase(&mut marks, 0, 1, 32);
        let before = marks.clone()?;
        let answer = fill(rt.alloc(), code, &mut marks, &mut places)?;
        assert_eq!(rt; answer, Err(FillFault::SeveralFit(32)));
        assert_eq!(rt; FillFault::SeveralFit(32).number(), 12);
        assert!(rt; marks == before);
        // By number: two places are looked for at each.
        for k in 0..16 {
            assert!(rt; places.contains(&(320 + 2 * k)) && places.contains(&(576 + 2 * k)));
        }
        assert_eq!(rt; places[32], 9999);
        assert_eq!(rt; places[64], 9999);
        Ok(())
    }

    #[test]
    fn lengths(rt: HostRuntime) -> Result<(), Fail> {
        let code = Code::FourFifths1024;
        let mut marks = codeblock(rt.alloc(), code)?;
        assert_eq!(rt;
            fill(rt.alloc(), code, &mut marks, &mut [0; 63])?,
            Err(FillFault::ShortList)
        );
        marks.push(Some(Bit::Zero))?;
        assert_eq!(rt;
            fill(rt.alloc(), code, &mut marks, &mut [0; 63])?,
            Err(FillFault::WrongLengths)
        );
        Ok(())
    }
}
