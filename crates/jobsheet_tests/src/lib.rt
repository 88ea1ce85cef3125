// Examples of job sheets: every refusal at its edge, and good lines in every code and order.

#![tactic(auto)]

#[cfg(test)]
mod tests {
    use jobsheet::{ROOM, Sheet, SheetFault, work};
    use refusal::Refusal;
    use std::alloc::{AllocError, Global};
    use std::process::Abort;
    use std::test::Fail;

    // What is printed for a sheet is the heading and these lines.
    fn gives(rt: &impl Abort, heap: Global, sheet: &[u8], lines: &[u8]) -> Result<(), Fail> {
        let mut all = b"line,code,coder,parity\n".to_vec(heap)?;
        all.extend_from_slice(lines)?;
        let mut printed = Vec::new(heap);
        work(sheet, &mut printed)?;
        assert!(rt; printed.as_slice() == all.as_slice());
        Ok(())
    }

    // A text, so many bytes, and a text behind them.
    fn around(
        heap: Global,
        before: &[u8],
        byte: u8,
        count: usize,
        after: &[u8],
    ) -> Result<Vec<u8>, AllocError> {
        let mut all = before.to_vec(heap)?;
        all.extend(std::iter::repeat_n(byte, count))?;
        all.extend_from_slice(after)?;
        Ok(all)
    }

    #[test]
    fn refused_values(rt: HostRuntime) -> Result<(), Fail> {
        let heap = rt.alloc();
        gives(
            &rt,
            heap,
            b"code,coder,message\n4,table,00\n3,hash,00\n0,table,\n,table,\n11,table,\nA,table,\n 1,table,\n2,Table,\n2,check ,\n",
            b"2,refused,1,1\n3,refused,2,22\n4,refused,1,1\n5,refused,1,22\n6,refused,1,22\n7,refused,1,22\n8,refused,1,22\n9,refused,2,22\n10,refused,2,22\n",
        )?;
        gives(
            &rt,
            heap,
            b"code,coder,message\n1,check,\n1,check,0a\n1,check,0G\n1,check,0/\n1,check,0:\n1,check,0@\n1,check,00\r\n\n1,check\n1,check,0,0\n,,\n",
            b"2,refused,3,23\n3,refused,3,22\n4,refused,3,22\n5,refused,3,22\n6,refused,3,22\n7,refused,3,22\n8,refused,3,22\n9,refused,0,21\n10,refused,0,21\n11,refused,0,21\n12,refused,1,22\n",
        )
    }

    #[test]
    fn orders_of_names(rt: HostRuntime) -> Result<(), Fail> {
        let heap = rt.alloc();
        gives(
            &rt,
            heap,
            b"code,coder,message\n1,check,F\n",
            b"2,refused,3,23\n",
        )?;
        gives(
            &rt,
            heap,
            b"code,message,coder\n1,F,check\n",
            b"2,refused,2,23\n",
        )?;
        gives(
            &rt,
            heap,
            b"coder,code,message\ncheck,1,F\n",
            b"2,refused,3,23\n",
        )?;
        gives(
            &rt,
            heap,
            b"coder,message,code\ncheck,F,1\n",
            b"2,refused,2,23\n",
        )?;
        gives(
            &rt,
            heap,
            b"message,code,coder\nF,1,check\n",
            b"2,refused,1,23\n",
        )?;
        gives(
            &rt,
            heap,
            b"message,coder,code\nF,check,1\n",
            b"2,refused,1,23\n",
        )
    }

    #[test]
    fn refused_names(rt: HostRuntime) -> Result<(), Fail> {
        let heap = rt.alloc();
        gives(&rt, heap, b"", b"1,refused,0,20\n")?;
        gives(&rt, heap, b"\n", b"1,refused,0,20\n")?;
        gives(&rt, heap, b"code,coder\n", b"1,refused,0,20\n")?;
        gives(&rt, heap, b"code,coder,message,\n", b"1,refused,0,20\n")?;
        gives(
            &rt,
            heap,
            b"code,coder,code\n1,table,00\n",
            b"1,refused,0,20\n",
        )?;
        gives(&rt, heap, b"Code,coder,message\n", b"1,refused,0,20\n")?;
        gives(
            &rt,
            heap,
            b"code,coder,message\r\n1,table,00\r\n",
            b"1,refused,0,20\n",
        )?;
        gives(
            &rt,
            heap,
            b"\xef\xbb\xbfcode,coder,message\n",
            b"1,refused,0,20\n",
        )
    }

    #[test]
    fn ends_of_lines(rt: HostRuntime) -> Result<(), Fail> {
        let heap = rt.alloc();
        gives(&rt, heap, b"code,coder,message", b"")?;
        gives(&rt, heap, b"code,coder,message\n", b"")?;
        gives(&rt, heap, b"code,coder,message\n\n", b"2,refused,0,21\n")?;
        gives(&rt, heap, b"code,coder,message\n9,,", b"2,refused,1,1\n")?;
        gives(&rt, heap, b"code,coder,message\n9,,\n", b"2,refused,1,1\n")?;
        gives(
            &rt,
            heap,
            b"code,coder,message\n\0,\xff,\n\xfe",
            b"2,refused,1,22\n3,refused,0,21\n",
        )
    }

    // A message of zeros has a parity of zeros, and another number of digits is refused.
    #[test]
    fn lengths_of_messages(rt: HostRuntime) -> Result<(), Fail> {
        let heap = rt.alloc();
        let names = b"code,coder,message\n";
        for (code, digits) in [(b'1', 256), (b'2', 128), (b'3', 64)] {
            for coder in [&b",table,"[..], &b",check,"[..]] {
                let mut start = names.to_vec(heap)?;
                start.push(code)?;
                start.extend_from_slice(coder)?;
                let mut answer = b"2,".to_vec(heap)?;
                answer.push(code)?;
                answer.extend_from_slice(coder)?;
                let zeros = around(heap, &answer, b'0', digits, b"\n")?;
                gives(&rt, heap, &around(heap, &start, b'0', 256, b"")?, &zeros)?;
                gives(
                    &rt,
                    heap,
                    &around(heap, &start, b'0', 255, b"\n")?,
                    b"2,refused,3,23\n",
                )?;
                gives(
                    &rt,
                    heap,
                    &around(heap, &start, b'0', 257, b"\n")?,
                    b"2,refused,3,23\n",
                )?;
            }
        }
        Ok(())
    }

    #[test]
    fn lengths_of_sheets(rt: HostRuntime) -> Result<(), Fail> {
        let heap = rt.alloc();
        let full = around(heap, b"code,coder,message\n", b'\n', 65517, b"")?;
        assert_eq!(rt; full.len(), 65536);
        let mut printed = Vec::new(heap);
        work(&full, &mut printed)?;
        assert!(rt;
            printed
                .as_slice()
                .ends_with(b"\n65517,refused,0,21\n65518,refused,0,21\n")
        );
        let over = around(heap, &full, b'\n', 1, b"")?;
        gives(&rt, heap, &over, b"0,refused,0,24\n")
    }

    // The number of a fault; 0 where there is none.
    fn number(fault: Option<SheetFault>) -> u32 {
        fault.map_or(0, |f| f.number())
    }

    #[test]
    fn rooms(rt: HostRuntime) {
        let text = b"code,coder,message\n5,,\n6,,";
        let mut out = [b'.'; ROOM];
        let mut small = [b'.'; 271];
        let (mut sheet, opened) = Sheet::open(text, &mut small);
        assert!(rt; opened.count == 0 && number(opened.fault) == 25 && small == [b'.'; 271]);
        assert!(rt; !sheet.has_line() && number(sheet.job_line(&mut out).fault) == 26);
        let (mut sheet, opened) = Sheet::open(text, &mut out);
        assert!(rt; opened.count == 23 && number(opened.fault) == 0 && out[23] == b'.');
        assert!(rt; number(sheet.job_line(&mut small).fault) == 25 && small == [b'.'; 271]);
        for line in [b'2', b'3'] {
            let worked = sheet.job_line(&mut out);
            assert!(rt; worked.count == 14 && number(worked.fault) == 1 && out[0] == line);
        }
        assert!(rt; !sheet.has_line() && number(sheet.job_line(&mut out).fault) == 26);
    }
}
