use super::*;
use std::test::Fail;

const FIRST: &[u8] = b"vertices 5\n1 0 0 0\n";

const REST: &[u8] =
    b"0 1 0 0\n0 0 1 0\n0 0 0 1\n-1 -1 -1 -1\ndual 5\n-1 -1 -1 -1\n4 -1 -1 -1\n-1 4 -1 -1\n-1 -1 4 -1\n-1 -1 -1 4";

#[test]
fn faults(rt: HostRuntime) -> Result<(), Fail> {
    let bad_line = |line: u32| Some(TextFault::BadLine { line });
    let bad_number = |line: u32| Some(TextFault::BadNumber { line });
    let too_large = |line: u32| Some(TextFault::TooLarge { line });
    let count = |line: u32| Some(TextFault::Count { line });
    let long = |line: u32| Some(TextFault::Long { line });
    let cases: [(&[u8], &[u8], Option<TextFault>); 30] = [
        (FIRST, b"", None),
        (FIRST, b"\n", None),
        (
            b"#\xff\xfe\0\r\r\n\t\nvertices\t00005\r\n +1  -0 000001 +0 \r\n",
            b"\r\n#",
            None,
        ),
        (b"vertices 5\n1 0 0\n", b"", bad_line(2)),
        (b"vertices 5\n1 0 x 0\n", b"", bad_number(2)),
        (b"vertices 5\n1024 0 0 0\n", b"", too_large(2)),
        (b"vertices 65\n1 0 0 0\n", b"", count(1)),
        (FIRST, b"\n0 0 0 0\n", long(13)),
        (FIRST, b"\r\n\n#\n\t\nmore", long(16)),
        (b"vertices 4\n1 0 0 0\n", b"", count(1)),
        (b"vertices -1023\n1 0 0 0\n", b"", count(1)),
        (b"vertices -1024\n1 0 0 0\n", b"", too_large(1)),
        (b"vertices 5\r \n1 0 0 0\n", b"", bad_number(1)),
        (b"vertices +\n1 0 0 0\n", b"", bad_number(1)),
        (b"vertices\x0c5\n1 0 0 0\n", b"", bad_line(1)),
        (b"vertices5\n1 0 0 0\n", b"", bad_line(1)),
        (b"dual 5\n1 0 0 0\n", b"", bad_line(1)),
        (b"vertices 6\n1 0 0 0\n", b"", bad_line(7)),
        (
            b"vertices 5\n18446744073709551617 0 0 0\n",
            b"",
            too_large(2),
        ),
        (
            b"vertices 5\n-9223372036854775808 0 0 0\n",
            b"",
            too_large(2),
        ),
        (b"vertices 5\n- 0 0 0\n", b"", bad_number(2)),
        (b"vertices 5\n+-1 0 0 0\n", b"", bad_number(2)),
        (b"vertices 5\n\xef\xbc\x91 0 0 0\n", b"", bad_number(2)),
        (b"vertices 5\n1 0\r0 0 0\n", b"", bad_number(2)),
        (b"vertices 5\n1024 x 0 0\n", b"", bad_number(2)),
        (b"vertices 5\n\r \n1 0 0 0\n", b"", bad_line(2)),
        (b"vertices 5\n# 1 0 0 0\n", b"", bad_line(7)),
        (b"\r\n#\r\nvertices 5\r\n1 0 0 2000\r\n", b"", too_large(4)),
        (b"vertices 5\n1 0 0 0\n0 0 x 0\n", b"", bad_number(3)),
        (b"vertices 5\n", b"", bad_line(6)),
    ];
    for (first, last, fault) in cases {
        let mut text = Vec::from_slice(rt.alloc(), first)?;
        text.extend_from_slice(REST)?;
        text.extend_from_slice(last)?;
        assert!(rt; text.len() < 1000);
        assert_eq!(rt; read_pair(rt.alloc(), &text).err(), fault, "{first:?}");
    }
    Ok(())
}

#[test]
fn short(rt: HostRuntime) {
    for text in [b"".as_slice(), b"# \n\n", FIRST] {
        assert!(rt; text.len() < 1000);
        assert_eq!(rt; read_pair(rt.alloc(), text).err(), Some(TextFault::Short));
    }
}

#[test]
fn long_numbers(rt: HostRuntime) -> Result<(), Fail> {
    for (digit, fault) in [(b'0', None), (b'7', Some(TextFault::TooLarge { line: 2 }))] {
        let mut text = Vec::from_slice(rt.alloc(), b"vertices 5\n")?;
        for _ in 0..4999 {
            text.push(digit)?;
        }
        text.extend_from_slice(b"1 0 0 0\n")?;
        text.extend_from_slice(REST)?;
        assert!(rt; text.len() < 10000);
        assert_eq!(rt; read_pair(rt.alloc(), &text).err(), fault);
    }
    Ok(())
}

#[test]
fn round_trip(rt: HostRuntime) -> Result<(), Fail> {
    let mut text = Vec::from_slice(rt.alloc(), FIRST)?;
    text.extend_from_slice(REST)?;
    text.push(b'\n')?;
    assert!(rt; text.len() < 1000);
    let pair = read_pair(rt.alloc(), &text)?;
    let mut out = Vec::from_slice(rt.alloc(), b"ntfe 1\n")?;
    write_pair(rt.alloc(), &pair, &mut out)?;
    let mut wanted = Vec::from_slice(rt.alloc(), b"ntfe 1\n")?;
    wanted.extend_from_slice(&text)?;
    assert_eq!(rt; out.as_slice(), wanted.as_slice());
    Ok(())
}

#[test]
fn cut_at_output(rt: HostRuntime) -> Result<(), Fail> {
    let Some((before, rest)) = split_at_output(b"output 5\n\toutput \r\nntfe 1\noutput\n") else {
        return Err(Fail::new("a line `output`"));
    };
    assert_eq!(rt; before, b"output 5\n".as_slice());
    assert_eq!(rt; rest, b"ntfe 1\noutput\n".as_slice());
    assert!(rt; split_at_output(b"outputs\n# output\n").is_none());
    Ok(())
}
