//! The text of the simplex, written and read.
ghost use Rattle.std.specs.Prelude.{◌≡◌, length, IfOk};

use crate::{EarlierFault, TextForm, read_earlier, write_class, write_end, write_head};
use io_edge::MemorySink;
use ntfe_model::{Choice, Heights, List, Pair, Push};
use pair_text::read_pair;
use std::alloc::Global;
use std::test::Fail;

const HEAD: &[u8] =
    b"ntfe 1\nvertices 5\n1 0 0 0\n0 1 0 0\n0 0 1 0\n0 0 0 1\n-1 -1 -1 -1\ndual 5\n-1 -1 -1 -1\n4 -1 -1 -1\n-1 4 -1 -1\n-1 -1 4 -1\n-1 -1 -1 4\npush up\n";

const CLASS: &[u8] = b"class 0 0 0 0 0 0 0 0 0 0\n";

fn simplex(alloc: Global) -> Result<Pair, Fail> {
    match read_pair(alloc, &HEAD[7..125]) {
        Ok(pair) => Ok(pair),
        Err(_) => Err(Fail::new("the pair")),
    }
}

fn form(alloc: Global) -> Result<TextForm, Fail> {
    Ok(TextForm {
        pair: simplex(alloc)?,
        push: Push::Up,
        stars: false,
        points: 5,
        faces: 10,
        kept: 0,
    })
}

/// How many bytes and blocks are kept of three pieces, one after another.
fn kept(
    alloc: Global,
    first: &[u8],
    second: &[u8],
    third: &[u8],
) -> Result<Result<(u64, u64), EarlierFault>, Fail> {
    let mut bytes = Vec::from_slice(alloc, first)?;
    bytes.extend_from_slice(second)?;
    bytes.extend_from_slice(third)?;
    if bytes.len() > 4096 {
        return Err(Fail::new("a long text"));
    }
    match read_earlier(alloc, &form(alloc)?, &bytes) {
        Ok(earlier) => Ok(Ok((earlier.kept, earlier.count))),
        Err(fault) => Ok(Err(fault)),
    }
}

#[test]
fn lines_in_place(rt: HostRuntime) -> Result<(), Fail> {
    let alloc = rt.alloc();
    assert_eq!(rt; kept(alloc, b"", b"", b"")?, Ok((0, 0)));
    assert_eq!(rt; kept(alloc, b"ntfe 1\nvert", b"", b"")?, Ok((0, 0)));
    assert_eq!(rt; kept(alloc, HEAD, b"class 0", b"")?, Ok((133, 0)));
    assert_eq!(rt;
        kept(alloc, HEAD, CLASS, b"heights 0 0 0 0 0")?,
        Ok((133, 0))
    );
    Ok(())
}

#[test]
fn last_lines(rt: HostRuntime) -> Result<(), Fail> {
    let alloc = rt.alloc();
    assert_eq!(rt;
        kept(alloc, HEAD, CLASS, b"heights 0 0 0 0 0\nend 1\n")?,
        Ok((177, 1))
    );
    let wrong = kept(alloc, HEAD, CLASS, b"heights 0 0 0 0 0\nend 2\n")?;
    assert_eq!(rt; wrong, Err(EarlierFault::Body { line: 17 }));
    let more = kept(alloc, HEAD, CLASS, b"heights 0 0 0 0 0\nend 1\nend 1\n")?;
    assert_eq!(rt; more, Err(EarlierFault::Body { line: 18 }));
    Ok(())
}

#[test]
fn wrong_heads(rt: HostRuntime) -> Result<(), Fail> {
    let alloc = rt.alloc();
    let second = kept(alloc, b"ntfe 1\nvertices 6\n", b"", b"")?;
    assert_eq!(rt; second, Err(EarlierFault::Head { line: 2 }));
    let last = kept(alloc, &HEAD[..125], b"class 0 0\n", b"")?;
    assert_eq!(rt; last, Err(EarlierFault::Head { line: 14 }));
    Ok(())
}

#[test]
fn wrong_numbers(rt: HostRuntime) -> Result<(), Fail> {
    let alloc = rt.alloc();
    let fifteen = Err(EarlierFault::Body { line: 15 });
    let sixteen = Err(EarlierFault::Body { line: 16 });
    assert_eq!(rt; kept(alloc, HEAD, b"class 0 0\n", b"")?, fifteen);
    assert_eq!(rt;
        kept(alloc, HEAD, b"class 00 0 0 0 0 0 0 0 0 0\n", b"")?,
        fifteen
    );
    assert_eq!(rt;
        kept(alloc, HEAD, b"class 1048576 0 0 0 0 0 0 0 0 0\n", b"")?,
        fifteen
    );
    assert_eq!(rt;
        kept(alloc, HEAD, CLASS, b"heights 0 0 0 0 4611686018427387904\n")?,
        sixteen
    );
    assert_eq!(rt; kept(alloc, HEAD, CLASS, b"heights 0 0 0 0 -0\n")?, sixteen);
    Ok(())
}

/// The choice and the heights of the simplex's one class.
fn class(alloc: Global) -> Result<(Choice, Heights), Fail>
    ensures { IfOk result (λ p. (length p.0 ≡ 10) × (length p.1 ≡ 5)) }
{
    let items = vec![in alloc; 0; 10]?;
    let heights = vec![in alloc; 0; 5]?;
    Ok((
        Choice(List::from_vec(items)),
        Heights(List::from_vec(heights)),
    ))
}

/// The whole text of the simplex.
fn written(alloc: Global) -> Result<MemorySink, Fail> {
    let form = form(alloc)?;
    let (choice, heights) = class(alloc)?;
    let mut sink = MemorySink::new(alloc, 4096, Vec::new(alloc))?;
    if form.stars || form.faces != 10 || form.points != 5 {
        return Err(Fail::new("the form"));
    }
    if write_head(alloc, &form, &mut sink).is_err()
        || write_class(alloc, &form, &choice, &heights, None, &mut sink).is_err()
        || write_end(alloc, false, 1, &mut sink).is_err()
    {
        return Err(Fail::new("a sink with room"));
    }
    Ok(sink)
}

#[test]
fn whole_text(rt: HostRuntime) -> Result<(), Fail> {
    let alloc = rt.alloc();
    let sink = written(alloc)?;
    assert_eq!(rt; sink.bytes().len(), 183);
    assert_eq!(rt; kept(alloc, sink.bytes(), b"", b"")?, Ok((177, 1)));
    Ok(())
}
