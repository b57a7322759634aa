//! A record file that is cut at every byte.
use crate::listings::expect_file;
use std::test::Fail;

// An addition of 21 bytes, a deletion of 8, the last record of 6.
const FILE: &[u8] =
    b"LA\0\0\0\x06\x02\0\x01\0\0\0\x01\xff\xff\xff\xfe\0\0\0\x03LD\0\x01\0\0\0\x05LE\0\0\0\x01";

const IN_FIRST: &str = "ending number=29 place=1\n";

const IN_SECOND: &str = "place=1 6 1 -2 0 3 0\nending number=29 place=2\n";

const IN_LAST: &str = "place=1 6 1 -2 0 3 0\nplace=2 0 d 5 0\nending number=29 place=3\n";

const WHOLE: &str = "place=1 6 1 -2 0 3 0\nplace=2 0 d 5 0\nending number=20 place=0\n";

// The list of the first `n` bytes.
fn cut_list(n: usize) -> &'static str {
    if n < 21 {
        IN_FIRST
    } else if n < 29 {
        IN_SECOND
    } else if n < 35 {
        IN_LAST
    } else {
        WHOLE
    }
}

#[test]
fn cuts(rt: HostRuntime) -> Result<(), Fail> {
    let file = FILE;
    assert!(rt; file.len() == 35);
    for n in 0..36 {
        assert!(rt; n <= file.len());
        expect_file(&rt, n, rt.alloc(), &file[0..n], cut_list(n))?;
    }
    Ok(())
}
