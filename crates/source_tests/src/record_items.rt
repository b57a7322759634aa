//! Record files without a fault.
use crate::listings::{Case, expect_files};
use std::test::Fail;

static FILES: [Case; 19] = [
    Case(b"LE\0\0\0\0", "ending number=20 place=0\n"),
    Case(
        b"LA\0\0\0\x06\x01\0\x02\0\0\0\x01\0\0\0\x01\0\0\0\x02LE\0\0\0\x01",
        "place=1 6 1 0 1 2 0\nending number=20 place=0\n",
    ),
    Case(
        b"LD\0\x01\0\0\0\x05LE\0\0\0\0",
        "place=1 0 d 5 0\nending number=20 place=0\n",
    ),
    Case(
        b"LA\0\0\0\x06\x01\0\x02\0\0\0\x01\0\0\0\x01\0\0\0\x02LD\0\x01\0\0\0\x05LE\0\0\0\x01",
        "place=1 6 1 0 1 2 0\nplace=2 0 d 5 0\nending number=20 place=0\n",
    ),
    Case(
        b"LD\0\x01\0\0\0\x05LA\0\0\0\x06\x01\0\x02\0\0\0\x01\0\0\0\x01\0\0\0\x02LE\0\0\0\x01",
        "place=1 0 d 5 0\nplace=2 6 1 0 1 2 0\nending number=20 place=0\n",
    ),
    Case(
        b"LA\0\0\0\x06\x01\0\x02\0\0\0\x01\0\0\0\x01\0\0\0\x02LA\0\0\0\x06\x01\0\x02\0\0\0\x01\0\0\0\x01\0\0\0\x02LA\0\0\0\x06\x01\0\x02\0\0\0\x01\0\0\0\x01\0\0\0\x02LE\0\0\0\x03",
        "place=1 6 1 0 1 2 0\nplace=2 6 1 0 1 2 0\nplace=3 6 1 0 1 2 0\nending number=20 place=0\n",
    ),
    Case(
        b"LD\0\x01\0\0\0\x05LD\0\x01\0\0\0\x05LE\0\0\0\0",
        "place=1 0 d 5 0\nplace=2 0 d 5 0\nending number=20 place=0\n",
    ),
    Case(
        b"LD\0\x01\0\0\0\x05LA\0\0\0\x06\x01\0\x02\0\0\0\x01\0\0\0\x01\0\0\0\x02LD\0\x01\0\0\0\x05LA\0\0\0\x06\x01\0\x02\0\0\0\x01\0\0\0\x01\0\0\0\x02LE\0\0\0\x02",
        "place=1 0 d 5 0\nplace=2 6 1 0 1 2 0\nplace=3 0 d 5 0\nplace=4 6 1 0 1 2 0\nending number=20 place=0\n",
    ),
    Case(
        b"LA\0\0\0\x06\0\0\0LE\0\0\0\x01",
        "place=1 6 0 0\nending number=20 place=0\n",
    ),
    Case(
        b"LA\0\0\0\x06\0\0\x01\0\0\0\x02LE\0\0\0\x01",
        "place=1 6 0 2 0\nending number=20 place=0\n",
    ),
    Case(
        b"LA\0\0\0\x06\x01\0\0\xff\xff\xff\xfeLE\0\0\0\x01",
        "place=1 6 -2 0 0\nending number=20 place=0\n",
    ),
    Case(
        b"LA\0\0\0\x06\x02\0\0\xff\xff\xff\xff\0\0\0\x01LE\0\0\0\x01",
        "place=1 6 -1 1 0 0\nending number=20 place=0\n",
    ),
    Case(
        b"LD\0\0LE\0\0\0\0",
        "place=1 0 d 0\nending number=20 place=0\n",
    ),
    Case(
        b"LD\0\x03\0\0\0\x01\0\0\0\x01\0\0\x01\0LE\0\0\0\0",
        "place=1 0 d 1 1 256 0\nending number=20 place=0\n",
    ),
    Case(
        b"LA\x7f\xff\xff\xff\x02\0\x01\x7f\xff\xff\xff\x80\0\0\x01\x7f\xff\xff\xffLE\0\0\0\x01",
        "place=1 2147483647 2147483647 -2147483647 0 2147483647 0\nending number=20 place=0\n",
    ),
    Case(
        b"LD\0\x01\x7f\xff\xff\xffLE\0\0\0\0",
        "place=1 0 d 2147483647 0\nending number=20 place=0\n",
    ),
    Case(
        b"LA\x01\x02\x03\x04\x01\0\x01\xfe\xfd\xfc\xfb\0\x01\0\0LE\0\0\0\x01",
        "place=1 16909060 -16909061 0 65536 0\nending number=20 place=0\n",
    ),
    Case(
        b"LALALA\0\0\x01LELELE\0\0\0\x01",
        "place=1 1279347777 0 1279609925 0\nending number=20 place=0\n",
    ),
    Case(
        b"LA\0\0\0\n\0\0\x01\0\0\n\rLE\0\0\0\x01",
        "place=1 10 0 2573 0\nending number=20 place=0\n",
    ),
];

#[test]
fn files(rt: HostRuntime) -> Result<(), Fail> {
    expect_files(&rt, rt.alloc(), &FILES)
}
