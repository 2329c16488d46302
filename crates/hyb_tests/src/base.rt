//! Storage and lists at concrete types, numbers near 0, and numbers as text.
ghost use Rattle.std.specs.Prelude.{◌≡◌, ◌<◌, IsTrue, length, slice_get, true};
ghost use Rattle.hyb_base.specs.Count.{next_count};

use hyb_base::bytes::Bytes;
use hyb_base::cells::Cells;
use hyb_base::decimal::{Decimal, print_i64, read_u64};
use hyb_base::env::{Base, Bases, Env};
use hyb_base::list::List;
use hyb_base::near::near;
use hyb_base::nums::Nums;
use hyb_base::ops::RedOp;
use std::test::Fail;

/// Cells over a list, every address of which may be got.
#[derive(Drop)]
struct Store {
    nums: Nums,
    reads: u64,
}

impl Cells for Store {
    ghost values = { λ s. s.nums };

    ghost reads = { λ s. s.reads };

    ghost may_get = { λ _ _. true };

    fn get(&mut self, address: u32) -> i64 {
        self.reads = self.reads.saturating_add(1);
        self.nums.as_slice()[address as usize]
    }

    fn put(&mut self, address: u32, value: i64) {
        self.nums.set(address as usize, value);
    }
}

/// Exchanges the values at two addresses, through the trait alone.
fn exchange<C: Cells>(cells: &mut C, a: u32, b: u32)
    requires a { a < length (C.values cells.old) }
    requires b { b < length (C.values cells.old) }
    requires a_allowed { IsTrue (C.may_get cells.old a) }
    requires b_allowed { IsTrue (C.may_get cells.old b) }
    ensures first { slice_get (C.values cells.new) b ≡ slice_get (C.values cells.old) a }
    ensures counted { C.reads cells.new ≡ next_count (next_count (C.reads cells.old)) }
{
    let first = cells.get(a);
    let second = cells.get(b);
    cells.put(a, second);
    cells.put(b, first);
}

#[test]
fn cells_are_read_and_written(rt: HostRuntime) -> Result<(), Fail> {
    let mut nums = Nums::with_capacity(rt.alloc(), 3)?;
    nums.push(7)?;
    nums.push(-8)?;
    nums.push(9)?;
    let mut store = Store {
        nums,
        reads: u64::MAX - 1,
    };
    assert_eq!(rt; store.nums.len(), 3);
    exchange(&mut store, 0, 2);
    assert_eq!(rt; store.nums.as_slice(), [9, -8, 7].as_slice());
    assert_eq!(rt; store.reads, u64::MAX);
    Ok(())
}

#[test]
fn bytes_are_kept(rt: HostRuntime) -> Result<(), Fail> {
    let mut bytes = Bytes::with_capacity(rt.alloc(), 100)?;
    bytes.push(b'a')?;
    bytes.push_slice(b"bc")?;
    assert_eq!(rt; bytes.as_slice(), b"abc".as_slice());
    let copy = bytes.copy(rt.alloc())?;
    assert_eq!(rt; copy.as_slice(), b"abc".as_slice());
    Ok(())
}

#[test]
fn bases_are_kept(rt: HostRuntime) -> Result<(), Fail> {
    let mut bases = Bases::with_capacity(rt.alloc(), 1)?;
    bases.push(Base::At(3))?;
    bases.push(Base::Value(-1))?;
    let env = Env {
        bases,
        regions: Nums::new(rt.alloc()),
        spans: Nums::new(rt.alloc()),
        indices: Nums::new(rt.alloc()),
    };
    assert_eq!(rt;
        env.bases.as_slice(),
        [Base::At(3), Base::Value(-1)].as_slice()
    );
    Ok(())
}

#[test]
fn operators_are_kept(rt: HostRuntime) -> Result<(), Fail> {
    let mut list = List::new(rt.alloc());
    list.push(RedOp::Max)?;
    let list = List::from_vec(list.into_vec());
    assert_eq!(rt; list.get(0).copied(), Some(RedOp::Max));
    assert_eq!(rt; list.get(1).copied(), None);
    Ok(())
}

const LEAST: i64 = i64::MIN;

const GREATEST: i64 = i64::MAX;

#[test]
fn near_numbers_are_told(rt: HostRuntime) {
    const EDGE: i128 = 4611686018427387904;
    for (v, told) in [
        (0, Some(0)),
        (-1, Some(-1)),
        (EDGE - 1, Some(4611686018427387903)),
        (EDGE, None),
        (1 - EDGE, Some(-4611686018427387903)),
        (-EDGE, None),
        (18446744073709551616, None),
        (i128::MAX, None),
        (i128::MIN, None),
    ] {
        assert_eq!(rt; near(v), told, "{v}");
    }
}

#[test]
fn numbers_are_printed(rt: HostRuntime) -> Result<(), Fail> {
    for (v, text) in [
        (0, "0"),
        (7, "7"),
        (-7, "-7"),
        (10, "10"),
        (-1000, "-1000"),
        (GREATEST, "9223372036854775807"),
        (LEAST, "-9223372036854775808"),
    ] {
        assert_eq!(rt; Decimal::new(v).as_slice(), text.as_bytes());
    }
    let mut line = Bytes::from_slice(rt.alloc(), b"I =")?;
    print_i64(-12, &mut line)?;
    print_i64(305, &mut line)?;
    assert_eq!(rt; line.as_slice(), b"I =-12305".as_slice());
    Ok(())
}

#[test]
fn numbers_are_read(rt: HostRuntime) {
    for (text, number) in [
        ("0", Some(0)),
        ("007", Some(7)),
        ("1234567890", Some(1234567890)),
        ("00000000000000000007", Some(7)),
        ("000000000000000000007", None),
        ("18446744073709551615", Some(u64::MAX)),
        ("18446744073709551616", None),
        ("99999999999999999999", None),
        ("", None),
        ("12a", None),
        ("a12", None),
        ("+1", None),
        ("-1", None),
        (" 1", None),
        ("1 ", None),
        ("1:", None),
        ("/1", None),
    ] {
        assert_eq!(rt; read_u64(text.as_bytes()), number, "{text}");
    }
    assert_eq!(rt; read_u64(&[b'1', 0xff]), None);
}
