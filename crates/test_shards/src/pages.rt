//! Two pages of a pool of two, and none after them until one is given back.

ghost use Rattle.std.specs.Prelude.{◌≡◌, Some, length, slice_get, slice_set};
ghost use Rattle.wal_pool.specs.Pages.{Free, Taken, page_bytes, IsTakenPage};

use std::process::Abort;
use wal_pool::{NoPage, Page, Pool};

fn one_of(pool: &mut Pool, rt: &impl Abort) -> Page
    ensures free { slice_get pool.old result ≡ Some Free }
    ensures taken { pool.new
        ≡ slice_set pool.old result (Taken (page_bytes pool.new result)) }
    ensures own { IsTakenPage pool.new result }
    ensures pages { length pool.new ≡ length pool.old }
{
    pool.take().expect(rt, "a free page")
}

#[test]
fn two_pages(rt: HostRuntime) {
    let mut pool = Pool::create(rt.alloc(), 2).expect(&rt, "memory for two pages");
    let left = one_of(&mut pool, &rt);
    let right = one_of(&mut pool, &rt);
    pool.write(&left, 4093, &[1, 2, 3]);
    let written = pool.bytes(&left)[4095] == 3;
    match pool.take() {
        Ok(_) => panic!(rt; "a third page of two"),
        Err(NoPage) => pool.give(left),
    }
    let again = one_of(&mut pool, &rt);
    pool.give(again);
    pool.give(right);
    assert!(rt; written);
    assert_eq!(rt; pool.free(), 2);
    pool.close();
}
