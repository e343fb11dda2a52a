//! The lists by key.

use cnf_base::OutOfMemory;
use std::alloc::Global;
use std::test::Fail;
use tables::Lists;
use test_inputs::expect_equal;

/// For how many entries a list of one has room, after it was put back with room for so many more.
fn room_kept(alloc: Global, key: u32, more: usize) -> Result<usize, OutOfMemory> {
    let mut lists: Lists<u32> = Lists::new(alloc);
    lists.push(key, 7)?;
    if !lists.has_list(key) {
        return Ok(0);
    }
    let mut list = lists.take_out(key);
    list.reserve_exact(more)?;
    lists.put_back(key, list);
    Ok(lists.take_out(key).capacity())
}

#[test]
fn gives_room_back(rt: HostRuntime) -> Result<(), Fail> {
    for key in [0, 50000, u32::MAX] {
        expect_equal(room_kept(rt.alloc(), key, 1999)?, 256)?;
        expect_equal(room_kept(rt.alloc(), key, 7)?, 8)?;
    }
    Ok(())
}
