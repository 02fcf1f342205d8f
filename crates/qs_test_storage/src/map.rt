//! A map answers where there is memory.
use qs_base_map::Map;
use std::test::Fail;

#[test]
fn what_was_put_is_there(rt: HostRuntime) -> Result<(), Fail> {
    let mut map = Map::new(rt.alloc());
    map.put(2u32, 20u32)?;
    map.put(1, 10)?;
    map.put(2, 21)?;
    if let Some(value) = map.get_mut(&1) {
        *value = 11;
    }
    assert!(rt; map.get(&1) == Some(&11));
    assert!(rt; map.get(&2) == Some(&21));
    assert!(rt; map.has(&3) == false);
    map.remove(&1);
    assert!(rt; map.get(&1) == None);
    Ok(())
}
