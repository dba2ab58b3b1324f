//! The free pages of a table.
use std::test::Fail;
use table_pages::FreePages;

#[test]
fn pages_are_added_found_and_taken_out(rt: HostRuntime) -> Result<(), Fail> {
    let mut free = FreePages::new(rt.alloc(), 6)?;
    assert_eq!(rt; (free.pages(), free.count(), free.next(0)), (6, 0, None));
    free.add(4);
    free.add(2);
    assert_eq!(rt;
        (free.count(), free.next(0), free.next(3)),
        (2, Some(2), Some(4))
    );
    assert_eq!(rt;
        (free.has(2), free.has(3), free.has(6)),
        (true, false, false)
    );
    free.remove(2);
    assert_eq!(rt;
        (free.count(), free.next(0), free.next(5)),
        (1, Some(4), None)
    );
    Ok(())
}
