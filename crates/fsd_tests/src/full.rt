//! A name table that fills.
use crate::machines::{calm, formatted, run};
use std::alloc::{AllocError, Global};
use std::test::Fail;

// Puts of 39 empty versions with names of 40 bytes, which end with 00 and so on. A volume of sixteen pages holds 38.
fn puts(alloc: Global) -> Result<Vec<u8>, AllocError> {
    let mut script = Vec::new(alloc);
    for number in 0..39u32 {
        let put = format!(in alloc; "put nnnnnnnnnnnnnnnnnnnnnnnnnnnnnnnnnnnnnn{number:02} 0\n\n")?;
        script.extend_from_slice(put.as_bytes())?;
    }
    Ok(script)
}

const LAST: &[u8] =
    b"made nnnnnnnnnnnnnnnnnnnnnnnnnnnnnnnnnnnnnn37!1 1\nrefused table-full 7\nforced\n";

const DELETE: &str = "cfs delete w nnnnnnnnnnnnnnnnnnnnnnnnnnnnnnnnnnnnnn07!1";

#[test]
fn a_table_that_is_full_refuses(rt: HostRuntime) -> Result<(), Fail> {
    let alloc = rt.alloc();
    let m = calm(alloc, formatted(alloc, "cfs format w 3000 200 16")?);
    let (m, status) = run(alloc, m, &[], "cfs script w", puts(alloc)?.as_slice())?;
    assert!(rt; status == 0 && m.said().ends_with(LAST));
    let (m, status) = run(alloc, m, &[], DELETE, b"")?;
    assert!(rt; status == 0 && m.said().starts_with(b"deleted n"));
    Ok(())
}
