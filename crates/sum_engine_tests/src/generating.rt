//! `generate_one`. Worked examples of whole runs try `check_one`, too.
use crate::streams::{MISSING, assert_wrote, files, generate, known};
use std::test::Fail;
use sum_sources::{Ending, Told};

// Standard input is empty the second time.
#[test]
fn hashing(rt: HostRuntime) -> Result<(), Fail> {
    let input = Told::new(b"abc", Ending::Whole, 1);
    let mut streams = known(input, files(rt.alloc(), "", Ending::Whole)?);
    for (name, good) in [
        ("a", true),
        ("x", false),
        ("e", true),
        ("-", true),
        ("-", true),
    ] {
        assert_eq!(rt; generate(name, &mut streams), Ok(good), "{name}");
    }
    let out = "900150983cd24fb0d6963f7d28e17f72  a\nd41d8cd98f00b204e9800998ecf8427e  e\n\
        900150983cd24fb0d6963f7d28e17f72  -\nd41d8cd98f00b204e9800998ecf8427e  -\n";
    assert_wrote(&rt, &streams, out, MISSING);
    Ok(())
}
