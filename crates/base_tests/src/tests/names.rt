// The text of what was drawn: RFC 9562, section 5.4, sets the version to 4 and the variant to 10 in bits.
use dm_store::MemoryNames;
use dm_types::{CountList, NameList};
use file_names::{draw, name_text};
use std::test::Fail;

#[test]
fn a_draw_is_written_as_a_uuid(rt: HostRuntime) -> Result<(), Fail> {
    let alloc = rt.alloc();
    let mut drawn = NameList::new(alloc);
    drawn.push([0; 16])?;
    drawn.push([0xff; 16])?;
    let mut names = MemoryNames::new(drawn, CountList::new(alloc))?;
    let first = draw(&mut names).expect(&rt, "a name");
    let second = draw(&mut names).expect(&rt, "a name");
    let zeros = name_text(alloc, &first)?;
    let ones = name_text(alloc, &second)?;
    assert_eq!(rt; zeros.as_str(), "00000000-0000-4000-8000-000000000000");
    assert_eq!(rt; ones.as_str(), "ffffffff-ffff-4fff-bfff-ffffffffffff");
    Ok(())
}
