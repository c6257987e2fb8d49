use crate::files::is_list;
use disk_host::HostDisk;
use disk_trait::Disk;
use std::fs;
use std::test::Fail;

#[test]
fn a_folder_is_a_disk_of_two_levels(rt: HostRuntime) -> Result<(), Fail> {
    let alloc = rt.alloc();
    let mut disk = HostDisk::new(alloc, rt.clone()?, "data")?;
    assert!(rt; is_list(&disk.list()?, &[]));
    assert_eq!(rt; disk.remove("d/t"), Ok(false));
    assert_eq!(rt; disk.rename("d/t", "u"), Ok(false));
    assert_eq!(rt; disk.create("d/t"), Ok(true));
    assert_eq!(rt; disk.create("d/t"), Ok(false));
    assert_eq!(rt; disk.create("a"), Ok(true));
    assert_eq!(rt; disk.write_at("d/t", 0, b"abcdef"), Ok(()));
    assert_eq!(rt; disk.write_at("d/t", 4, b"xyz"), Ok(()));
    assert_eq!(rt; disk.sync("d/t"), Ok(()));
    assert_eq!(rt; disk.size("d/t"), Ok(Some(7)));
    assert_eq!(rt; disk.cut("d/t", 6), Ok(()));
    assert_eq!(rt; disk.cut("d/t", 9), Ok(()));
    let mut bytes = [0u8; 4];
    assert_eq!(rt; disk.read_at("d/t", 3, &mut bytes), Ok(3));
    assert_eq!(rt; bytes, *b"dxy\0");
    assert_eq!(rt; disk.rename("d/t", "e/t"), Ok(true));
    assert_eq!(rt; disk.size("d/t"), Ok(None));
    fs::create_dir_all(&rt, "data/e/inner")?;
    assert!(rt; is_list(&disk.list()?, &["a", "e/inner", "e/t"]));
    assert_eq!(rt; disk.remove("e/t"), Ok(true));
    assert_eq!(rt; (disk.faults(), disk.moment()), (0, 17));
    assert!(rt; disk.sync("e/t").is_err() && disk.cut("e/t", 0).is_err());
    assert!(rt; disk.write_at("a", 1, b"x").is_err());
    assert!(rt; disk.write_at("a", u64::MAX, b"x").is_err());
    assert_eq!(rt; (disk.faults(), disk.moment()), (4, 21));
    Ok(())
}
