use row_batch::{Batch, BatchFault, Operation};
use std::test::Fail;

/// Two puts.
const PUTS: [u8; 30] = [
    0, 0, 0, 2, 1, 0, 3, 0x01, 0x64, 0x00, 0, 0, 0, 4, 0, 0, 0, 1, 1, 0, 1, 0x0a, 0, 0, 0, 4, 0, 0,
    0, 2,
];

/// A deletion, a prefix deletion and a put.
const KINDS: [u8; 23] = [
    0, 0, 0, 3, 2, 0, 1, 9, 3, 0, 2, 1, 2, 1, 0, 1, 5, 0, 0, 0, 2, 8, 8,
];

const NOTHING: [u8; 4] = [0, 0, 0, 0];

#[test]
fn bytes_by_hand_are_a_batch_whose_frame_has_them(rt: HostRuntime) -> Result<(), Fail> {
    for bytes in [PUTS.as_slice(), KINDS.as_slice(), NOTHING.as_slice()] {
        let mut batch = Batch::read(rt.alloc(), bytes)?;
        batch.frame()?;
        let framed = batch.framed();
        let (length, rest) = framed.split_at_checked(8).ok_or("short")?;
        let (inner, gate) = rest.split_at_checked(bytes.len()).ok_or("short")?;
        assert_eq!(rt; length.last().copied(), Some(bytes.len() as u8));
        assert_eq!(rt; inner, bytes);
        assert_eq!(rt; gate, [0].as_slice());
    }
    Ok(())
}

#[test]
fn bytes_of_no_batch_are_malformed(rt: HostRuntime) {
    let cases: [(&[u8], &str); 7] = [
        (&[], "no count"),
        (&[0, 0, 0, 0, 0], "a byte behind the end"),
        (&[0, 0, 0, 2, 2, 0, 1, 9], "one operation of two"),
        (&[0, 0, 0, 1, 4, 0, 1, 9], "an unknown kind"),
        (&[0, 0, 0, 1, 2, 0, 2, 9], "a key cut short"),
        (&[0, 0, 0, 2, 2, 0, 1, 9, 2, 0, 1, 8], "keys out of order"),
        (&[0, 0, 0, 2, 3, 0, 1, 7, 2, 0, 1, 9], "kinds out of order"),
    ];
    for (bytes, what) in cases {
        let read = Batch::read(rt.alloc(), bytes);
        assert!(rt; matches!(read, Err(BatchFault::Malformed)), "{what}");
    }
}

#[test]
fn operations_are_put_in_order(rt: HostRuntime) -> Result<(), Fail> {
    let mut puts = Batch::new(rt.alloc());
    puts.put(&[0x0a], &[0, 0, 0, 2])?;
    let mut others = Batch::new(rt.alloc());
    others.put(&[0x01, 0x64, 0x00], &[0, 0, 0, 1])?;
    puts.add(&others)?;
    assert_eq!(rt; puts.place_of(&[0x0a]), Some(0));
    assert_eq!(rt; puts.place_of(&[0x01]), None);
    puts.frame()?;
    assert!(rt; puts.is_framed());
    assert_eq!(rt; puts.place_of(&[0x0a]), Some(1));
    assert_eq!(rt; puts.framed().get(8..38), Some(PUTS.as_slice()));
    Ok(())
}

#[test]
fn deletions_stand_before_puts(rt: HostRuntime) -> Result<(), Fail> {
    let mut batch = Batch::new(rt.alloc());
    batch.put(&[5], &[8, 8])?;
    let mut deletions = Batch::new(rt.alloc());
    deletions.delete_prefix(&[1, 2])?;
    batch.add(&deletions)?;
    let mut more = Batch::new(rt.alloc());
    more.delete(&[9])?;
    batch.add(&more)?;
    batch.frame()?;
    assert_eq!(rt; batch.framed().get(8..31), Some(KINDS.as_slice()));
    Ok(())
}

#[test]
fn a_put_is_replaced_in_the_frame_too(rt: HostRuntime) -> Result<(), Fail> {
    let mut batch = Batch::new(rt.alloc());
    batch.put(&[5], &[1, 1])?;
    batch.frame()?;
    batch.set(0, &[5], &[7, 8]);
    let framed: [u8; 23] = [
        0, 0, 0, 0, 0, 0, 0, 14, 0, 0, 0, 1, 1, 0, 1, 5, 0, 0, 0, 2, 7, 8, 0,
    ];
    assert_eq!(rt; batch.framed(), framed.as_slice());
    assert!(rt; matches!(batch.operations(), [Operation::Put { .. }]));
    Ok(())
}
