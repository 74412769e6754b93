use crate::records::{KIND, NUMBER};
use orderfile::read::read;
use orderfile::write::write;
use std::alloc::Global;
use std::process::Abort;
use std::test::Fail;

#[test]
fn a_record_is_written_and_nothing_after_it(rt: HostRuntime) -> Result<(), Fail> {
    let mut out = [9u8; 15];
    write(1, 1, 1, &[], &[2, 1, 0], &mut out)?;
    assert!(rt; &out[..13] == &NUMBER[..]);
    assert_eq!(rt; out[13], 9);
    assert_eq!(rt; out[14], 9);
    Ok(())
}

#[test]
fn a_kind_record_is_written_and_nothing_after_it(rt: HostRuntime) -> Result<(), Fail> {
    let mut out = [9u8; 17];
    write(1, 1, 2, &[1, 2, 3], &[12, 6, 10], &mut out)?;
    assert!(rt; &out[..16] == &KIND[..]);
    assert_eq!(rt; out[16], 9);
    Ok(())
}

// The sides, the rule, how many kinds and entries of which the first is given, how much room, and the refusal.
#[test]
fn a_refused_write_changes_nothing(rt: HostRuntime) -> Result<(), Fail> {
    let attempts = [
        ((0, 1), 9, (0, 1), (0, 2), 13, 1),
        ((17, 1), 1, (0, 1), (3, 2), 13, 1),
        ((1, 0), 1, (0, 1), (3, 2), 13, 1),
        ((1, 17), 1, (0, 1), (3, 2), 13, 1),
        ((1, 1), 0, (0, 1), (0, 2), 13, 34),
        ((1, 1), 3, (0, 1), (3, 2), 13, 34),
        ((1, 1), 1, (0, 1), (2, 2), 13, 31),
        ((1, 1), 1, (0, 1), (4, 9), 13, 31),
        ((1, 1), 2, (2, 1), (3, 12), 13, 31),
        ((1, 1), 2, (3, 16), (2, 12), 13, 31),
        ((1, 1), 1, (0, 1), (3, 3), 1, 35),
        ((1, 1), 2, (3, 16), (3, 12), 13, 35),
        ((1, 1), 1, (0, 1), (3, 2), 12, 36),
        ((1, 1), 2, (3, 15), (3, 12), 13, 36),
    ];
    let mut out = vec![in rt.alloc(); 9u8; 13]?;
    for (
        (height, width),
        rule,
        (kind_count, kind),
        (entry_count, entry),
        room,
        number,
    ) in attempts {
        assert!(rt; kind_count <= 4 && entry_count <= 4 && room <= out.len());
        let kinds = [kind, 2, 3, 4];
        let entries = [entry, 1, 0, 0];
        let written = write(
            height,
            width,
            rule,
            &kinds[..kind_count],
            &entries[..entry_count],
            &mut out[..room],
        );
        assert_eq!(rt; written.err().map(|fault| fault.number()), Some(number));
    }
    assert!(rt; out.iter().all(|byte| *byte == 9));
    Ok(())
}

// The number rule has no kinds, so they are not looked at.
#[test]
fn kinds_do_not_matter_to_the_number_rule(rt: HostRuntime) -> Result<(), Fail> {
    let mut out = [0u8; 13];
    write(1, 1, 1, &[99, 99], &[2, 1, 0], &mut out)?;
    assert!(rt; &out[..] == &NUMBER[..]);
    Ok(())
}

// Reads the record and writes it again, into too little room and into enough.
fn try_writing_back(rt: &impl Abort, heap: Global, record: &[u8]) -> Result<(), Fail> {
    let order = read(heap, record)?;
    let mut out = [0u8; 16];
    assert!(rt; 0 < record.len() && record.len() <= out.len());
    assert!(rt; order.write(&mut out[..record.len() - 1]).is_err());
    assert_eq!(rt; order.write(&mut out)?, record.len());
    assert!(rt; &out[..record.len()] == record);
    Ok(())
}

#[test]
fn what_is_read_is_written_back(rt: HostRuntime) -> Result<(), Fail> {
    try_writing_back(&rt, rt.alloc(), &NUMBER)
}

#[test]
fn what_is_read_of_kinds_is_written_back(rt: HostRuntime) -> Result<(), Fail> {
    try_writing_back(&rt, rt.alloc(), &KIND)
}

#[test]
fn the_largest_sides_are_written(rt: HostRuntime) -> Result<(), Fail> {
    let mut wanted = [0u16; 768];
    wanted[767] = 767;
    let mut out = [0u8; 1543];
    write(16, 16, 1, &[], &wanted, &mut out)?;
    assert_eq!(rt; out[5], 255);
    assert_eq!(rt; out[1541], 2);
    assert_eq!(rt; out[1542], 255);
    wanted[0] = 768;
    let refused = write(16, 16, 1, &[], &wanted, &mut out);
    assert_eq!(rt; refused.err().map(|fault| fault.number()), Some(35));
    Ok(())
}
