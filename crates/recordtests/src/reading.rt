use crate::records::{KIND, NUMBER};
use orderfile::fault::OrderFault;
use orderfile::read::read;
use std::alloc::Global;
use std::process::Abort;
use std::test::Fail;

// The number of the refusal to read, if there is one.
fn refusal(heap: Global, bytes: &[u8]) -> Option<u8> {
    read(heap, bytes).err().map(OrderFault::number)
}

// Reads the record with another byte at a place, for each of these places and bytes, and looks at the refusal.
fn try_damages(
    rt: &impl Abort,
    heap: Global,
    whole: &[u8],
    damages: &[(usize, u8, Option<u8>)],
) -> Result<(), Fail> {
    for (at, byte, wanted) in damages {
        let mut bytes = Vec::from_slice(heap, whole)?;
        if let Some(place) = bytes.get_mut(*at) {
            *place = *byte;
        }
        assert_eq!(rt; refusal(heap, &bytes), *wanted);
    }
    Ok(())
}

#[test]
fn number_records_with_a_wrong_byte(rt: HostRuntime) -> Result<(), Fail> {
    let damages = [
        (0, 76, None),
        (0, 108, Some(32)),
        (1, 71, Some(32)),
        (2, 48, Some(32)),
        (3, 1, Some(33)),
        (4, 0, Some(33)),
        (4, 2, Some(33)),
        (5, 1, Some(31)),
        (5, 16, Some(31)),
        (6, 0, Some(34)),
        (6, 2, Some(31)),
        (6, 3, Some(34)),
        (7, 1, Some(35)),
        (8, 3, Some(35)),
        (12, 2, None),
        (12, 3, Some(35)),
    ];
    try_damages(&rt, rt.alloc(), &NUMBER, &damages)
}

#[test]
fn kind_records_with_a_wrong_byte(rt: HostRuntime) -> Result<(), Fail> {
    let damages = [
        (0, 76, None),
        (6, 1, Some(31)),
        (7, 15, None),
        (7, 16, Some(35)),
        (9, 255, Some(35)),
        (10, 255, None),
        (15, 255, None),
    ];
    try_damages(&rt, rt.alloc(), &KIND, &damages)
}

// Reads the record cut off at each length.
fn try_cuts(rt: &impl Abort, heap: Global, whole: &[u8]) {
    for length in 0..whole.len() {
        assert_eq!(rt; refusal(heap, &whole[..length]), Some(31));
    }
}

#[test]
fn records_of_a_wrong_length(rt: HostRuntime) -> Result<(), Fail> {
    let heap = rt.alloc();
    try_cuts(&rt, heap, &NUMBER);
    try_cuts(&rt, heap, &KIND);
    let mut long = Vec::from_slice(heap, &NUMBER)?;
    long.push(0)?;
    assert_eq!(rt; refusal(heap, &long), Some(31));
    Ok(())
}

// A question is asked before those after it.
#[test]
fn the_first_wrong_answer_is_given(rt: HostRuntime) {
    let heap = rt.alloc();
    assert_eq!(rt; refusal(heap, &[76, 70, 78, 9, 9, 0]), Some(31));
    assert_eq!(rt; refusal(heap, &[76, 70, 78, 9, 9, 0, 9]), Some(32));
    assert_eq!(rt; refusal(heap, &[76, 70, 79, 9, 9, 0, 9]), Some(33));
    assert_eq!(rt; refusal(heap, &[76, 70, 79, 0, 1, 0, 9]), Some(34));
    assert_eq!(rt; refusal(heap, &[76, 70, 79, 0, 1, 0, 1]), Some(31));
}
