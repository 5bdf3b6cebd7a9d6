use crate::fixed_vec::FixedVec;
use crate::full::Full;

#[test]
fn push_and_pop(rt: HostRuntime) {
    let mut list: FixedVec<u8, 2> = FixedVec::new(0);
    assert!(rt; list.is_empty());
    assert_eq!(rt; list.push(5), Ok(()));
    assert_eq!(rt; list.push(6), Ok(()));
    assert_eq!(rt; list.push(7), Err(Full));
    assert_eq!(rt; list.as_slice(), [5, 6].as_slice());
    assert_eq!(rt; list.last(), Some(6));
    assert_eq!(rt; list.pop(), Some(6));
    assert_eq!(rt; list.pop(), Some(5));
    assert_eq!(rt; list.pop(), None);
}

#[test]
fn slices_that_fit(rt: HostRuntime) -> Result<(), Full> {
    let mut list: FixedVec<u8, 3> = FixedVec::from_slice(0, &[5, 6, 7])?;
    assert_eq!(rt; list.len(), 3);
    assert_eq!(rt; list.extend_from_slice(&[8]), Err(Full));
    list.truncate(1);
    assert_eq!(rt; list.extend_from_slice(&[8, 9]), Ok(()));
    assert_eq!(rt; list.as_slice(), [5, 8, 9].as_slice());
    let long: Result<FixedVec<u8, 3>, Full> = FixedVec::from_slice(0, &[5, 6, 7, 8]);
    assert!(rt; long.is_err());
    Ok(())
}

#[test]
fn places(rt: HostRuntime) -> Result<(), Full> {
    let mut list: FixedVec<u8, 3> = FixedVec::from_slice(0, &[5, 6, 7])?;
    assert_eq!(rt; list.insert(1, 9), Err(Full));
    assert_eq!(rt; list.remove(1), Some(6));
    assert_eq!(rt; list.remove(2), None);
    assert_eq!(rt; list.insert(0, 9), Ok(()));
    assert_eq!(rt; list.as_slice(), [9, 5, 7].as_slice());
    assert_eq!(rt; list.replace(2, 8), Some(7));
    assert_eq!(rt; list.replace(3, 8), None);
    assert_eq!(rt; list.get(2), Some(8));
    assert_eq!(rt; list.get(3), None);
    list.truncate(2);
    assert_eq!(rt; list.insert(7, 4), Ok(()));
    assert_eq!(rt; list.as_slice(), [9, 5, 4].as_slice());
    Ok(())
}
