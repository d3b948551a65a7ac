//! Numbers at the ends of words, and what a set has after each of them came and went.
ghost use Rattle.std.specs.Prelude.{◌≡◌, length};

use number_set::NumberSet;
use std::test::Fail;

// Puts those of the numbers in that are below 130.
fn insert_all(set: &mut NumberSet, numbers: &[u32])
    requires { length set.old ≡ 130 }
    ensures { length set.new ≡ 130 }
{
    for number in numbers {
        if *number < 130 {
            set.insert(*number);
        }
    }
}

fn fill(set: &mut NumberSet)
    requires { length set.old ≡ 130 }
    ensures { length set.new ≡ 130 }
{
    for number in 0..130 {
        set.insert(number);
    }
}

fn remove_all(set: &mut NumberSet, numbers: &[u32])
    requires { length set.old ≡ 130 }
    ensures { length set.new ≡ 130 }
{
    for number in numbers {
        if *number < 130 {
            set.remove(*number);
        }
    }
}

// How many it has, the least and the greatest of them, and the least that it lacks.
fn ends(set: &NumberSet) -> (u32, Option<u32>, Option<u32>, Option<u32>) {
    (set.len(), set.least(), set.greatest(), set.least_absent())
}

#[test]
fn the_least_and_the_greatest_number_are_found(rt: HostRuntime) -> Result<(), Fail> {
    let mut set = NumberSet::new(rt.alloc(), 130)?;
    assert_eq!(rt; ends(&set), (0, None, None, Some(0)));
    insert_all(&mut set, &[129]);
    assert_eq!(rt; ends(&set), (1, Some(129), Some(129), Some(0)));
    insert_all(&mut set, &[63, 64, 63]);
    assert_eq!(rt; ends(&set), (3, Some(63), Some(129), Some(0)));
    insert_all(&mut set, &[0, 1, 2]);
    assert_eq!(rt; ends(&set), (6, Some(0), Some(129), Some(3)));
    remove_all(&mut set, &[129, 0, 0, 128]);
    assert_eq!(rt; ends(&set), (4, Some(1), Some(64), Some(0)));
    remove_all(&mut set, &[1, 2, 64]);
    assert_eq!(rt; ends(&set), (1, Some(63), Some(63), Some(0)));
    Ok(())
}

#[test]
fn a_full_set_lacks_no_number_below_its_bound(rt: HostRuntime) -> Result<(), Fail> {
    let mut set = NumberSet::new(rt.alloc(), 130)?;
    fill(&mut set);
    assert_eq!(rt; ends(&set), (130, Some(0), Some(129), None));
    remove_all(&mut set, &[127]);
    assert_eq!(rt; ends(&set), (129, Some(0), Some(129), Some(127)));
    Ok(())
}

#[test]
fn a_copy_has_what_the_other_set_has(rt: HostRuntime) -> Result<(), Fail> {
    let mut set = NumberSet::new(rt.alloc(), 130)?;
    insert_all(&mut set, &[5, 100]);
    let mut copy = NumberSet::new(rt.alloc(), 130)?;
    insert_all(&mut copy, &[7]);
    copy.copy_from(&set);
    assert_eq!(rt; ends(&copy), (2, Some(5), Some(100), Some(0)));
    Ok(())
}
